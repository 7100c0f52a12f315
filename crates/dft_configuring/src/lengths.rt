//! The lengths of planned chains.

ghost use Rattle.std.specs.Prelude.{◌≡◌, ◌≤◌, IfOk, length, map};
ghost use Rattle.std.specs.List.{All};

use dft_stitch::Chains;
use std::alloc::{AllocError, Global};

// How many cells each chain has.
pub(crate) fn lengths_of(alloc: Global, chains: &Chains) -> Result<Vec<u16>, AllocError>
    requires cells { All (λ cells. length cells ≤ chains.now.cycles) chains.now.chains }
    requires cycles { chains.now.cycles ≤ 4096 }
    ensures { IfOk result (λ lengths. lengths.items ≡ map length chains.now.chains) }
{
    let mut lengths = Vec::with_capacity(alloc, usize::from(chains.count()))?;
    for chain in 0..chains.count() {
        let cells = chains.chain(chain).len();
        lengths.push(cells as u16)?;
    }
    Ok(lengths)
}
