//! The first cells of the chains.

ghost use Rattle.std.specs.Prelude.{◌≡◌, IfOk};
ghost use Rattle.dft_stitch.specs.Chains as spec;

use crate::cells::Cells;
use crate::lockups::clock_at;
use dft_netlist::InstanceId;
use dft_rules::Verdicts;
use std::alloc::{AllocError, Global};

// Whether the first cell of each chain is falling.
pub(crate) fn find_heads(
    alloc: Global,
    verdicts: &Verdicts,
    chains: &[Cells],
) -> Result<Vec<bool>, AllocError>
    ensures { IfOk result (λ heads. heads.items ≡ spec.heads_of verdicts.now chains.now) }
{
    let mut heads = Vec::with_capacity(alloc, chains.len())?;
    for cells in chains {
        heads.push(begins_falling(verdicts, cells.as_slice()))?;
    }
    Ok(heads)
}

fn begins_falling(verdicts: &Verdicts, cells: &[InstanceId]) -> bool
    ensures { result ≡ spec.begins_falling verdicts.now cells.now }
{
    match clock_at(verdicts, cells, 0) {
        Some(clock) => clock.falling,
        None => false,
    }
}
