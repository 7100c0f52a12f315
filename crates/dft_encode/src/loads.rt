//! The loads of patterns.

ghost use Rattle.std.specs.Prelude.{ℕ, ◌≡◌, ◌+◌, ◌-◌, ◌<◌, ◌≤◌, Some, length, slice_get, IfOk};
ghost use Rattle.dft_encode.specs.Finding.{IsFinder, IsLoad};
ghost use Rattle.dft_encode.specs.declared.loads.Load.{Load};

use crate::bits::channel_bits;
use crate::finder::Finder;
use dft_base::Listed;
use dft_expect::loaded;
use std::alloc::AllocError;

// The load of a pattern.
#[derive(Debug, Drop)]
pub(crate) struct Load {
    // The bits of the channels, one a column, packed into words.
    pub(crate) bits: Listed<u64>,
    // What they bring to the cells, chain by chain.
    pub(crate) cells: Listed<bool>,
}

// The load of the pattern of this number.
fn load_of(finder: &Finder<'_>, number: u32) -> Result<Load, AllocError>
    requires finder { IsFinder finder.now }
    requires number { number < length finder.now.merger.now.patterns }
    ensures { IfOk result (IsLoad finder.now number) }
{
    let config = finder.loads.config();
    let columns = finder.loads.equations().columns();
    let bits = channel_bits(finder.alloc, config, finder.merger, number, columns)?;
    let cells = loaded(finder.alloc, config, finder.loads.chains(), &bits)?;
    Ok(Load {
        bits: Listed::from_vec(bits),
        cells: Listed::from_vec(cells),
    })
}

// The loads of so many patterns from this number on.
pub(crate) fn loads(
    finder: &Finder<'_>,
    first: usize,
    count: usize,
) -> Result<Vec<Load>, AllocError>
    requires finder { IsFinder finder.now }
    requires count { first + count ≤ length finder.now.merger.now.patterns }
    ensures count { IfOk result (λ loads. length loads.items ≡ count) }
    ensures each { IfOk result (λ loads. (k : ℕ) (l : Load) → slice_get loads.items k ≡ Some l → IsLoad finder.now (first + k) l) }
{
    let mut loads = Vec::with_capacity(finder.alloc, count)?;
    for k in 0..count {
        loads.push(load_of(finder, (first + k) as u32)?)?;
    }
    Ok(loads)
}
