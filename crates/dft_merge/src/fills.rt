//! The bits that the channels take where no equation decides.

ghost use Rattle.std.specs.Prelude.{◌≡◌, ◌/◌, ◌<◌, IfOk, length};
ghost use Rattle.dft_config.specs.declared.config.FillRule.TheVariants.{Seed};
ghost use Rattle.dft_merge.specs.Fills as spec;
ghost use Rattle.dft_merge.specs.Fills.{fill_of};

use dft_config::{Config, FillRule};
use dft_random::drawn;
use std::alloc::{AllocError, Global};

/// The fill bits of a pattern, one for each of so many columns: zeros, ones, or the bits, lowest first, of the words of 32
/// bits that the generator PCG XSH RR 64/32 gives with the seed for its state and the pattern's number for its stream.
pub fn fill_bits(
    alloc: Global,
    config: &Config,
    pattern: u32,
    columns: u32,
) -> Result<Vec<bool>, AllocError>
    ensures { IfOk result (λ bits. bits.items ≡ fill_of config.now.fill pattern columns) }
{
    match config.fill() {
        FillRule::Zeros => vec![in alloc; false; columns as usize],
        FillRule::Ones => vec![in alloc; true; columns as usize],
        FillRule::Seed(seed) => seeded(alloc, seed, pattern, columns),
    }
}

// The bits of the words that a pattern's generator gives.
fn seeded(alloc: Global, seed: u64, pattern: u32, columns: u32) -> Result<Vec<bool>, AllocError>
    ensures { IfOk result (λ bits. bits.items ≡ fill_of (Seed seed) pattern columns) }
{
    let words = drawn(alloc, seed, pattern, (columns as usize + 31) / 32)?;
    let mut bits = Vec::with_capacity(alloc, columns as usize)?;
    for column in 0..columns {
        bits.push(bit_of_column(&words, column as usize))?;
    }
    Ok(bits)
}

// The bit of a column.
fn bit_of_column(words: &[u32], column: usize) -> bool
    requires { column / 32 < length words.now }
    ensures { result ≡ spec.bit_of_column words.now column }
{
    words[column / 32] >> (column % 32) & 1 == 1
}
