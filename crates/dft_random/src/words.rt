//! The words of a generator.

ghost use Rattle.std.specs.Prelude.{◌≡◌, IfOk};
ghost use Rattle.rand_core.specs.Steps.{first_words};
ghost use Rattle.rand_pcg.specs.Pcg.{pcg32};
ghost use Rattle.dft_random.specs.Words.{generator};

use rand_core::utils::NextWord;
use rand_pcg::Lcg64Xsh32;
use std::alloc::{AllocError, Global};

/// The first words, so many, that the generator PCG XSH RR 64/32 gives with the seed for its state, on the stream of this number.
pub fn drawn(alloc: Global, seed: u64, stream: u32, count: usize) -> Result<Vec<u32>, AllocError>
    ensures { IfOk result (λ words. words.items ≡ first_words pcg32 count (generator seed stream)) }
{
    let mut random = Lcg64Xsh32::new(seed, u64::from(stream));
    let mut words = Vec::with_capacity(alloc, count)?;
    for _turn in 0..count {
        words.push(random.next_word())?;
    }
    Ok(words)
}
