//! The phase sets of a ring.

ghost use Rattle.std.specs.Prelude.{◌≡◌, ◌<◌, ◌≤◌, [], IfOk, length};
ghost use Rattle.dft_decompressor.specs.Phases as spec;
ghost use Rattle.dft_decompressor.specs.Phases.{ArePhases, Pass, generator, tries};
ghost use Rattle.dft_decompressor.specs.StageSets.{threes};

use crate::sizing::rounded_up;
use crate::taken::Taken;
use crate::threes::{count, ranked};
use dft_base::Listed;
use rand_core::utils::NextWord;
use rand_pcg::Lcg64Xsh32;
use std::alloc::{AllocError, Global};

// How many words a pass tries.
const TRIES: u32 = 65536;

// The set of a word, by the number of sets.
fn set_of_word(alloc: Global, stages: u8, count: u32, word: u32) -> Result<Listed<u8>, AllocError>
    requires stages { stages ≤ 128 }
    requires count { count ≡ length (threes stages) }
    ensures { IfOk result (λ set. set ≡ spec.set_of_word stages word) }
{
    if count == 0 {
        return Ok(Listed::from_vec(Vec::new(alloc)));
    }
    match ranked(stages, word % count) {
        Some(three) => three.listed(alloc),
        None => Ok(Listed::from_vec(Vec::new(alloc))),
    }
}

// The sets of a pass.
fn pass(
    alloc: Global,
    stages: u8,
    chains: u16,
    bound: u32,
) -> Result<Listed<Listed<u8>>, AllocError>
    requires { (3 ≤ stages) × (stages ≤ 128) }
    ensures pass { IfOk result (λ sets. Pass (record { stages = stages; chains = chains; bound = bound }) tries (generator stages) [] sets) }
    ensures few { IfOk result (λ sets. length sets ≤ chains) }
{
    let count = count(stages);
    let mut random = Lcg64Xsh32::new(0, u64::from(stages));
    let mut taken = Taken::new(alloc, stages)?;
    for _turn in 0..TRIES {
        if taken.count() >= usize::from(chains) {
            return Ok(taken.into_sets());
        }
        let set = set_of_word(alloc, stages, count, random.next_word())?;
        taken.try_take(alloc, bound, set)?;
    }
    Ok(taken.into_sets())
}

/// The phase sets of so many chains over a ring of so many stages, one for each chain, in rising order; None where the stated
/// rule gives none.
pub fn phases(
    alloc: Global,
    stages: u8,
    chains: u16,
) -> Result<Option<Listed<Listed<u8>>>, AllocError>
    requires stages { (3 ≤ stages) × (stages ≤ 128) }
    requires chains { chains ≤ 1024 }
    ensures { IfOk result (ArePhases stages chains) }
{
    let share = rounded_up(3 * u32::from(chains), u32::from(stages));
    for slack in 0..4 {
        let sets = pass(alloc, stages, chains, share + slack)?;
        if sets.as_slice().len() >= usize::from(chains) {
            return Ok(Some(sets));
        }
    }
    Ok(None)
}
