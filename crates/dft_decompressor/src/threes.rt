//! Sets of three stages, by their rank.

ghost use Rattle.std.specs.Prelude.{◌≡◌, ◌<◌, ◌≤◌, ◌+◌, length, option_map, slice_get, IfOk};
ghost use Rattle.dft_decompressor.specs.StageSets as spec;
ghost use Rattle.dft_decompressor.specs.Threes.{stages_in};

use dft_base::Listed;
use std::alloc::{AllocError, Global};

// Three stages in rising order.
#[derive(Clone, Copy, Debug)]
pub(crate) struct Three {
    pub(crate) first: u8,
    pub(crate) second: u8,
    pub(crate) third: u8,
}

impl Three {
    // The stages as a list.
    pub(crate) fn listed(self, alloc: Global) -> Result<Listed<u8>, AllocError>
        ensures { IfOk result (λ set. set ≡ stages_in self) }
    {
        let mut set = Vec::with_capacity(alloc, 3)?;
        set.push(self.first)?;
        set.push(self.second)?;
        set.push(self.third)?;
        Ok(Listed::from_vec(set))
    }
}

// How many sets have this first stage.
fn count_after(stages: u8, first: u8) -> u32
    requires stages { stages ≤ 128 }
    requires first { first < stages }
    ensures count { result ≡ length (spec.threes_after stages first) }
    ensures few { result ≤ 16384 }
{
    let mut count = 0;
    for second in first + 1..stages {
        count += u32::from(stages - 1 - second);
    }
    count
}

// How many sets there are.
#[tactic(auto, unfolding(crate::specs::StageSets::threes))]
pub(crate) fn count(stages: u8) -> u32
    requires { stages ≤ 128 }
    ensures { result ≡ length (spec.threes stages) }
{
    let mut count = 0;
    for first in 0..stages {
        count += count_after(stages, first);
    }
    count
}

// The set of this rank among those with this first stage.
fn ranked_after(stages: u8, first: u8, rank: u32) -> Option<Three>
    requires stages { stages ≤ 128 }
    requires first { first < stages }
    ensures { option_map stages_in result ≡ slice_get (spec.threes_after stages first) rank }
{
    let mut left = rank;
    for second in first + 1..stages {
        let count = u32::from(stages - 1 - second);
        if left < count {
            return Some(Three {
                first,
                second,
                third: second + 1 + left as u8,
            });
        }
        left -= count;
    }
    None
}

// The set of this rank among all of them.
#[tactic(auto, unfolding(crate::specs::StageSets::threes))]
pub(crate) fn ranked(stages: u8, rank: u32) -> Option<Three>
    requires { stages ≤ 128 }
    ensures { option_map stages_in result ≡ slice_get (spec.threes stages) rank }
{
    let mut left = rank;
    for first in 0..stages {
        let count = count_after(stages, first);
        if left < count {
            return ranked_after(stages, first, left);
        }
        left -= count;
    }
    None
}
