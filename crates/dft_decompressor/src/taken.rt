//! The sets that a pass has taken.

ghost use Rattle.std.specs.Prelude.{◌≡◌, ◌≤◌, [], IfOk, OnOk, length, if◌then◌else◌};
ghost use Rattle.std.specs.List.{list_all};
ghost use Rattle.dft_decompressor.specs.Phases as spec;
ghost use Rattle.dft_decompressor.specs.Taken.{after_set};
ghost use Rattle.dft_decompressor.specs.StageSets as sets;

use crate::stage_sets::{are_apart, is_among, moves_of};
use crate::stamps::Stamped;
use crate::tapping::taps;
use dft_base::Listed;
use dft_config::Tap;
use std::alloc::{AllocError, Global};
use std::marker::Model;

// The sets that a pass over a ring of so many stages has taken, with what each becomes from cycle to cycle.
pub(crate) struct Taken {
    stages: u8,
    taps: Vec<Tap>,
    sets: Vec<Listed<u8>>,
    moves: Vec<Listed<Stamped>>,
}

// One call for all fields, so that the proof of what owns a value stays short.
impl Drop for Taken {
    fn drop(self) {
        let Taken {
            stages: _,
            taps: _,
            sets: _,
            moves: _,
        } = self;
    }
}

impl Model for Taken {
    ghost use Rattle.dft_decompressor.specs.Taken.{TakenSets};

    ghost Value = { TakenSets };

    ghost use Rattle.dft_decompressor.specs.Shown.{taken_in, IsTaken};

    ghost view = { taken_in };

    ghost invariant = { IsTaken };
}

impl Taken {
    // None yet.
    pub(crate) fn new(alloc: Global, stages: u8) -> Result<Taken, AllocError>
        ensures stages { IfOk result (λ taken. taken.stages ≡ stages) }
        ensures sets { IfOk result (λ taken. taken.sets ≡ []) }
    {
        Ok(Taken {
            stages,
            taps: taps(alloc, stages)?,
            sets: Vec::new(alloc),
            moves: Vec::new(alloc),
        })
    }

    // How many there are.
    pub(crate) fn count(&self) -> usize
        ensures { result ≡ length self.now.sets }
    {
        self.sets.len()
    }

    // Takes a set where it may follow.
    #[tactic(auto, unfolding(crate::specs::Phases::may_follow))]
    pub(crate) fn try_take(
        &mut self,
        alloc: Global,
        bound: u32,
        set: Listed<u8>,
    ) -> Result<(), AllocError>
        ensures stages { self.new.stages ≡ self.old.stages }
        ensures sets { OnOk result (self.new.sets ≡ after_set self.old.stages bound self.old.sets set) }
    {
        if !is_balanced(bound, &self.sets, set.as_slice()) {
            return Ok(());
        }
        let moves = moves_of(alloc, self.stages, &self.taps, set.as_slice())?;
        if !is_apart(&self.moves, moves.as_slice()) {
            return Ok(());
        }
        self.sets.reserve(1)?;
        self.moves.reserve(1)?;
        self.sets.push_reserved(set);
        self.moves.push_reserved(moves);
        Ok(())
    }

    // The sets.
    pub(crate) fn into_sets(self) -> Listed<Listed<u8>>
        ensures { result ≡ self.sets }
    {
        let Taken {
            stages: _,
            taps: _,
            sets,
            moves: _,
        } = self;
        Listed::from_vec(sets)
    }
}

// 1 where it holds, else 0.
fn one_if(holds: bool) -> usize
    ensures one { result ≡ (if holds then 1 else 0) }
    ensures few { result ≤ 1 }
{
    if holds { 1 } else { 0 }
}

// In how many sets a stage is.
fn times_in(sets: &[Listed<u8>], stage: u8) -> usize
    ensures { result ≡ spec.times_in sets.now stage }
{
    let mut times = 0;
    for set in sets {
        times += one_if(is_among(set.as_slice(), stage));
    }
    times
}

// Whether each stage of a set is in fewer sets than the bound.
fn is_balanced(bound: u32, sets: &[Listed<u8>], set: &[u8]) -> bool
    ensures { result ≡ spec.is_balanced bound sets.now set.now }
{
    for stage in set {
        if times_in(sets, *stage) >= bound as usize {
            return false;
        }
    }
    true
}

// Whether a set with these moves is apart from each of these.
fn is_apart(others: &[Listed<Stamped>], moves: &[Stamped]) -> bool
    ensures { result ≡ list_all (λ other. sets.are_apart moves.now other) others.now }
{
    for other in others {
        if !are_apart(moves, other.as_slice()) {
            return false;
        }
    }
    true
}
