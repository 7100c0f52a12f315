//! Sets of stages, and what they become from cycle to cycle.

ghost use Rattle.std.specs.Prelude.{◌≡◌, ◌<◌, ◌+◌, ◌-◌, ◌%◌, ◌&&◌, ◌==◌, IfOk, length};
ghost use Rattle.std.specs.List.{list_any};
ghost use Rattle.dft_base.specs.Solutions.{bit_at};
ghost use Rattle.dft_config.specs.Range.{has};
ghost use Rattle.dft_config.specs.Ring.{sum_of};
ghost use Rattle.dft_decompressor.specs.StageSets as spec;
ghost use Rattle.dft_decompressor.specs.Stamps as stamps;

use crate::stamps::{Stamped, stamp_of};
use dft_base::Listed;
use dft_config::Tap;
use std::alloc::{AllocError, Global};

// Whether a stage is in a set.
fn has_stage(set: &[bool], stage: usize) -> bool
    ensures { result ≡ bit_at set.now stage }
{
    match set.get(stage) {
        Some(bit) => *bit,
        None => false,
    }
}

// Whether a stage is among these.
pub(crate) fn is_among(set: &[u8], stage: u8) -> bool
    ensures { result ≡ list_any (λ other. other == stage) set.now }
{
    set.iter().any(|other| *other == stage)
}

// The set of these stages, as a bit for each stage.
pub(crate) fn bits_of(alloc: Global, stages: u8, set: &[u8]) -> Result<Listed<bool>, AllocError>
    ensures { IfOk result (λ bits. bits ≡ spec.bits_of stages set.now) }
{
    let mut bits = Vec::with_capacity(alloc, usize::from(stages))?;
    for stage in 0..stages {
        bits.push(is_among(set, stage))?;
    }
    Ok(Listed::from_vec(bits))
}

// Whether a tap leaves at a stage and enters a set.
fn brings(tap: Tap, set: &[bool], stage: usize) -> bool
    ensures { result ≡ ((tap.from == stage) && bit_at set.now tap.to) }
{
    usize::from(tap.from) == stage && has_stage(set, usize::from(tap.to))
}

// What the taps that leave at a stage bring from a set.
fn tapped(taps: &[Tap], set: &[bool], stage: usize) -> bool
    ensures { result ≡ sum_of (λ tap. (tap.from == stage) && bit_at set.now tap.to) taps.now }
{
    let mut sum = false;
    for tap in taps {
        sum ^= brings(*tap, set, stage);
    }
    sum
}

// Whether a stage is in the moved set.
fn moved_bit(taps: &[Tap], set: &[bool], stage: usize) -> bool
    requires { stage < length set.now }
    ensures { result ≡ spec.moved_bit taps.now set.now stage }
{
    has_stage(set, (stage + (set.len() - 1)) % set.len()) ^ tapped(taps, set, stage)
}

// The set whose sum before a step is that of this set after it.
fn moved(alloc: Global, taps: &[Tap], set: &[bool]) -> Result<Listed<bool>, AllocError>
    ensures { IfOk result (λ bits. bits ≡ spec.moved taps.now set.now) }
{
    let mut bits = Vec::with_capacity(alloc, set.len())?;
    for stage in 0..set.len() {
        bits.push(moved_bit(taps, set, stage))?;
    }
    Ok(Listed::from_vec(bits))
}

// A set, and what it becomes in as many cycles as there are stages.
pub(crate) fn moves_of(
    alloc: Global,
    stages: u8,
    taps: &[Tap],
    set: &[u8],
) -> Result<Listed<Stamped>, AllocError>
    ensures { IfOk result (λ moves. moves ≡ spec.moves_of stages taps.now set.now) }
{
    let mut moves = Vec::with_capacity(alloc, usize::from(stages) + 1)?;
    let mut last = bits_of(alloc, stages, set)?;
    for _cycle in 0..stages {
        let next = moved(alloc, taps, last.as_slice())?;
        moves.push(Stamped::of(last))?;
        last = next;
    }
    moves.push(Stamped::of(last))?;
    Ok(Listed::from_vec(moves))
}

// Whether a set with this stamp is among these.
fn has_set(moves: &[Stamped], stamp: u64, set: &[bool]) -> bool
    requires { stamp ≡ stamps.stamp_of set.now }
    ensures { result ≡ has spec.same_set moves.now set.now }
{
    for other in moves {
        if other.is_same(stamp, set) {
            return true;
        }
    }
    false
}

// The first of some moves.
fn set_itself(moves: &[Stamped]) -> &[bool]
    ensures { result.now ≡ spec.set_itself moves.now }
{
    match moves.first() {
        Some(stamped) => stamped.set(),
        None => &[],
    }
}

// Whether the set of these moves is among others.
fn meets(moves: &[Stamped], others: &[Stamped]) -> bool
    ensures { result ≡ has spec.same_set others.now (spec.set_itself moves.now) }
{
    let set = set_itself(moves);
    has_set(others, stamp_of(set), set)
}

// Whether two sets, with their moves, are apart.
pub(crate) fn are_apart(moves: &[Stamped], others: &[Stamped]) -> bool
    ensures { result ≡ spec.are_apart moves.now others.now }
{
    !meets(others, moves) && !meets(moves, others)
}
