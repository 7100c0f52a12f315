//! Signals that pulse, and vectors that leave them high or unset.

ghost use Rattle.std.specs.Prelude.{◌≡◌, ◌≤◌, ◌||◌, ℕ, All, length, IfOk, false, get_or};
ghost use Rattle.dft_patterns.specs.Steadiness as spec;
ghost use Rattle.dft_patterns.specs.Steadiness.{HaveLength, IsPulseFlags};

use crate::act::{Act, Acts};
use crate::pattern_set::PatternSet;
use std::alloc::{AllocError, Global};

/// A signal that pulses in some vector, and is High or Unset in this one. Both are numbered from 0.
#[derive(Clone, Copy, Debug, PartialEq, Eq)]
pub struct Unsteady {
    pub vector: usize,
    pub signal: usize,
}

fn is_pulse(act: Act) -> bool
    ensures { result ≡ spec.is_pulse act }
{
    matches!(act, Act::Pulse)
}

fn is_not_low(act: Act) -> bool
    ensures { result ≡ spec.is_not_low act }
{
    matches!(act, Act::High | Act::Unset)
}

// Flags the signals that pulse in this vector.
fn flag_pulses(acts: &[Act], flags: &mut [bool])
    requires { length acts.now ≤ length flags.old }
    ensures length { length flags.new ≡ length flags.old }
    ensures each { (signal : ℕ) → get_or flags.new signal false ≡ (spec.is_pulse (spec.act_of_signal acts.now signal) || get_or flags.old signal false) }
{
    for (signal, act) in acts.iter().enumerate() {
        if is_pulse(*act) {
            flags[signal] = true;
        }
    }
}

// The signals that pulse in some vector.
fn pulse_flags(alloc: Global, count: usize, vectors: &[Acts]) -> Result<Vec<bool>, AllocError>
    requires { HaveLength count vectors.now }
    ensures { IfOk result (λ flags. IsPulseFlags count vectors.now flags.items) }
{
    let mut flags = vec![in alloc; false; count]?;
    for acts in vectors {
        flag_pulses(acts.as_slice(), &mut flags);
    }
    Ok(flags)
}

// The first flagged signal that is not low in this vector.
fn first_not_low(flags: &[bool], acts: &[Act]) -> Option<usize>
    requires { length acts.now ≤ length flags.now }
    ensures { result ≡ spec.first_not_low (λ signal. get_or flags.now signal false) 0 acts.now }
{
    for (signal, act) in acts.iter().enumerate() {
        if is_not_low(*act) && flags[signal] {
            return Some(signal);
        }
    }
    None
}

/// The first vector in which a signal that pulses in some vector is High or Unset, and the first such
/// signal in it. Its time is linear in the number of acts.
pub fn first_unsteady(alloc: Global, set: &PatternSet) -> Result<Option<Unsteady>, AllocError>
    requires { HaveLength (length set.now.signals) set.now.vectors }
    ensures { IfOk result (λ found. found ≡ spec.first_unsteady set.now) }
{
    let vectors = set.vectors();
    let flags = pulse_flags(alloc, set.signals().len(), vectors)?;
    for (vector, acts) in vectors.iter().enumerate() {
        if let Some(signal) = first_not_low(&flags, acts.as_slice()) {
            return Ok(Some(Unsteady { vector, signal }));
        }
    }
    Ok(None)
}
