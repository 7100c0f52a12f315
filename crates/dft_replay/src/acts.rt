//! What the acts of vectors say of signals by number.

ghost use Rattle.std.specs.Prelude.{◌≡◌, false, length, map, IfOk, None};
ghost use Rattle.dft_base.specs.declared.tri.Tri.{Tri};
ghost use Rattle.dft_replay.specs.Rows as rows;
ghost use Rattle.dft_replay.specs.Vectors as spec;
ghost use Rattle.dft_replay.specs.Verdicts.{at_unknown, bit_decides};

use crate::verdict::{Unknowns, Verdict};
use dft_base::Tri;
use dft_netlist::NetId;
use dft_patterns::{Act, Acts};
use std::alloc::{AllocError, Global};

// The act at the signal with this number.
pub(crate) fn act_at(acts: &[Act], signal: usize) -> Act
    ensures { result ≡ spec.act_at acts.now signal }
{
    acts.get(signal).copied().unwrap_or(Act::Unset)
}

// What an act leaves an input at that had this value before.
pub(crate) fn set_by(act: Act, before: Tri) -> Tri
    ensures { result ≡ rows.set_by act before }
{
    match act {
        Act::Low | Act::Pulse => Tri::Zero,
        Act::High => Tri::One,
        Act::Unset | Act::ExpectLow | Act::ExpectHigh | Act::Ignore => before,
    }
}

// Whether two values differ.
pub(crate) fn differ(one: Tri, other: Tri) -> bool
    ensures { result ≡ false → one ≡ other }
{
    match (one, other) {
        (Tri::Zero, Tri::Zero) | (Tri::One, Tri::One) | (Tri::Unknown, Tri::Unknown) => false,
        _ => true,
    }
}

fn is_pulse(act: Act) -> bool
    ensures { result ≡ rows.is_pulse act }
{
    match act {
        Act::Pulse => true,
        _ => false,
    }
}

// The bit that an act compares, if it compares one.
pub(crate) fn printed(act: Act) -> Option<bool>
    ensures { result ≡ spec.printed act }
{
    match act {
        Act::ExpectLow => Some(false),
        Act::ExpectHigh => Some(true),
        _ => None,
    }
}

// What a compared bit comes to where its value is not as printed.
pub(crate) fn differs(
    unknowns: Unknowns,
    vector: u32,
    signal: u32,
    value: Tri,
    printed: bool,
) -> Option<Verdict>
    ensures { result ≡ bit_decides unknowns vector signal value printed None }
{
    match (value, printed) {
        (Tri::Unknown, _) => undetermined(unknowns, vector, signal),
        (Tri::Zero, true) | (Tri::One, false) => Some(Verdict::Mismatch { vector, signal }),
        (Tri::Zero, false) | (Tri::One, true) => None,
    }
}

// What an unknown bit comes to.
fn undetermined(unknowns: Unknowns, vector: u32, signal: u32) -> Option<Verdict>
    ensures { result ≡ at_unknown unknowns vector signal None }
{
    match unknowns {
        Unknowns::Stop => Some(Verdict::Undetermined { vector, signal }),
        Unknowns::Skip => None,
    }
}

// Whether the signal with this number pulses in some vector.
fn pulses_at(vectors: &[Acts], signal: usize) -> bool
    ensures { result ≡ spec.pulses_at vectors.now signal }
{
    vectors
        .iter()
        .any(|acts| is_pulse(act_at(acts.as_slice(), signal)))
}

// The signals that pulse in some vector, of the first so many.
pub(crate) fn clocks_of(
    alloc: Global,
    count: usize,
    vectors: &[Acts],
) -> Result<Vec<usize>, AllocError>
    ensures { IfOk result (λ clocks. clocks.items ≡ spec.clocks_of count vectors.now) }
{
    let mut clocks = Vec::new(alloc);
    for signal in 0..count {
        if pulses_at(vectors, signal) {
            clocks.push(signal)?;
        }
    }
    Ok(clocks)
}

// The nets of these signals.
pub(crate) fn nets_at(
    alloc: Global,
    nets: &[NetId],
    signals: &[usize],
) -> Result<Vec<NetId>, AllocError>
    ensures { IfOk result (λ found. found.items ≡ map (spec.net_at nets.now) signals.now) }
{
    signals
        .iter()
        .map(|signal| nets.get(*signal).copied().unwrap_or(NetId(0)))
        .collect(alloc)
}

// Says of each clock whether it pulses in this vector.
pub(crate) fn mark(clocks: &[usize], acts: &[Act], pulsed: &mut [bool])
    requires { length pulsed.old ≡ length clocks.now }
    ensures { pulsed.new ≡ map (λ signal. rows.is_pulse (spec.act_at acts.now signal)) clocks.now }
{
    for (place, signal) in clocks.iter().enumerate() {
        pulsed[place] = is_pulse(act_at(acts, *signal));
    }
}
