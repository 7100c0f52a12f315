//! The length of the whole written form.

ghost use Rattle.std.specs.Prelude.{◌≡◌, ◌≤◌, ◌^◌, length, IfSome, None};
ghost use Rattle.dft_patterns.specs.Patterns.{inputs, outputs};
ghost use Rattle.dft_stil_out.specs.WrittenLength as spec;

use crate::parts::{
    declarations_length, group_length, line_length, notes_length, waveforms_length,
};
use dft_patterns::{Note, StilSignal, groups};

fn frame_length(ins: &[StilSignal], outs: &[StilSignal]) -> Option<u64>
    ensures length { IfSome result (λ n. n ≡ spec.frame_length (length ins.now) (spec.name_bytes ins.now) (length outs.now) (spec.name_bytes outs.now)) }
    ensures large { result ≡ None → 2 ^ 64 ≤ spec.frame_length (length ins.now) (spec.name_bytes ins.now) (length outs.now) (spec.name_bytes outs.now) }
{
    let all_waveforms = 185 + waveforms_length(ins, 73) + waveforms_length(outs, 74);
    group_length(3, ins)?
        .checked_add(group_length(4, outs)?)?
        .checked_add(all_waveforms)
}

/// How many bytes the written form of patterns with these signals, so many vectors and these notes has (IEEE 1450-1999); none
/// where they are 2^64 or more.
pub fn written_length(signals: &[StilSignal], vectors: u64, notes: &[Note]) -> Option<u64>
    ensures length { IfSome result (λ n. n ≡ spec.written_length signals.now vectors notes.now) }
    ensures large { result ≡ None → 2 ^ 64 ≤ spec.written_length signals.now vectors notes.now }
{
    let (ins, outs) = groups(signals);
    let head = declarations_length(signals)?.checked_add(frame_length(ins, outs)?)?;
    let lines = line_length(ins.len(), outs.len())?.checked_mul(vectors)?;
    head.checked_add(lines)?.checked_add(notes_length(notes)?)
}
