//! The lengths of parts of the written form. None where a number of 64 bits does not hold it.

ghost use Rattle.std.specs.Prelude.{◌≡◌, ◌<◌, ◌≤◌, ◌^◌, length, IfSome, None};
ghost use Rattle.std.specs.List.{sum_by};
ghost use Rattle.dft_stil_out.specs.Written as form;
ghost use Rattle.dft_stil_out.specs.WrittenLength as spec;

use dft_base::Dir;
use dft_patterns::{Note, NoteKind, StilSignal};
use itoa::Buffer;

// The bytes of names.
pub(crate) fn name_bytes(signals: &[StilSignal]) -> Option<u64>
    ensures length { IfSome result (λ n. n ≡ spec.name_bytes signals.now) }
    ensures large { result ≡ None → 2 ^ 64 ≤ spec.name_bytes signals.now }
{
    let mut bytes: u64 = 0;
    for signal in signals {
        bytes = bytes.checked_add(signal.name.as_slice().len() as u64)?;
    }
    Some(bytes)
}

fn declaration_length(signal: &StilSignal) -> Option<u64>
    ensures length { IfSome result (λ n. n ≡ length (form.signal_line signal.now)) }
    ensures large { result ≡ None → 2 ^ 64 ≤ length (form.signal_line signal.now) }
{
    let name = signal.name.as_slice().len() as u64;
    match signal.dir {
        Dir::Input => name.checked_add(7),
        Dir::Output => name.checked_add(8),
    }
}

// The lines that declare signals.
pub(crate) fn declarations_length(signals: &[StilSignal]) -> Option<u64>
    ensures length { IfSome result (λ n. n ≡ spec.declarations_length signals.now) }
    ensures large { result ≡ None → 2 ^ 64 ≤ spec.declarations_length signals.now }
{
    let mut bytes: u64 = 0;
    for signal in signals {
        bytes = bytes.checked_add(declaration_length(signal)?)?;
    }
    Some(bytes)
}

// The line of a group of signals, with a label of so many letters.
pub(crate) fn group_length(label: u64, signals: &[StilSignal]) -> Option<u64>
    requires label { label < 10 }
    ensures length { IfSome result (λ n. n ≡ spec.group_length label (length signals.now) (spec.name_bytes signals.now)) }
    ensures large { result ≡ None → 2 ^ 64 ≤ spec.group_length label (length signals.now) (spec.name_bytes signals.now) }
{
    let [_, others @ ..] = signals else {
        return Some(0);
    };
    let marks = (others.len() as u64).checked_mul(3)?;
    name_bytes(signals)?
        .checked_add(marks)?
        .checked_add(label + 9)
}

// A line of so many bytes, if there is a signal.
pub(crate) fn waveforms_length(signals: &[StilSignal], bytes: u64) -> u64
    ensures { result ≡ spec.waveforms_length (length signals.now) bytes }
{
    if signals.is_empty() { 0 } else { bytes }
}

fn assignment_length(label: u64, signals: usize) -> Option<u64>
    ensures length { IfSome result (λ n. n ≡ spec.assignment_length label signals) }
    ensures large { result ≡ None → 2 ^ 64 ≤ spec.assignment_length label signals }
{
    if signals == 0 {
        Some(0)
    } else {
        label.checked_add(signals as u64)
    }
}

// The line of a vector.
pub(crate) fn line_length(inputs: usize, outputs: usize) -> Option<u64>
    ensures length { IfSome result (λ n. n ≡ spec.line_length inputs outputs) }
    ensures large { result ≡ None → 2 ^ 64 ≤ spec.line_length inputs outputs }
{
    let inputs = assignment_length(6, inputs)?;
    let outputs = assignment_length(9, outputs)?;
    inputs.checked_add(outputs)?.checked_add(8)
}

fn note_length(note: Note) -> u64
    ensures length { result ≡ length (form.note_line note) }
    ensures short { result < 64 }
{
    match note.what {
        NoteKind::SetUp => 17,
        NoteKind::Unload => 17,
        NoteKind::Pattern(number) => 19 + Buffer::new().format(number).len() as u64,
    }
}

// The lines of notes.
pub(crate) fn notes_length(notes: &[Note]) -> Option<u64>
    ensures length { IfSome result (λ n. n ≡ spec.notes_length notes.now) }
    ensures large { result ≡ None → 2 ^ 64 ≤ spec.notes_length notes.now }
{
    let mut bytes: u64 = 0;
    for note in notes {
        bytes = bytes.checked_add(note_length(*note))?;
    }
    Some(bytes)
}
