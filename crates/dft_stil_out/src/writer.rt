//! The written form of whole sets of patterns.

ghost use Rattle.std.specs.Prelude.{◌≡◌, ◌≤◌, ◌++◌, length, flat_map, map, OnOk, IfOk, IfErr};
ghost use Rattle.dft_stil_out.specs.Letters as letters;
ghost use Rattle.dft_stil_out.specs.Written as form;
ghost use Rattle.dft_stil_out.specs.Laws.{ReadsBack};
ghost use Rattle.dft_stil_out.specs.Lengths.{TellsLength};

use crate::middle::middle;
use dft_base::Dir;
use dft_patterns::{Act, Acts, Note, NoteKind, PatternSet, StilSignal, groups, input_count};
use dft_stil_text::StilError;
use dft_stil_tokens::MAX_TEXT;
use itoa::Buffer;
use std::alloc::{AllocError, Global};

fn letter(act: Act) -> u8
    ensures { result ≡ letters.letter act }
{
    match act {
        Act::Unset => b'-',
        Act::Low => b'0',
        Act::High => b'1',
        Act::Pulse => b'P',
        Act::ExpectLow => b'L',
        Act::ExpectHigh => b'H',
        Act::Ignore => b'X',
    }
}

fn way(dir: Dir) -> &'static [u8]
    ensures { result.now ≡ form.way dir }
{
    match dir {
        Dir::Input => b"\" In;\n",
        Dir::Output => b"\" Out;\n",
    }
}

// The lines that declare signals.
fn add_declarations(out: &mut Vec<u8>, signals: &[StilSignal]) -> Result<(), AllocError>
    ensures { OnOk result (out.new.items ≡ out.old.items ++ flat_map form.signal_line signals.now) }
{
    for signal in signals {
        out.extend_from_slice(b"\"")?;
        out.extend_from_slice(signal.name.as_slice())?;
        out.extend_from_slice(way(signal.dir))?;
    }
    Ok(())
}

// The letters of acts.
fn add_letters(out: &mut Vec<u8>, acts: &[Act]) -> Result<(), AllocError>
    ensures { OnOk result (out.new.items ≡ out.old.items ++ map letters.letter acts.now) }
{
    for act in acts {
        out.push(letter(*act))?;
    }
    Ok(())
}

// An assignment, if there is an act.
fn add_assignment(out: &mut Vec<u8>, label: &[u8], acts: &[Act]) -> Result<(), AllocError>
    ensures { OnOk result (out.new.items ≡ out.old.items ++ form.assignment_text label.now acts.now) }
{
    if acts.is_empty() {
        return Ok(());
    }
    out.extend_from_slice(label)?;
    add_letters(out, acts)
}

#[tactic(auto, unfolding(crate::specs::Written::vector_line))]
// The line of a vector with so many inputs.
fn add_vector(out: &mut Vec<u8>, count: usize, acts: &[Act]) -> Result<(), AllocError>
    ensures { OnOk result (out.new.items ≡ out.old.items ++ form.vector_line count acts.now) }
{
    let (ins, outs) = acts.split_at(acts.len().min(count));
    out.extend_from_slice(b"V { ")?;
    add_assignment(out, b"ins = ", ins)?;
    add_assignment(out, b"; outs = ", outs)?;
    out.extend_from_slice(b"; }\n")
}

#[tactic(auto, unfolding(crate::specs::Written::note_line))]
// The line of a note.
fn add_note(out: &mut Vec<u8>, note: Note) -> Result<(), AllocError>
    ensures { OnOk result (out.new.items ≡ out.old.items ++ form.note_line note) }
{
    out.extend_from_slice(b"Ann {* ")?;
    match note.what {
        NoteKind::SetUp => out.extend_from_slice(b"set-up")?,
        NoteKind::Pattern(number) => {
            out.extend_from_slice(b"pattern ")?;
            out.extend_from_slice(Buffer::new().format(number).as_bytes())?;
        }
        NoteKind::Unload => out.extend_from_slice(b"unload")?,
    }
    out.extend_from_slice(b" *}\n")
}

// The lines of notes.
fn add_notes(out: &mut Vec<u8>, notes: &[Note]) -> Result<(), AllocError>
    ensures { OnOk result (out.new.items ≡ out.old.items ++ flat_map form.note_line notes.now) }
{
    for note in notes {
        add_note(out, *note)?;
    }
    Ok(())
}

// How many of these notes stand before the vector with this number.
fn due(place: usize, notes: &[Note]) -> usize
    ensures value { result ≡ form.due place notes.now }
    ensures within { result ≤ length notes.now }
{
    notes
        .iter()
        .take_while(|note| note.before as usize <= place)
        .count()
}

// The lines of vectors, each behind the lines of its notes.
fn add_vectors(
    out: &mut Vec<u8>,
    count: usize,
    vectors: &[Acts],
    notes: &[Note],
) -> Result<(), AllocError>
    ensures { OnOk result (out.new.items ≡ out.old.items ++ form.noted_lines count 0 vectors.now notes.now) }
{
    let mut ahead = notes;
    for (place, acts) in vectors.iter().enumerate() {
        let (now, later) = ahead.split_at(due(place, ahead));
        add_notes(out, now)?;
        add_vector(out, count, acts.as_slice())?;
        ahead = later;
    }
    Ok(())
}

#[tactic(auto, unfolding(crate::specs::Written::noted, crate::specs::Written::head))]
// The written form, however long.
fn text_of(alloc: Global, set: &PatternSet) -> Result<Vec<u8>, AllocError>
    ensures { IfOk result (λ bytes. bytes.items ≡ form.noted set.now) }
{
    let signals = set.signals();
    let (ins, outs) = groups(signals);
    let mut out = Vec::new(alloc);
    out.extend_from_slice(b"STIL 1.0;\nSignals {\n")?;
    add_declarations(&mut out, signals)?;
    out.extend_from_slice(&middle(alloc, ins, outs)?)?;
    add_vectors(&mut out, input_count(signals), set.vectors(), set.notes())?;
    out.extend_from_slice(b"}\n")?;
    Ok(out)
}

/// The written form (IEEE 1450-1999, one text for each set of patterns), with each note on a line before its vector.
/// It is read back as the same signals and vectors, where the set is well formed and can be written. P6 where the text is
/// longer than a pattern text may be.
pub fn write(alloc: Global, set: &PatternSet) -> Result<Vec<u8>, StilError>
    ensures ok { IfOk result (λ bytes. bytes.items ≡ form.noted set.now) }
    ensures short { IfOk result (λ bytes. length bytes.items ≤ MAX_TEXT) }
    ensures reads { IfOk result (λ bytes. ReadsBack set.now bytes.items) }
    ensures long { IfErr result (TellsLength (form.noted set.now)) }
{
    let text = text_of(alloc, set)?;
    if text.len() > MAX_TEXT {
        return Err(StilError::P6 {
            first: text.len() as i64,
        });
    }
    Ok(text)
}
