//! The notes of compiled patterns.

ghost use Rattle.std.specs.Prelude.{◌≡◌, ◌≤◌, length, map, IfOk};
ghost use Rattle.dft_cubes.specs.Domains.{captures_of};
ghost use Rattle.dft_vectors.specs.VectorList as spec;

use dft_cubes::Merged;
use dft_patterns::{Note, NoteKind};
use std::alloc::{AllocError, Global};

/// How many capture vectors each of these patterns has.
pub fn captures_in(alloc: Global, patterns: &[Merged]) -> Result<Vec<u8>, AllocError>
    ensures { IfOk result (λ captures. captures.items ≡ spec.captures_in patterns.now) }
{
    patterns
        .iter()
        .map(|merged| merged.domains.count())
        .collect(alloc)
}

/// The notes of patterns with so many captures each: before the set-up vector, before each load, and before the last load.
pub fn notes_of(alloc: Global, cycles: u16, captures: &[u8]) -> Result<Vec<Note>, AllocError>
    requires cycles { cycles ≤ 4096 }
    requires patterns { length captures.now ≤ 65536 }
    ensures { IfOk result (λ notes. notes.items ≡ spec.notes_of cycles captures.now) }
{
    let mut notes = Vec::new(alloc);
    if captures.is_empty() {
        return Ok(notes);
    }
    notes.push(Note {
        before: 0,
        what: NoteKind::SetUp,
    })?;
    let mut before = 1;
    for pattern in 0..captures.len() {
        notes.push(Note {
            before,
            what: NoteKind::Pattern(pattern as u32),
        })?;
        before += u32::from(cycles) + u32::from(captures[pattern]);
    }
    notes.push(Note {
        before,
        what: NoteKind::Unload,
    })?;
    Ok(notes)
}
