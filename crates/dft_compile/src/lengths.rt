//! The length of the patterns' text, told before any pattern is made.

ghost use Rattle.std.specs.Prelude.{◌≡◌, ◌≤◌, length, pos, None, option_map, IfErr, IfOk, OnOk};
ghost use Rattle.dft_vectors.specs.VectorList.{captures_in};
ghost use Rattle.dft_compile.specs.Refusals as spec;
ghost use Rattle.dft_compile.specs.Refusals.{IsRefusal, too_many};

use crate::counting::vectors_in;
use crate::error::CompileError;
use dft_cubes::Merged;
use dft_netlist::Design;
use dft_stil_out::{StilError, written_length};
use dft_stil_tokens::MAX_TEXT;
use dft_vectors::{captures_in, notes_of, signals_of};
use std::alloc::{AllocError, Global};

// How many bytes the text of patterns has. A text of 2^63 bytes or more is one that no memory holds.
fn pattern_bytes(
    alloc: Global,
    scanned: &Design,
    cycles: u16,
    patterns: &[Merged],
) -> Result<i64, AllocError>
    requires cycles { cycles ≤ 4096 }
    requires patterns { length patterns.now ≤ 65536 }
    ensures { IfOk result (λ bytes. bytes ≡ pos (spec.set_bytes scanned.now cycles (captures_in patterns.now))) }
{
    let signals = signals_of(alloc, scanned)?;
    let captures = captures_in(alloc, patterns)?;
    let notes = notes_of(alloc, cycles, &captures)?;
    let bytes = written_length(&signals, vectors_in(cycles, patterns), &notes).ok_or(AllocError)?;
    if bytes > i64::MAX as u64 {
        return Err(AllocError);
    }
    Ok(bytes as i64)
}

// Refuses patterns where their text would be longer than its limit.
pub(crate) fn check_length(
    alloc: Global,
    scanned: &Design,
    cycles: u16,
    patterns: &[Merged],
) -> Result<(), CompileError>
    requires cycles { cycles ≤ 4096 }
    requires patterns { length patterns.now ≤ 65536 }
    ensures accepted { OnOk result (spec.set_bytes scanned.now cycles (captures_in patterns.now) ≤ MAX_TEXT) }
    ensures refused { IfErr result (IsRefusal (option_map CompileError.Patterns (too_many (spec.set_bytes scanned.now cycles (captures_in patterns.now))))) }
{
    let bytes = pattern_bytes(alloc, scanned, cycles, patterns)?;
    if bytes > MAX_TEXT as i64 {
        return Err(CompileError::Patterns(StilError::P6 { first: bytes }));
    }
    Ok(())
}
