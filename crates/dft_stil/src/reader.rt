//! Reads a pattern text: its signals and vectors (IEEE 1450-1999, in a subset of its forms).

ghost use Rattle.std.specs.Prelude.{◌≡◌, ◌≤◌, Some, length, IfOk, IfErr};
ghost use Rattle.dft_base.specs.Lexing.{place_of as place_in};
ghost use Rattle.dft_base.specs.Parser.{value_of};
ghost use Rattle.dft_stil_tokens.specs.Lexemes.{tokens as tokens_of};
ghost use Rattle.dft_patterns.specs.Patterns.{IsWellFormed};
ghost use Rattle.dft_stil_text.specs.PatternText as spec;
ghost use Rattle.dft_stil_text.specs.PatternText.{StandsFor};
ghost use Rattle.dft_stil_tokens.specs.Reading.{Checks};
ghost use Rattle.dft_stil.specs.Refusals.{IsRefused, IsUnsteadyAs, told_at as told_as};
ghost use Rattle.dft_patterns.specs.Steadiness as steadiness;
ghost use Rattle.dft_patterns.specs.Steadiness.{HaveLength};

use crate::pattern_text::pattern_text;
use dft_base::{Name, Place, place_of};
use dft_patterns::{PatternSet, Unsteady, first_unsteady};
use dft_stil_text::{MAX_VECTORS, StilError};
use dft_stil_tokens::{Cause, Fault, MAX_TEXT, ReadError, Tokens};
use std::alloc::Global;

// The patterns of a text, steady or not.
fn patterns(alloc: Global, bytes: &[u8]) -> Result<PatternSet, ReadError>
    requires { length bytes.now ≤ MAX_TEXT }
    ensures value { Checks (λ set. set) (value_of (spec.stil_text MAX_VECTORS (tokens_of bytes.now))) result }
    ensures lengths { IfOk result (λ set. HaveLength (length set.signals) set.vectors) }
    ensures few { IfOk result (λ set. length set.vectors ≤ MAX_VECTORS) }
{
    pattern_text(alloc, MAX_VECTORS, &mut Tokens::new(alloc, bytes))
}

// How a cause is told of a place.
fn told_at(cause: Cause, place: Place) -> StilError
    ensures { result ≡ told_as cause place }
{
    match cause {
        Cause::Token => StilError::P1 { place },
        Cause::Unsupported(name) => StilError::P2 { place, name },
        Cause::Unknown(name) => StilError::P3 { place, name },
        Cause::Count => StilError::P4 { place },
        Cause::NoWaveform => StilError::P5 { place },
        Cause::Times => StilError::P8 { place },
        Cause::Taken(name) => StilError::P9 { place, name },
    }
}

#[tactic(auto, using(crate::proofs::ReaderLemmas::places))]
// How a fault of a text is told: with the line and column of its place.
fn told(bytes: &[u8], fault: Fault) -> StilError
    requires { length bytes.now ≤ MAX_TEXT }
    ensures { result ≡ told_as fault.cause (place_in bytes.now fault.left) }
{
    let left = fault.left.min(bytes.len());
    told_at(fault.cause, place_of(bytes, left))
}

#[tactic(auto, using(crate::proofs::ReaderLemmas::inside))]
// How the first signal is told that pulses and is not low in some vector.
fn unsteady(alloc: Global, set: &PatternSet, found: Unsteady) -> StilError
    requires lengths { HaveLength (length set.now.signals) set.now.vectors }
    requires few { length set.now.vectors ≤ MAX_VECTORS }
    requires first { steadiness.first_unsteady set.now ≡ Some found }
    ensures { IsUnsteadyAs set.now result }
{
    let name = set.signals()[found.signal].name.as_slice();
    match Name::from_slice(alloc, name) {
        Ok(name) => StilError::P10 {
            first: found.vector as i64,
            name,
        },
        Err(error) => StilError::Memory(error),
    }
}

#[tactic(auto, using(crate::proofs::ReaderLemmas::reading))]
/// The patterns that a text stands for (IEEE 1450-1999, in a subset of its forms), without notes. A text with a fault is
/// refused by its first, with the place where the refused token begins; a text without a fault by the first vector in
/// which a signal that pulses in some vector is high or was never set, and the first such signal. The one fault that is
/// no matter of what texts stand for is a vector past `MAX_VECTORS`.
pub fn read(alloc: Global, bytes: &[u8]) -> Result<PatternSet, StilError>
    requires { length bytes.now ≤ MAX_TEXT }
    ensures patterns { IfOk result (λ set. StandsFor bytes.now set) }
    ensures few { IfOk result (λ set. length set.vectors ≤ MAX_VECTORS) }
    ensures well_formed { IfOk result (λ set. IsWellFormed set) }
    ensures refused { IfErr result (λ error. IsRefused bytes.now error) }
{
    match patterns(alloc, bytes) {
        Ok(set) => match first_unsteady(alloc, &set) {
            Ok(None) => Ok(set),
            Ok(Some(found)) => Err(unsteady(alloc, &set, found)),
            Err(error) => Err(StilError::Memory(error)),
        },
        Err(ReadError::Fault(fault)) => Err(told(bytes, fault)),
        Err(ReadError::Memory(error)) => Err(StilError::Memory(error)),
    }
}
