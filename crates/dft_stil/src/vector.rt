//! One vector of a pattern (IEEE 1450-1999 `V`).

ghost use Rattle.std.specs.Prelude.{◌≡◌, ◌<◌, length, option_map, IfOk, IfSome};
ghost use Rattle.std.specs.List.{list_any};
ghost use Rattle.dft_stil_text.specs.Statements as spec;
ghost use Rattle.dft_stil_tokens.specs.Steps.{left};
ghost use Rattle.dft_stil.specs.MembersShown.{AreBelow, meant as meant_as};
ghost use Rattle.dft_stil.specs.WaveformsShown.{IsWide};
ghost use Rattle.dft_stil.specs.VectorShown.{vector_as, flagged_in};
ghost use Rattle.dft_stil_tokens.specs.Reading.{Reads};

use crate::characters::characters;
use crate::members::Meant;
use crate::names::Names;
use crate::waveforms::Waveforms;
use dft_patterns::Acts;
use dft_stil_tokens::{ReadError, TokenKind, Tokens, taken, unknown};
use std::alloc::Global;

/// A vector so far: its acts, and flags for the signals that it mentions.
#[derive(Debug, Drop)]
pub struct VectorStatement {
    pub acts: Acts,
    pub told: Vec<bool>,
}

// Whether one of these signals is flagged.
fn is_flagged(told: &[bool], signals: &[usize]) -> bool
    requires { AreBelow (length told.now) signals.now }
    ensures { result ≡ list_any (flagged_in told.now) signals.now }
{
    for signal in signals {
        if told[*signal] {
            return true;
        }
    }
    false
}

// Flags these signals.
fn flag(told: &mut [bool], signals: &[usize])
    requires { AreBelow (length told.old) signals.now }
    ensures told { flagged_in told.new ≡ spec.with_told signals.now (flagged_in told.old) }
    ensures length { length told.new ≡ length told.old }
{
    for signal in signals {
        told[*signal] = true;
    }
}

// Whether the vector mentions one of these signals, or they mention one twice.
fn is_told(vector: &VectorStatement, meant: Meant<'_>) -> bool
    requires { AreBelow (length vector.now.told.items) meant.signals.now }
    ensures { result ≡ spec.is_told (vector_as vector.now) (meant_as meant.entry) }
{
    meant.repeated || is_flagged(&vector.told, meant.signals)
}

#[tactic(auto, unfolding(dft_stil_text::specs::Statements::assignment))]
/// The name of signals, none of which the vector may mention so far, and their characters.
pub fn assignment(
    alloc: Global,
    names: &Names,
    waveforms: Option<&Waveforms>,
    vector: VectorStatement,
    tokens: &mut Tokens<'_>,
) -> Result<VectorStatement, ReadError>
    requires acts { length vector.acts ≡ length names.now.signals }
    requires told { length vector.told.items ≡ length names.now.signals }
    requires wide { IfSome waveforms (λ s. IsWide (length names.now.signals) s.now) }
    ensures read { Reads vector_as (spec.assignment names.now (option_map (λ s. s.now) waveforms.entry) (vector_as vector) tokens.old) result tokens.new }
    ensures acts { IfOk result (λ v. length v.acts ≡ length names.now.signals) }
    ensures told { IfOk result (λ v. length v.told.items ≡ length names.now.signals) }
{
    let place = tokens.left();
    let word = tokens.name()?;
    let Some(meant) = names.elsewhere(word) else {
        return Err(unknown(alloc, word, place));
    };
    if is_told(&vector, meant) {
        return Err(taken(alloc, word, place));
    }
    tokens.expect(TokenKind::Equals)?;
    let VectorStatement { acts, mut told } = vector;
    let acts = characters(waveforms, meant.signals, acts, tokens)?;
    flag(&mut told, meant.signals);
    Ok(VectorStatement { acts, told })
}
