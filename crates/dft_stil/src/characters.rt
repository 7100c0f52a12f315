//! The characters of a vector: what each signal does (IEEE 1450-1999 `V`).

ghost use Rattle.std.specs.Prelude.{◌≡◌, ◌<◌, ◌-◌, length, option_map, OnOk, IfOk, IfSome};
ghost use Rattle.dft_stil_text.specs.Statements as spec;
ghost use Rattle.dft_stil_tokens.specs.Steps.{left};
ghost use Rattle.dft_stil.specs.MembersShown.{AreBelow};
ghost use Rattle.dft_stil.specs.WaveformsShown.{IsWide};
ghost use Rattle.dft_stil.specs.CharactersShown.{filling_as};
ghost use Rattle.dft_stil_tokens.specs.Reading.{Reads, Checks, Faults};

use crate::waveforms::Waveforms;
use dft_patterns::{Act, Acts};
use dft_stil_tokens::{Cause, ReadError, TokenKind, Tokens, fault_at};

/// Characters so far: the acts of the vector, the signals that have no character yet, and whether there was one more than signals.
#[derive(Debug, Drop)]
pub struct Filling<'a> {
    pub acts: Acts,
    pub ahead: &'a [usize],
    pub over: bool,
}

// What a character means for a signal in a table, if there is one.
fn act_in(waveforms: Option<&Waveforms>, count: usize, signal: usize, character: u8) -> Option<Act>
    requires wide { IfSome waveforms (λ s. IsWide count s.now) }
    requires inside { signal < count }
    ensures { result ≡ spec.act_in (option_map (λ s. s.now) waveforms.entry) signal character }
{
    waveforms?.act(count, signal, character)
}

// One character more.
fn fill_one(
    waveforms: Option<&Waveforms>,
    place: usize,
    character: u8,
    filling: &mut Filling<'_>,
) -> Result<(), ReadError>
    requires wide { IfSome waveforms (λ s. IsWide (length filling.old.acts) s.now) }
    requires ahead { AreBelow (length filling.old.acts) filling.old.ahead.now }
    ensures check { Checks (λ _. filling_as filling.new) (spec.filled (option_map (λ s. s.now) waveforms.entry) place character (filling_as filling.old).ahead (filling_as filling.old)) result }
    ensures ahead { OnOk result (AreBelow (length filling.new.acts) filling.new.ahead.now) }
    ensures length { OnOk result (length filling.new.acts ≡ length filling.old.acts) }
{
    let [signal, rest @ ..] = filling.ahead else {
        filling.over = true;
        return Ok(());
    };
    match act_in(waveforms, filling.acts.count(), *signal, character) {
        Some(act) => {
            filling.acts.set(*signal, act);
            filling.ahead = rest;
            Ok(())
        }
        None => Err(fault_at(Cause::NoWaveform, place)),
    }
}

// These characters more, which begin at this place.
fn fill(
    waveforms: Option<&Waveforms>,
    place: usize,
    characters: &[u8],
    filling: &mut Filling<'_>,
) -> Result<(), ReadError>
    requires wide { IfSome waveforms (λ s. IsWide (length filling.old.acts) s.now) }
    requires ahead { AreBelow (length filling.old.acts) filling.old.ahead.now }
    ensures check { Checks (λ _. filling_as filling.new) (spec.filled_by (option_map (λ s. s.now) waveforms.entry) place characters.now (filling_as filling.old)) result }
    ensures ahead { OnOk result (AreBelow (length filling.new.acts) filling.new.ahead.now) }
    ensures length { OnOk result (length filling.new.acts ≡ length filling.old.acts) }
{
    for (index, character) in characters.iter().enumerate() {
        if !character.is_ascii_alphanumeric() {
            return Err(fault_at(Cause::Token, place.saturating_sub(index)));
        }
        fill_one(waveforms, place.saturating_sub(index), *character, filling)?;
    }
    Ok(())
}

#[tactic(auto, unfolding(dft_stil_text::specs::Statements::characters_refusal))]
// That no characters come next.
fn characters_refusal(tokens: &Tokens<'_>) -> ReadError
    ensures { Faults (spec.characters_refusal tokens.now) result }
{
    if tokens.sees(TokenKind::Backslash) {
        tokens.unsupported()
    } else {
        tokens.no_token()
    }
}

#[tactic(auto, unfolding(dft_stil_text::specs::Statements::run_of_characters, dft_stil_text::specs::Statements::sees_characters))]
// One run of characters.
fn run(
    waveforms: Option<&Waveforms>,
    filling: &mut Filling<'_>,
    tokens: &mut Tokens<'_>,
) -> Result<(), ReadError>
    requires wide { IfSome waveforms (λ s. IsWide (length filling.old.acts) s.now) }
    requires ahead { AreBelow (length filling.old.acts) filling.old.ahead.now }
    ensures read { Reads (λ _. filling_as filling.new) (spec.run_of_characters (option_map (λ s. s.now) waveforms.entry) (filling_as filling.old) tokens.old) result tokens.new }
    ensures ahead { OnOk result (AreBelow (length filling.new.acts) filling.new.ahead.now) }
    ensures length { OnOk result (length filling.new.acts ≡ length filling.old.acts) }
{
    if !tokens.sees(TokenKind::Word) && !tokens.sees(TokenKind::Number) {
        return Err(characters_refusal(tokens));
    }
    let place = tokens.left();
    let characters = tokens.take();
    fill(waveforms, place, characters, filling)
}

// The runs of characters before a semicolon.
fn runs(
    waveforms: Option<&Waveforms>,
    filling: &mut Filling<'_>,
    tokens: &mut Tokens<'_>,
) -> Result<(), ReadError>
    requires wide { IfSome waveforms (λ s. IsWide (length filling.old.acts) s.now) }
    requires ahead { AreBelow (length filling.old.acts) filling.old.ahead.now }
    ensures read { Reads (λ _. filling_as filling.new) (spec.runs_from (left tokens.old) (option_map (λ s. s.now) waveforms.entry) (filling_as filling.old) tokens.old) result tokens.new }
    ensures length { OnOk result (length filling.new.acts ≡ length filling.old.acts) }
{
    'turns: for _turn in 0..tokens.left() {
        run(waveforms, filling, tokens)?;
        if tokens.sees(TokenKind::Semicolon) {
            return Ok(());
        }
    }
    Err(tokens.no_token())
}

#[tactic(auto, using(crate::proofs::CharacterLemmas::signals_left))]
// Whether there was a character for each signal, and no more.
fn is_full(filling: &Filling<'_>) -> bool
    ensures { result ≡ spec.is_full (filling_as filling.now) }
{
    !filling.over && filling.ahead.is_empty()
}

#[tactic(auto, unfolding(dft_stil_text::specs::Statements::characters))]
/// The characters of some signals, and the semicolon behind them, where their number is tested.
pub fn characters(
    waveforms: Option<&Waveforms>,
    signals: &[usize],
    acts: Acts,
    tokens: &mut Tokens<'_>,
) -> Result<Acts, ReadError>
    requires wide { IfSome waveforms (λ s. IsWide (length acts) s.now) }
    requires ahead { AreBelow (length acts) signals.now }
    ensures read { Reads (λ a. a) (spec.characters (option_map (λ s. s.now) waveforms.entry) signals.now acts tokens.old) result tokens.new }
    ensures length { IfOk result (λ a. length a ≡ length acts) }
{
    let mut filling = Filling {
        acts,
        ahead: signals,
        over: false,
    };
    runs(waveforms, &mut filling, tokens)?;
    let place = tokens.left();
    tokens.expect(TokenKind::Semicolon)?;
    if is_full(&filling) {
        Ok(filling.acts)
    } else {
        Err(fault_at(Cause::Count, place))
    }
}
