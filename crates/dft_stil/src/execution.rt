//! The burst of a pattern text, and what is executed (IEEE 1450-1999 `PatternBurst` and `PatternExec`).

ghost use Rattle.std.specs.Prelude.{◌≡◌, option_map};
ghost use Rattle.dft_stil_tokens.specs.Reading.{Reads};
ghost use Rattle.dft_stil_text.specs.PatternText as spec;
ghost use Rattle.dft_stil.specs.WaveformTablesShown.{timing_as};
ghost use Rattle.dft_stil.specs.PatternShown.{burst_as};

use crate::signal_groups::name_if_any;
use crate::timing::Timing;
use dft_stil_tokens::{ReadError, TokenKind, Tokens, unknown};
use std::alloc::Global;

/// A burst and its pattern, by name.
#[derive(Clone, Copy, Debug)]
pub struct Burst<'a> {
    pub name: &'a [u8],
    pub pattern: &'a [u8],
}

#[tactic(auto, unfolding(dft_stil_text::specs::PatternText::listed_pattern))]
// The one pattern that a burst lists.
fn listed_pattern<'a>(tokens: &mut Tokens<'a>) -> Result<&'a [u8], ReadError>
    ensures { Reads (λ w. w.now) (spec.listed_pattern tokens.old) result tokens.new }
{
    tokens.keyword(b"PatList")?;
    tokens.expect(TokenKind::OpenBrace)?;
    let word = tokens.name()?;
    tokens.expect(TokenKind::Semicolon)?;
    tokens.expect(TokenKind::CloseBrace)?;
    Ok(word)
}

#[tactic(auto, unfolding(dft_stil_text::specs::PatternText::burst))]
/// The burst.
pub fn the_burst<'a>(tokens: &mut Tokens<'a>) -> Result<Burst<'a>, ReadError>
    ensures { Reads burst_as (spec.burst tokens.old) result tokens.new }
{
    tokens.keyword(b"PatternBurst")?;
    let name = tokens.name()?;
    tokens.expect(TokenKind::OpenBrace)?;
    let pattern = listed_pattern(tokens)?;
    tokens.expect(TokenKind::CloseBrace)?;
    Ok(Burst { name, pattern })
}

// Whether a name was given so.
fn is_name(known: Option<&[u8]>, word: &[u8]) -> bool
    ensures { result ≡ spec.is_named (option_map (λ w. w.now) known.entry) word.now }
{
    match known {
        Some(known) => known == word,
        None => false,
    }
}

#[tactic(auto, unfolding(dft_stil_text::specs::PatternText::known_name))]
/// A name, which must be this one.
pub fn known_name<'a>(
    alloc: Global,
    known: Option<&[u8]>,
    tokens: &mut Tokens<'a>,
) -> Result<&'a [u8], ReadError>
    ensures { Reads (λ w. w.now) (spec.known_name (option_map (λ w. w.now) known.entry) tokens.old) result tokens.new }
{
    let place = tokens.left();
    let word = tokens.name()?;
    if is_name(known, word) {
        Ok(word)
    } else {
        Err(unknown(alloc, word, place))
    }
}

#[tactic(auto, unfolding(dft_stil_text::specs::PatternText::known_name_if_any))]
// A name, if one comes next, which must be this one.
fn known_name_if_any(
    alloc: Global,
    known: Option<&[u8]>,
    tokens: &mut Tokens<'_>,
) -> Result<bool, ReadError>
    ensures { Reads (λ b. b) (spec.known_name_if_any (option_map (λ w. w.now) known.entry) tokens.old) result tokens.new }
{
    if tokens.sees(TokenKind::Semicolon) {
        return Ok(false);
    }
    known_name(alloc, known, tokens)?;
    Ok(true)
}

#[tactic(auto, unfolding(dft_stil_text::specs::PatternText::used_timing))]
// The block of tables that is used, if it is named.
fn used_timing(
    alloc: Global,
    timing: &Timing<'_>,
    tokens: &mut Tokens<'_>,
) -> Result<bool, ReadError>
    ensures { Reads (λ b. b) (spec.used_timing (timing_as timing.now) tokens.old) result tokens.new }
{
    if !tokens.eat_word(b"Timing") {
        return Ok(false);
    }
    known_name_if_any(alloc, timing.name, tokens)?;
    tokens.expect(TokenKind::Semicolon)?;
    Ok(true)
}

#[tactic(auto, unfolding(dft_stil_text::specs::PatternText::executed))]
// The burst that is executed, and the end of the block.
fn executed(alloc: Global, burst: Burst<'_>, tokens: &mut Tokens<'_>) -> Result<bool, ReadError>
    ensures { Reads (λ b. b) (spec.executed (burst_as burst.entry) tokens.old) result tokens.new }
{
    tokens.keyword(b"PatternBurst")?;
    known_name(alloc, Some(burst.name), tokens)?;
    tokens.expect(TokenKind::Semicolon)?;
    tokens.expect(TokenKind::CloseBrace)?;
    Ok(true)
}

#[tactic(auto, unfolding(dft_stil_text::specs::PatternText::exec))]
/// What is executed.
pub fn exec(
    alloc: Global,
    timing: &Timing<'_>,
    burst: Burst<'_>,
    tokens: &mut Tokens<'_>,
) -> Result<bool, ReadError>
    ensures { Reads (λ b. b) (spec.exec (timing_as timing.now) (burst_as burst.entry) tokens.old) result tokens.new }
{
    tokens.keyword(b"PatternExec")?;
    name_if_any(tokens)?;
    tokens.expect(TokenKind::OpenBrace)?;
    used_timing(alloc, timing, tokens)?;
    executed(alloc, burst, tokens)
}
