//! Whole pattern texts (IEEE 1450-1999, in a subset of its forms).

ghost use Rattle.std.specs.Prelude.{◌≡◌, ◌<◌, ◌^◌, length, IfOk};
ghost use Rattle.dft_stil_text.specs.SignalGroups.{no_names};
ghost use Rattle.dft_stil_text.specs.PatternText as spec;
ghost use Rattle.dft_stil_tokens.specs.Steps.{left};
ghost use Rattle.dft_stil.specs.WaveformTablesShown.{timing_as, AreWide};
ghost use Rattle.dft_stil.specs.PatternShown.{pattern_as, burst_as, patterns_with};
ghost use Rattle.dft_stil_tokens.specs.Reading.{Reads};

use crate::execution::{Burst, exec, known_name, the_burst};
use crate::names::Names;
use crate::signal_groups::{group_blocks, signals_block};
use crate::statements::{PatternBlock, statements};
use crate::timing::{Timing, timing_block};
use dft_patterns::{Acts, PatternSet};
use dft_stil_tokens::{Cause, ReadError, TokenKind, Tokens, fault_at};
use std::alloc::{AllocError, Global};

#[tactic(auto, unfolding(dft_stil_text::specs::PatternText::version))]
// The version of the standard.
fn version<'a>(tokens: &mut Tokens<'a>) -> Result<&'a [u8], ReadError>
    ensures { Reads (λ w. w.now) (spec.version tokens.old) result tokens.new }
{
    if !tokens.sees(TokenKind::Number) {
        return Err(tokens.mark_refusal());
    }
    if tokens.bytes() == b"1.0".as_slice() {
        Ok(tokens.take())
    } else {
        Err(tokens.no_token())
    }
}

// Behind a token of a block, so many braces are open.
fn depth_behind(kind: TokenKind, depth: usize) -> usize
    requires { depth < 2 ^ 63 }
    ensures { result ≡ spec.depth_behind kind depth }
{
    match kind {
        TokenKind::OpenBrace => depth + 1,
        TokenKind::CloseBrace => depth.saturating_sub(1),
        _ => depth,
    }
}

// Whether a token of this kind may not stand in a block.
fn ends_block(kind: TokenKind) -> bool
    ensures { result ≡ spec.ends_block kind }
{
    matches!(
        kind,
        TokenKind::Illegal | TokenKind::Unclosed | TokenKind::End
    )
}

// Where a token is refused in a block.
fn block_place(kind: TokenKind, place: usize) -> usize
    ensures { result ≡ spec.block_place kind place }
{
    match kind {
        TokenKind::Unclosed => 0,
        _ => place,
    }
}

// The tokens of a block behind its first brace.
fn block_rest(tokens: &mut Tokens<'_>) -> Result<(), ReadError>
    ensures { Reads (λ _. 0) (spec.block_from (left tokens.old) 1 tokens.old) result tokens.new }
{
    let mut depth = 1;
    'turns: for _turn in 0..tokens.left() {
        let kind = tokens.kind();
        if ends_block(kind) {
            return Err(fault_at(Cause::Token, block_place(kind, tokens.left())));
        }
        depth = depth_behind(kind, depth);
        tokens.take();
        if depth == 0 {
            return Ok(());
        }
    }
    Err(tokens.no_token())
}

#[tactic(auto, unfolding(dft_stil_text::specs::PatternText::block))]
// Braces that balance.
fn block(tokens: &mut Tokens<'_>) -> Result<(), ReadError>
    ensures { Reads (λ _. 0) (spec.block tokens.old) result tokens.new }
{
    tokens.expect(TokenKind::OpenBrace)?;
    block_rest(tokens)
}

#[tactic(auto, unfolding(dft_stil_text::specs::PatternText::header_if_any))]
// A block behind `Header`, if there is one.
fn header_if_any(tokens: &mut Tokens<'_>) -> Result<bool, ReadError>
    ensures { Reads (λ b. b) (spec.header_if_any tokens.old) result tokens.new }
{
    if !tokens.eat_word(b"Header") {
        return Ok(false);
    }
    block(tokens)?;
    Ok(true)
}

// A pattern that has no vector yet.
fn no_vector(alloc: Global, count: usize) -> Result<PatternBlock, AllocError>
    ensures { IfOk result (λ p. pattern_as p ≡ spec.no_vector_of count) }
{
    Ok(PatternBlock {
        table: None,
        acts: Acts::unset(alloc, count)?,
        vectors: Vec::new(alloc),
    })
}

#[tactic(auto, unfolding(dft_stil_text::specs::PatternText::pattern))]
// The pattern of the burst.
fn the_pattern(
    alloc: Global,
    most: usize,
    names: &Names,
    timing: &Timing<'_>,
    burst: Burst<'_>,
    tokens: &mut Tokens<'_>,
) -> Result<PatternBlock, ReadError>
    requires { AreWide (length names.now.signals) timing.now.tables }
    ensures { Reads pattern_as (spec.pattern most names.now (timing_as timing.now) (burst_as burst.entry) tokens.old) result tokens.new }
{
    tokens.keyword(b"Pattern")?;
    known_name(alloc, Some(burst.pattern), tokens)?;
    tokens.expect(TokenKind::OpenBrace)?;
    let mut pattern = no_vector(alloc, names.count())?;
    statements(alloc, names, &timing.tables, most, &mut pattern, tokens)?;
    Ok(pattern)
}

#[tactic(auto, unfolding(dft_stil_text::specs::PatternText::pattern_part))]
// The vectors: the burst, what is executed and the pattern, and no token behind.
fn vectors(
    alloc: Global,
    most: usize,
    names: &Names,
    timing: &Timing<'_>,
    tokens: &mut Tokens<'_>,
) -> Result<Vec<Acts>, ReadError>
    requires { AreWide (length names.now.signals) timing.now.tables }
    ensures { Reads (λ v. patterns_with names.now v.items) (spec.pattern_part most names.now (timing_as timing.now) tokens.old) result tokens.new }
{
    let burst = the_burst(tokens)?;
    exec(alloc, timing, burst, tokens)?;
    let pattern = the_pattern(alloc, most, names, timing, burst, tokens)?;
    tokens.expect(TokenKind::End)?;
    Ok(pattern.vectors)
}

// The vectors behind the tables.
fn timed_part(
    alloc: Global,
    most: usize,
    names: &Names,
    tokens: &mut Tokens<'_>,
) -> Result<Vec<Acts>, ReadError>
    ensures { Reads (λ v. patterns_with names.now v.items) (spec.timed_part most names.now tokens.old) result tokens.new }
{
    let timing = timing_block(alloc, names, tokens)?;
    vectors(alloc, most, names, &timing, tokens)
}

// The vectors behind the signals and groups, which are read into no names so far.
fn named_part(
    alloc: Global,
    most: usize,
    names: &mut Names,
    tokens: &mut Tokens<'_>,
) -> Result<Vec<Acts>, ReadError>
    requires { names.old ≡ no_names }
    ensures { Reads (λ v. patterns_with names.new v.items) (spec.named_part most tokens.old) result tokens.new }
{
    signals_block(alloc, names, tokens)?;
    group_blocks(alloc, names, tokens)?;
    timed_part(alloc, most, names, tokens)
}

// The signals and groups, and all behind them.
fn named_patterns(
    alloc: Global,
    most: usize,
    tokens: &mut Tokens<'_>,
) -> Result<PatternSet, ReadError>
    ensures { Reads (λ set. set) (spec.named_part most tokens.old) result tokens.new }
{
    let mut names = Names::new(alloc);
    let vectors = named_part(alloc, most, &mut names, tokens)?;
    Ok(PatternSet::new(alloc, names.into_signals(), vectors))
}

#[tactic(auto, unfolding(dft_stil_text::specs::PatternText::stil_text))]
/// The whole text, with so many vectors at most.
pub fn pattern_text(
    alloc: Global,
    most: usize,
    tokens: &mut Tokens<'_>,
) -> Result<PatternSet, ReadError>
    ensures { Reads (λ set. set) (spec.stil_text most tokens.old) result tokens.new }
{
    tokens.keyword(b"STIL")?;
    version(tokens)?;
    tokens.expect(TokenKind::Semicolon)?;
    header_if_any(tokens)?;
    named_patterns(alloc, most, tokens)
}
