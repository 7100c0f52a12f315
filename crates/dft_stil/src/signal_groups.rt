//! The signals and groups of a pattern text (IEEE 1450-1999 `Signals` and `SignalGroups`).

ghost use Rattle.std.specs.Prelude.{◌≡◌, length, IfOk, OnOk, option_map};
ghost use Rattle.dft_stil_text.specs.SignalGroups as spec;
ghost use Rattle.dft_stil_tokens.specs.Steps.{left};
ghost use Rattle.dft_stil.specs.MembersShown.{meant, Sees, AreBelow};
ghost use Rattle.dft_stil_tokens.specs.Reading.{Reads};

use crate::members::{Meant, Members};
use crate::names::Names;
use dft_base::Dir;
use dft_stil_tokens::{ReadError, TokenKind, Tokens, taken, unknown};
use std::alloc::Global;

#[tactic(auto, unfolding(dft_stil_text::specs::SignalGroups::direction))]
// `In` or `Out`.
fn direction(tokens: &mut Tokens<'_>) -> Result<Dir, ReadError>
    ensures { Reads (λ d. d) (spec.direction tokens.old) result tokens.new }
{
    if tokens.sees_word(b"In") {
        tokens.take();
        Ok(Dir::Input)
    } else if tokens.sees_word(b"Out") {
        tokens.take();
        Ok(Dir::Output)
    } else {
        Err(tokens.keyword_refusal())
    }
}

#[tactic(auto, unfolding(dft_stil_text::specs::SignalGroups::signal))]
// A name, which no signal may have so far, and its direction.
fn signal(alloc: Global, names: &mut Names, tokens: &mut Tokens<'_>) -> Result<(), ReadError>
    ensures { Reads (λ _. names.new) (spec.signal names.old tokens.old) result tokens.new }
{
    let place = tokens.left();
    let word = tokens.name()?;
    if names.is_signal(word) {
        return Err(taken(alloc, word, place));
    }
    let dir = direction(tokens)?;
    tokens.expect(TokenKind::Semicolon)?;
    names.add_signal(alloc, word, dir)?;
    Ok(())
}

// The signals of a block, and its brace.
fn signals(alloc: Global, names: &mut Names, tokens: &mut Tokens<'_>) -> Result<(), ReadError>
    ensures { Reads (λ _. names.new) (spec.signals_from (left tokens.old) names.old tokens.old) result tokens.new }
{
    'turns: for _turn in 0..tokens.left() {
        if tokens.eat(TokenKind::CloseBrace) {
            return Ok(());
        }
        signal(alloc, names, tokens)?;
    }
    Err(tokens.no_token())
}

#[tactic(auto, unfolding(dft_stil_text::specs::SignalGroups::signals_block))]
/// The block of the signals, where there are no names so far.
pub fn signals_block(
    alloc: Global,
    names: &mut Names,
    tokens: &mut Tokens<'_>,
) -> Result<(), ReadError>
    requires { names.old ≡ spec.no_names }
    ensures { Reads (λ _. names.new) (spec.signals_block tokens.old) result tokens.new }
{
    tokens.keyword(b"Signals")?;
    tokens.expect(TokenKind::OpenBrace)?;
    signals(alloc, names, tokens)
}

// One name of a group's list.
#[tactic(auto, unfolding(dft_stil_text::specs::SignalGroups::member))]
fn member<'n>(
    alloc: Global,
    names: &'n Names,
    tokens: &mut Tokens<'_>,
) -> Result<Meant<'n>, ReadError>
    ensures read { Reads (λ m. meant m) (spec.member names.now tokens.old) result tokens.new }
    ensures inside { IfOk result (λ m. AreBelow (length names.now.signals) m.signals.now) }
{
    let place = tokens.left();
    let word = tokens.name()?;
    match names.in_list(word) {
        Some(meant) => Ok(meant),
        None => Err(unknown(alloc, word, place)),
    }
}

// The names of a group's list behind the first.
fn more_members(
    alloc: Global,
    names: &Names,
    members: &mut Members,
    seen: &mut [bool],
    tokens: &mut Tokens<'_>,
) -> Result<(), ReadError>
    requires count { length seen.old ≡ length names.now.signals }
    requires sees { Sees members.old seen.old }
    ensures read { Reads (λ _. members.new) (spec.members_from (left tokens.old) names.now members.old tokens.old) result tokens.new }
    ensures sees { OnOk result (Sees members.new seen.new) }
    ensures count { length seen.new ≡ length names.now.signals }
{
    'turns: for _turn in 0..tokens.left() {
        if !tokens.eat(TokenKind::Plus) {
            return Ok(());
        }
        let more = member(alloc, names, tokens)?;
        members.add(seen, more)?;
    }
    Err(tokens.no_token())
}

#[tactic(auto, using(crate::proofs::MemberLemmas::flags), unfolding(dft_stil_text::specs::SignalGroups::members))]
// A group's list.
fn members(alloc: Global, names: &Names, tokens: &mut Tokens<'_>) -> Result<Members, ReadError>
    ensures read { Reads (λ m. m) (spec.members names.now tokens.old) result tokens.new }
    ensures inside { IfOk result (λ m. AreBelow (length names.now.signals) m.signals) }
{
    let mut seen = vec![in alloc; false; names.count()]?;
    let mut members = Members::new(alloc);
    let first = member(alloc, names, tokens)?;
    members.add(&mut seen, first)?;
    more_members(alloc, names, &mut members, &mut seen, tokens)?;
    Ok(members)
}

#[tactic(auto, unfolding(dft_stil_text::specs::SignalGroups::group))]
// A name, which no group may have so far, and its list.
fn group(alloc: Global, names: &mut Names, tokens: &mut Tokens<'_>) -> Result<(), ReadError>
    ensures { Reads (λ _. names.new) (spec.group names.old tokens.old) result tokens.new }
{
    let place = tokens.left();
    let word = tokens.name()?;
    if names.is_group(word) {
        return Err(taken(alloc, word, place));
    }
    tokens.expect(TokenKind::Equals)?;
    tokens.expect(TokenKind::Quote)?;
    let members = members(alloc, names, tokens)?;
    tokens.expect(TokenKind::Quote)?;
    tokens.expect(TokenKind::Semicolon)?;
    names.add_group(alloc, word, members)?;
    Ok(())
}

// The groups of a block, and its brace.
fn groups(alloc: Global, names: &mut Names, tokens: &mut Tokens<'_>) -> Result<(), ReadError>
    ensures { Reads (λ _. names.new) (spec.groups_from (left tokens.old) names.old tokens.old) result tokens.new }
{
    'turns: for _turn in 0..tokens.left() {
        if tokens.eat(TokenKind::CloseBrace) {
            return Ok(());
        }
        group(alloc, names, tokens)?;
    }
    Err(tokens.no_token())
}

#[tactic(auto, unfolding(dft_stil_text::specs::SignalGroups::name_if_any))]
/// A name, if one comes next.
pub fn name_if_any<'a>(tokens: &mut Tokens<'a>) -> Result<Option<&'a [u8]>, ReadError>
    ensures { Reads (λ word. option_map (λ w. w.now) word) (spec.name_if_any tokens.old) result tokens.new }
{
    if tokens.sees_name() {
        Ok(Some(tokens.name()?))
    } else {
        Ok(None)
    }
}

#[tactic(auto, unfolding(dft_stil_text::specs::SignalGroups::group_block))]
// The groups of a block, whose name may come first.
fn group_block(alloc: Global, names: &mut Names, tokens: &mut Tokens<'_>) -> Result<(), ReadError>
    ensures { Reads (λ _. names.new) (spec.group_block names.old tokens.old) result tokens.new }
{
    name_if_any(tokens)?;
    tokens.expect(TokenKind::OpenBrace)?;
    groups(alloc, names, tokens)
}

#[tactic(auto, unfolding(dft_stil_text::specs::SignalGroups::sees_groups, dft_stil_text::specs::SignalGroups::after_groups))]
// Takes the keyword of a block of groups, if it comes next.
fn eat_groups(tokens: &mut Tokens<'_>) -> bool
    ensures found { result ≡ spec.sees_groups tokens.old }
    ensures after { tokens.new ≡ spec.after_groups tokens.old }
{
    tokens.eat_word(b"SignalGroups")
}

// The blocks of groups.
fn all_groups(alloc: Global, names: &mut Names, tokens: &mut Tokens<'_>) -> Result<(), ReadError>
    ensures { Reads (λ _. names.new) (spec.group_blocks_from (left tokens.old) names.old tokens.old) result tokens.new }
{
    'turns: for _turn in 0..tokens.left() {
        if !eat_groups(tokens) {
            return Ok(());
        }
        group_block(alloc, names, tokens)?;
    }
    Err(tokens.no_token())
}

#[tactic(auto, unfolding(dft_stil_text::specs::SignalGroups::group_blocks))]
/// All blocks of groups.
pub fn group_blocks(
    alloc: Global,
    names: &mut Names,
    tokens: &mut Tokens<'_>,
) -> Result<(), ReadError>
    ensures { Reads (λ _. names.new) (spec.group_blocks names.old tokens.old) result tokens.new }
{
    all_groups(alloc, names, tokens)
}
