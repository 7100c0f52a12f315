//! Operands of expressions: names with what is selected of them, and constants (IEEE 1364).

ghost use Rattle.std.specs.Prelude.{◌≡◌, OnOk, length};
ghost use Rattle.dft_netlist_text.specs.Expressions as spec;
ghost use Rattle.dft_netlist_text.specs.Modules.{Draft};
ghost use Rattle.dft_verilog_draft.specs.Operands.{operand_behind, Grows, AreBits};
ghost use Rattle.dft_verilog_tokens.specs.Reading.{Reads};

use dft_netlist::PinSignals;
use dft_netlist_text::{Cause, Site, TokenKind};
use dft_verilog_draft::{ModuleDraft, Spot};
use dft_verilog_tokens::{ReadError, Tokens, constant, push_value, refused, selection};
use std::alloc::Global;

// Whether a token of this kind may follow an expression that stands here.
fn ends(site: Site, kind: TokenKind) -> bool
    ensures { result ≡ spec.ends site kind }
{
    match site {
        Site::Pin { .. } => matches!(kind, TokenKind::CloseParen),
        Site::Terminal { .. } => matches!(kind, TokenKind::CloseParen | TokenKind::Comma),
        Site::Target => matches!(kind, TokenKind::Equals),
        Site::Source => matches!(kind, TokenKind::Comma | TokenKind::Semicolon),
    }
}

// Whether it may follow an operand in a concatenation.
fn parts(kind: TokenKind) -> bool
    ensures { result ≡ spec.parts kind }
{
    matches!(kind, TokenKind::Comma | TokenKind::CloseBrace)
}

// Whether a token of this kind may follow an operand here, in so many open concatenations.
fn may_follow(site: Site, depth: usize, kind: TokenKind) -> bool
    ensures { result ≡ spec.may_follow site depth kind }
{
    if depth == 0 {
        ends(site, kind)
    } else {
        parts(kind)
    }
}

#[tactic(auto, unfolding(dft_netlist_text::specs::Expressions::followed))]
/// Tests that the token behind is one that may follow.
pub fn followed(site: Site, depth: usize, tokens: &Tokens<'_>) -> Result<(), ReadError>
    ensures { Reads (λ _. tt) (spec.followed site depth tokens.now) result tokens.now }
{
    if may_follow(site, depth, tokens.kind()) {
        Ok(())
    } else {
        Err(tokens.refusal())
    }
}

// Whether a constant would be driven here.
fn drives(site: Site) -> bool
    ensures { result ≡ spec.drives site }
{
    match site {
        Site::Pin { drives } | Site::Terminal { drives } => drives,
        Site::Target => true,
        Site::Source => false,
    }
}

#[tactic(auto, unfolding(dft_netlist_text::specs::Expressions::named_operand))]
// A name with what is selected of it. Its meaning needs the token behind it.
fn named_operand<'a>(
    site: Site,
    depth: usize,
    draft: &mut ModuleDraft<'a>,
    bits: &mut PinSignals,
    tokens: &mut Tokens<'a>,
) -> Result<(), ReadError>
    ensures read { Reads (λ _. (draft.new, bits.new)) (operand_behind bits.old (spec.named_operand site depth draft.old tokens.old)) result tokens.new }
    ensures grown { OnOk result (Grows draft.old draft.new) }
    ensures bits { AreBits (length draft.old.nets) (spec.drives site) bits.old → OnOk result (AreBits (length draft.new.nets) (spec.drives site) bits.new) }
{
    let place = tokens.left();
    let word = tokens.name()?;
    let what = selection(tokens)?;
    followed(site, depth, tokens)?;
    let spot = Spot { site, depth, place };
    draft.read_name(spot, word, what, bits)
}

#[tactic(auto, using(dft_verilog_draft::proofs::OperandLemmas::constants), unfolding(dft_netlist_text::specs::Expressions::constant_operand))]
// A constant, which must not be driven. That needs the token behind it.
fn constant_operand(
    alloc: Global,
    site: Site,
    depth: usize,
    bits: &mut PinSignals,
    tokens: &mut Tokens<'_>,
) -> Result<(), ReadError>
    ensures read { (d : Draft) → Reads (λ _. (d, bits.new)) (operand_behind bits.old (spec.constant_operand site depth d tokens.old)) result tokens.new }
    ensures bits { (d : Draft) → AreBits (length d.nets) (spec.drives site) bits.old → OnOk result (AreBits (length d.nets) (spec.drives site) bits.new) }
{
    let place = tokens.left();
    let constant = constant(alloc, tokens)?;
    followed(site, depth, tokens)?;
    if drives(site) {
        return Err(refused(place, Cause::Token));
    }
    push_value(bits, constant.size, constant.value)?;
    Ok(())
}

#[tactic(auto, unfolding(dft_netlist_text::specs::Expressions::operand))]
/// An operand, whose bits come behind these. What is wrong of its meaning is refused at its first token.
pub fn operand<'a>(
    site: Site,
    depth: usize,
    draft: &mut ModuleDraft<'a>,
    bits: &mut PinSignals,
    tokens: &mut Tokens<'a>,
) -> Result<(), ReadError>
    ensures read { Reads (λ _. (draft.new, bits.new)) (operand_behind bits.old (spec.operand site depth draft.old tokens.old)) result tokens.new }
    ensures grown { OnOk result (Grows draft.old draft.new) }
    ensures bits { AreBits (length draft.old.nets) (spec.drives site) bits.old → OnOk result (AreBits (length draft.new.nets) (spec.drives site) bits.new) }
{
    if tokens.sees(TokenKind::Number) {
        constant_operand(draft.alloc(), site, depth, bits, tokens)
    } else {
        named_operand(site, depth, draft, bits, tokens)
    }
}
