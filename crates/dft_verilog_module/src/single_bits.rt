//! The one bit of an expression at a pin or a terminal (IEEE 1364).

ghost use Rattle.std.specs.Prelude.{◌≡◌, List, [], ◌∷◌, length, OnOk, IfOk};
ghost use Rattle.dft_base.specs.Parser.{and_then};
ghost use Rattle.dft_netlist_text.specs.Expressions.{expression, drives};
ghost use Rattle.dft_netlist_text.specs.Items.{one_bit};
ghost use Rattle.dft_netlist_text.specs.Lexemes.{Token};
ghost use Rattle.dft_netlist_text.specs.Modules.{Draft};
ghost use Rattle.dft_verilog_module.specs.LoneNames.{lone_name};
ghost use Rattle.dft_verilog_draft.specs.Operands.{Grows, IsBit};
ghost use Rattle.dft_verilog_tokens.specs.Reading.{Reads};

use crate::concatenations::expression;
use crate::operands::followed;
use dft_netlist::Signal;
use dft_netlist_text::{Cause, Site, TokenKind};
use dft_verilog_draft::{ModuleDraft, Spot};
use dft_verilog_tokens::{ReadError, Tokens, refused, selection};

// The one bit of an expression; another number of bits is refused at this place.
fn one_bit(place: usize, bits: &[Signal]) -> Result<Signal, ReadError>
    ensures read { (d : Draft) (ts : List Token) → Reads (λ bit. (d, bit)) (one_bit place d bits.now ts) result ts }
    ensures one { IfOk result (λ bit. bits.now ≡ bit ∷ []) }
{
    match bits {
        [bit] => Ok(*bit),
        _ => Err(refused(place, Cause::Misfit)),
    }
}

#[tactic(auto, unfolding(crate::specs::LoneNames::lone_name))]
// The one bit of a name with its selection.
fn named_bit<'a>(
    site: Site,
    place: usize,
    draft: &mut ModuleDraft<'a>,
    tokens: &mut Tokens<'a>,
) -> Result<Signal, ReadError>
    ensures read { Reads (λ bit. (draft.new, bit)) (lone_name site place draft.old tokens.old) result tokens.new }
    ensures grown { OnOk result (Grows draft.old draft.new) }
    ensures bit { IfOk result (λ bit. IsBit (length draft.new.nets) (drives site) bit) }
{
    let at = tokens.left();
    let word = tokens.name()?;
    let what = selection(tokens)?;
    followed(site, 0, tokens)?;
    let spot = Spot {
        site,
        depth: 0,
        place: at,
    };
    draft.lone_bit(spot, place, word, what)
}

#[tactic(auto, using(dft_verilog_draft::proofs::OperandLemmas::one))]
// The one bit of any expression.
#[inline(never)]
fn any_bit<'a>(
    site: Site,
    place: usize,
    draft: &mut ModuleDraft<'a>,
    tokens: &mut Tokens<'a>,
) -> Result<Signal, ReadError>
    ensures read { Reads (λ bit. (draft.new, bit)) (and_then (expression site draft.old tokens.old) (λ o. one_bit place o.0 o.1)) result tokens.new }
    ensures grown { OnOk result (Grows draft.old draft.new) }
    ensures bit { IfOk result (λ bit. IsBit (length draft.new.nets) (drives site) bit) }
{
    let bits = expression(site, draft, tokens)?;
    one_bit(place, bits.as_slice())
}

/// The one bit of an expression; another number of bits is refused at this place. A name that stands alone needs no list of
/// its bits.
pub fn single_bit<'a>(
    site: Site,
    place: usize,
    draft: &mut ModuleDraft<'a>,
    tokens: &mut Tokens<'a>,
) -> Result<Signal, ReadError>
    ensures read { Reads (λ bit. (draft.new, bit)) (and_then (expression site draft.old tokens.old) (λ o. one_bit place o.0 o.1)) result tokens.new }
    ensures grown { OnOk result (Grows draft.old draft.new) }
    ensures bit { IfOk result (λ bit. IsBit (length draft.new.nets) (drives site) bit) }
{
    if 0 < tokens.left() && tokens.sees(TokenKind::Name) {
        named_bit(site, place, draft, tokens)
    } else {
        any_bit(site, place, draft, tokens)
    }
}
