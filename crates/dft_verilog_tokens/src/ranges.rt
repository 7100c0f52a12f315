//! Numbers, ranges and selections of netlist texts (IEEE 1364).

ghost use Rattle.dft_netlist_text.specs.Expressions as spec;
ghost use Rattle.dft_verilog_tokens.specs.Reading.{Reads};

use crate::cursor::Tokens;
use crate::faults::refused;
use crate::numbers::small_number;
use crate::read_error::ReadError;
use dft_base::Range;
use dft_netlist_text::{Cause, Select, TokenKind};

#[tactic(auto, unfolding(dft_netlist_text::specs::Expressions::number))]
/// A number, which is at most 65,535.
pub fn number(tokens: &mut Tokens<'_>) -> Result<u16, ReadError>
    ensures { Reads (λ number. number) (spec.number tokens.old) result tokens.new }
{
    let place = tokens.left();
    let word = tokens.expect(TokenKind::Number)?;
    match small_number(word) {
        Some(number) => Ok(number),
        None => Err(refused(place, Cause::TooLarge)),
    }
}

#[tactic(auto, unfolding(dft_netlist_text::specs::Expressions::rest_of_range))]
// The rest of a range behind its first number.
fn rest_of_range(left: u16, tokens: &mut Tokens<'_>) -> Result<Range, ReadError>
    ensures { Reads (λ range. range) (spec.rest_of_range left tokens.old) result tokens.new }
{
    tokens.expect(TokenKind::Colon)?;
    let right = number(tokens)?;
    tokens.expect(TokenKind::CloseBracket)?;
    Ok(Range { left, right })
}

#[tactic(auto, unfolding(dft_netlist_text::specs::Expressions::range))]
// Two numbers in brackets.
fn range(tokens: &mut Tokens<'_>) -> Result<Range, ReadError>
    ensures { Reads (λ range. range) (spec.range tokens.old) result tokens.new }
{
    tokens.expect(TokenKind::OpenBracket)?;
    let left = number(tokens)?;
    rest_of_range(left, tokens)
}

#[tactic(auto, unfolding(dft_netlist_text::specs::Expressions::range_if_any))]
/// A range, or none.
pub fn range_if_any(tokens: &mut Tokens<'_>) -> Result<Option<Range>, ReadError>
    ensures { Reads (λ range. range) (spec.range_if_any tokens.old) result tokens.new }
{
    if tokens.sees(TokenKind::OpenBracket) {
        Ok(Some(range(tokens)?))
    } else {
        Ok(None)
    }
}

#[tactic(auto, unfolding(dft_netlist_text::specs::Expressions::rest_of_select))]
// The rest of a bit or a part behind its first number.
fn rest_of_select(first: u16, tokens: &mut Tokens<'_>) -> Result<Select, ReadError>
    ensures { Reads (λ what. what) (spec.rest_of_select first tokens.old) result tokens.new }
{
    if tokens.sees(TokenKind::CloseBracket) {
        tokens.take();
        Ok(Select::Bit(first))
    } else {
        Ok(Select::Part(rest_of_range(first, tokens)?))
    }
}

#[tactic(auto, unfolding(dft_netlist_text::specs::Expressions::selection))]
/// A bit, a part, or all of a name.
pub fn selection(tokens: &mut Tokens<'_>) -> Result<Select, ReadError>
    ensures { Reads (λ what. what) (spec.selection tokens.old) result tokens.new }
{
    if !tokens.sees(TokenKind::OpenBracket) {
        return Ok(Select::Whole);
    }
    tokens.take();
    let first = number(tokens)?;
    rest_of_select(first, tokens)
}
