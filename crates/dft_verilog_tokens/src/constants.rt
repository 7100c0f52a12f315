//! Sized constants of netlist texts (IEEE 1364).

ghost use Rattle.std.specs.Prelude.{◌≡◌, ◌≤◌, ◌==◌, not, find, IfOk};
ghost use Rattle.std.specs.List.{list_all};
ghost use Rattle.std.specs.Char.{is_digit};
ghost use Rattle.dft_base.specs.Name.{IsName};
ghost use Rattle.dft_netlist_text.specs.Expressions as spec;
ghost use Rattle.dft_verilog_tokens.specs.Constants.{bits_of_constant};
ghost use Rattle.dft_verilog_tokens.specs.Reading.{Reads};

use crate::cursor::Tokens;
use crate::faults::refused;
use crate::numbers::{digit, value_of_digits};
use crate::ranges::number;
use crate::read_error::ReadError;
use dft_base::{Name, is_reserved};
use dft_netlist_text::{Cause, TokenKind};
use std::alloc::{AllocError, Global};

/// A constant of so many bits, at most 128. A larger value is cut from the left.
#[derive(Clone, Copy, Debug)]
pub struct SizedConstant {
    pub size: u8,
    pub value: u128,
}

// The radix of a base, which is a quote and a letter.
fn radix(base: &[u8]) -> u8
    ensures value { result ≡ spec.radix base.now }
    ensures some { 1 ≤ result }
{
    match base {
        [_, b'b' | b'B', ..] => 2,
        [_, b'o' | b'O', ..] => 8,
        [_, b'd' | b'D', ..] => 10,
        _ => 16,
    }
}

// Whether a digit stands for an unknown or open bit.
fn is_unknown_digit(byte: u8) -> bool
    ensures { result ≡ spec.is_unknown_digit byte }
{
    matches!(byte, b'x' | b'X' | b'z' | b'Z')
}

// The first byte that is no digit of the radix; `_` is passed over.
fn first_other(radix: u8, word: &[u8]) -> Option<u8>
    ensures { result ≡ find (λ b. not (is_digit b radix)) (spec.bare_digits word.now) }
{
    word.iter()
        .copied()
        .filter(|byte| *byte != b'_')
        .find(|byte| digit(*byte) >= radix)
}

// Whether these bytes are all `_`, so that no digit stands among them.
fn has_no_digit(word: &[u8]) -> bool
    ensures { result ≡ list_all (λ b. b == 95) word.now }
{
    word.iter().all(|byte| *byte == b'_')
}

// Why digits are refused, if they are but for their size.
fn cause_of_digits(alloc: Global, radix: u8, word: &[u8]) -> Result<Option<Cause>, AllocError>
    requires { IsName word.now }
    ensures { IfOk result (λ cause. cause ≡ spec.cause_of_digits radix word.now) }
{
    if is_reserved(word) {
        return Ok(Some(Cause::Unsupported(Name::from_slice(alloc, word)?)));
    }
    match first_other(radix, word) {
        Some(byte) if is_unknown_digit(byte) => {
            Ok(Some(Cause::Unsupported(Name::from_slice(alloc, word)?)))
        }
        Some(_) => Ok(Some(Cause::Token)),
        None if has_no_digit(word) => Ok(Some(Cause::Token)),
        None => Ok(None),
    }
}

#[tactic(auto, unfolding(dft_netlist_text::specs::Expressions::digits))]
// The digits behind a base, as a constant of this size.
fn digits(
    alloc: Global,
    size: u8,
    radix: u8,
    tokens: &mut Tokens<'_>,
) -> Result<SizedConstant, ReadError>
    requires { 1 ≤ radix }
    ensures read { Reads bits_of_constant (spec.digits size radix tokens.old) result tokens.new }
    ensures size { IfOk result (λ c. c.size ≡ size) }
{
    let place = tokens.left();
    let word = tokens.digits()?;
    if let Some(cause) = cause_of_digits(alloc, radix, word)? {
        return Err(refused(place, cause));
    }
    match value_of_digits(radix, word) {
        Some(value) => Ok(SizedConstant { size, value }),
        None => Err(refused(place, Cause::TooLarge)),
    }
}

#[tactic(auto, unfolding(dft_netlist_text::specs::Expressions::constant))]
/// A size of 1 to 128 bits, a base and digits, whose value is below 2^128.
pub fn constant(alloc: Global, tokens: &mut Tokens<'_>) -> Result<SizedConstant, ReadError>
    ensures read { Reads bits_of_constant (spec.constant tokens.old) result tokens.new }
    ensures size { IfOk result (λ c. c.size ≤ 128) }
{
    let place = tokens.left();
    let size = number(tokens)?;
    if size == 0 {
        return Err(refused(place, Cause::Misfit));
    }
    if size > 128 {
        return Err(refused(place, Cause::TooLarge));
    }
    let base = tokens.expect(TokenKind::Base)?;
    digits(alloc, size as u8, radix(base), tokens)
}
