//! Numbers and digits of netlist texts (IEEE 1364).

ghost use Rattle.std.specs.Prelude.{◌≡◌, ◌≤◌, ◌++◌, ◌+◌, ◌*◌, ◌^◌, map, length, OnOk};
ghost use Rattle.std.specs.Char.{digit_value};
ghost use Rattle.dft_netlist_text.specs.Expressions as spec;
ghost use Rattle.dft_netlist.specs.declared.instance.Signal.TheVariants as signal;
ghost use Rattle.dft_verilog_tokens.specs.Digits.{if_below};

use dft_netlist::{PinSignals, Signal};
use std::alloc::AllocError;

/// The value of a digit or a letter, as numbers of up to 36 count them; 36 for another byte.
pub fn digit(byte: u8) -> u8
    ensures value { result ≡ digit_value byte }
    ensures few { result ≤ 36 }
{
    match byte {
        b'0'..=b'9' => byte - b'0',
        b'A'..=b'Z' => byte - b'A' + 10,
        b'a'..=b'z' => byte - b'a' + 10,
        _ => 36,
    }
}

/// A number of at most five digits that is at most 65,535.
pub fn small_number(word: &[u8]) -> Option<u16>
    ensures { result ≡ spec.small_number word.now }
{
    if word.len() > 5 {
        return None;
    }
    let mut value: u16 = 0;
    for byte in word {
        value = with_digit(value, *byte)?;
    }
    Some(value)
}

// A number with one decimal digit more.
fn with_digit(value: u16, byte: u8) -> Option<u16>
    ensures { result ≡ if_below (2 ^ 16) (value * 10 + digit_value byte) }
{
    value.checked_mul(10)?.checked_add(u16::from(digit(byte)))
}

// A value with one digit of a radix more.
fn with_wide_digit(value: u128, radix: u8, byte: u8) -> Option<u128>
    ensures { result ≡ if_below (2 ^ 128) (value * radix + digit_value byte) }
{
    value
        .checked_mul(u128::from(radix))?
        .checked_add(u128::from(digit(byte)))
}

/// The value of digits, `_` among them, where it is below 2^128.
pub fn value_of_digits(radix: u8, word: &[u8]) -> Option<u128>
    requires { 1 ≤ radix }
    ensures { result ≡ spec.value_of_digits radix word.now }
{
    let mut value: u128 = 0;
    for byte in word {
        if *byte != b'_' {
            value = with_wide_digit(value, radix, *byte)?;
        }
    }
    Some(value)
}

/// Puts the bits of a value behind these, leftmost first: cut to the size, or extended with zeros.
pub fn push_value(bits: &mut PinSignals, size: u8, value: u128) -> Result<(), AllocError>
    requires { size ≤ 128 }
    ensures { OnOk result (bits.new ≡ bits.old ++ map signal.Constant (spec.bits_of_value size value)) }
{
    let mut left = size;
    while left > 0 {
        left -= 1;
        bits.push(Signal::Constant((value >> left) % 2 == 1))?;
    }
    Ok(())
}
