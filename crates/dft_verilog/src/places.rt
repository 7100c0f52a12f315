//! Places of a text that are asked for in its order, without a walk from its begin for each.

ghost use Rattle.std.specs.Prelude.{◌≡◌, ◌+◌, ◌≤◌, ◌<◌, ◌^◌, length};
ghost use Rattle.dft_base.specs.Lexing as spec;
ghost use Rattle.dft_verilog.specs.Passing.{HasPassed, IsNear};

use dft_base::Place;
use dft_verilog_tokens::MAX_TEXT;

/// How many bytes of a text were passed, and the place behind them.
#[derive(Clone, Copy, Debug)]
pub struct Passed {
    pub bytes: usize,
    pub place: Place,
}

/// No byte was passed.
pub fn unpassed() -> Passed
    ensures bytes { result.bytes ≡ 0 }
    ensures place { result.place ≡ record { line = 1; column = 1 } }
{
    Passed {
        bytes: 0,
        place: Place { line: 1, column: 1 },
    }
}

#[tactic(auto, unfolding(dft_base::specs::Lexing::next_place))]
// The place behind this byte.
fn next_place(place: Place, byte: u8) -> Place
    requires line { place.line < 2 ^ 31 }
    requires column { place.column < 2 ^ 31 }
    ensures { result ≡ spec.next_place place byte }
{
    if byte == b'\n' {
        Place {
            line: place.line + 1,
            column: 1,
        }
    } else {
        Place {
            line: place.line,
            column: place.column + 1,
        }
    }
}

// The place behind these bytes.
fn place_behind(place: Place, passed: usize, bytes: &[u8]) -> Place
    requires near { IsNear place (passed + 1) }
    requires few { passed + length bytes.now ≤ MAX_TEXT }
    ensures { result ≡ spec.place_after place bytes.now }
{
    let mut at = place;
    for &byte in bytes {
        at = next_place(at, byte);
    }
    at
}

// What was passed, if it does not go past so many bytes, or else nothing.
fn passed_before(text: &[u8], passed: Passed, bytes: usize) -> Passed
    requires { HasPassed text.now passed }
    ensures before { result.bytes ≤ bytes }
    ensures passed { HasPassed text.now result }
{
    if bytes < passed.bytes {
        unpassed()
    } else {
        passed
    }
}

/// Passes the bytes of a text up to where so many are left.
pub fn passed_to(text: &[u8], passed: Passed, left: usize) -> Passed
    requires few { length text.now ≤ MAX_TEXT }
    requires passed { HasPassed text.now passed }
    ensures place { result.place ≡ spec.place_of text.now left }
    ensures passed { HasPassed text.now result }
{
    let bytes = text.len() - left.min(text.len());
    let before = passed_before(text, passed, bytes);
    let between = &text[before.bytes..bytes];
    Passed {
        bytes,
        place: place_behind(before.place, before.bytes, between),
    }
}
