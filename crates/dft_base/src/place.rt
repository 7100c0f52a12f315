//! Places in texts.

ghost use Rattle.std.specs.Prelude.{◌≡◌, ◌≤◌, ◌<◌, ◌^◌, length};
ghost use Rattle.dft_base.specs.Lexing as spec;

/// Where a token begins in a text: its line and its column in bytes, both from 1.
#[derive(Clone, Copy, Debug, PartialEq, Eq)]
pub struct Place {
    pub line: u32,
    pub column: u32,
}

/// The range of a vector, as `[left:right]` states it (IEEE 1364).
#[derive(Clone, Copy, Debug, PartialEq, Eq)]
pub struct Range {
    pub left: u16,
    pub right: u16,
}

/// The place with this many bytes from it to the end of the text.
pub fn place_of(text: &[u8], left: usize) -> Place
    requires short { length text.now < 2 ^ 31 }
    requires inside { left ≤ length text.now }
    ensures { result ≡ spec.place_of text.now left }
{
    let mut place = Place { line: 1, column: 1 };
    for &byte in &text[..text.len() - left] {
        place = next_place(place, byte);
    }
    place
}

#[tactic(auto, unfolding(crate::specs::Lexing::next_place))]
// The place behind this byte.
fn next_place(place: Place, byte: u8) -> Place
    requires line { place.line < 2 ^ 31 }
    requires column { place.column < 2 ^ 31 }
    ensures { result ≡ spec.next_place place byte }
{
    if byte == b'\n' {
        Place {
            line: place.line + 1,
            column: 1,
        }
    } else {
        Place {
            line: place.line,
            column: place.column + 1,
        }
    }
}
