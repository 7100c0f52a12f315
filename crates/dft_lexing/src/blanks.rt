//! Spaces and comments.

ghost use Rattle.std.specs.Prelude.{◌≡◌, ◌≤◌, ◌<◌, ◌+◌, ◌-◌, ◌^◌, ◌==◌, not, [], ◌∷◌, length, IfSome};
ghost use Rattle.std.specs.List.{prefix_len};
ghost use Rattle.std.specs.Char.{is_ascii_digit};
ghost use Rattle.dft_lexing.specs.Blanks as spec;

use dft_base::is_printed;

/// Whether a byte separates tokens: a tab, a line feed, a form feed, a carriage return or a space.
#[inline(always)]
pub fn is_space(byte: u8) -> bool
    ensures { result ≡ spec.is_space byte }
{
    byte == b'\t' || byte == b'\n' || byte == 12 || byte == b'\r' || byte == b' '
}

/// Whether a byte is a letter, a digit or `_`.
#[inline(always)]
pub fn is_word_byte(byte: u8) -> bool
    ensures { result ≡ spec.is_word_byte byte }
{
    byte.is_ascii_alphanumeric() || byte == b'_'
}

/// How many letters, digits and `_` stand at the front.
pub fn word_bytes(text: &[u8]) -> usize
    ensures value { result ≡ prefix_len spec.is_word_byte text.now }
    ensures within { result ≤ length text.now }
{
    text.iter().take_while(|byte| is_word_byte(**byte)).count()
}

/// How many bytes at the front are printed.
pub fn printed_len(text: &[u8]) -> usize
    ensures value { result ≡ prefix_len spec.is_printed text.now }
    ensures within { result ≤ length text.now }
{
    text.iter().take_while(|byte| is_printed(**byte)).count()
}

/// How many decimal digits stand at the front.
pub fn decimal_len(text: &[u8]) -> usize
    ensures value { result ≡ prefix_len is_ascii_digit text.now }
    ensures within { result ≤ length text.now }
{
    text.iter().take_while(|byte| byte.is_ascii_digit()).count()
}

/// How many bytes stand before the end of the line.
pub fn to_line_end(text: &[u8]) -> usize
    ensures value { result ≡ prefix_len (λ c. not (c == 10)) text.now }
    ensures within { result ≤ length text.now }
{
    text.iter().take_while(|byte| **byte != b'\n').count()
}

/// Whether these two bytes stand at the front.
#[inline(always)]
pub fn begins_with_pair(text: &[u8], first: u8, second: u8) -> bool
    ensures { result ≡ spec.begins_with (first ∷ second ∷ []) text.now }
{
    matches!(text, [a, b, ..] if *a == first && *b == second)
}

/// How many bytes stand to behind the first place where these two bytes stand, as `*/` behind the opening of a comment.
pub fn rest_to(text: &[u8], first: u8, second: u8) -> Option<usize>
    ensures value { result ≡ spec.rest_to (first ∷ second ∷ []) text.now }
    ensures within { IfSome result (λ len. len ≤ length text.now) }
{
    let mut rest = text;
    while let [_, behind @ ..] = rest {
        if begins_with_pair(rest, first, second) {
            return Some(text.len() - rest.len() + 2);
        }
        rest = behind;
    }
    None
}

/// What a comment (or another blank that is closed) has with its opening of two bytes; none where the text does not close it.
pub fn closed_len(rest: Option<usize>) -> usize
    requires { IfSome rest (λ len. len + 2 < 2 ^ 64) }
    ensures { result ≡ spec.closed_len rest }
{
    match rest {
        Some(len) => 2 + len,
        None => 0,
    }
}
