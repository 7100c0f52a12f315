//! The classes of bytes, by one table (IEEE 1364, lexical conventions).

ghost use Rattle.std.specs.Prelude.{◌≡◌, true, false};
ghost use Rattle.dft_base.specs.Words as words;
ghost use Rattle.dft_netlist_text.specs.Lexemes as spec;
ghost use Rattle.dft_verilog_tokens.specs.Classes as classes;
ghost use Rattle.dft_verilog_tokens.specs.Cut.{carries_name};

use dft_netlist_text::TokenKind;

// The class of each byte: 13 where a word begins with it, 12 where it only goes on in a word, 2 to 11 for the marks of
// `MARKS`, 1 for another printed byte with which no blank begins, and 0 for all others.
static CLASSES: [u8; 256] = [
    0, 0, 0, 0, 0, 0, 0, 0, 0, 0, 0, 0, 0, 0, 0, 0, 0, 0, 0, 0, 0, 0, 0, 0, 0, 0, 0, 0, 0, 0, 0, 0,
    0, 1, 1, 1, 12, 1, 1, 1, 0, 2, 1, 1, 3, 1, 5, 0, 12, 12, 12, 12, 12, 12, 12, 12, 12, 12, 9, 4,
    1, 6, 1, 1, 1, 13, 13, 13, 13, 13, 13, 13, 13, 13, 13, 13, 13, 13, 13, 13, 13, 13, 13, 13, 13,
    13, 13, 13, 13, 13, 13, 7, 1, 8, 1, 13, 0, 13, 13, 13, 13, 13, 13, 13, 13, 13, 13, 13, 13, 13,
    13, 13, 13, 13, 13, 13, 13, 13, 13, 13, 13, 13, 13, 10, 1, 11, 1, 0, 0, 0, 0, 0, 0, 0, 0, 0, 0,
    0, 0, 0, 0, 0, 0, 0, 0, 0, 0, 0, 0, 0, 0, 0, 0, 0, 0, 0, 0, 0, 0, 0, 0, 0, 0, 0, 0, 0, 0, 0, 0,
    0, 0, 0, 0, 0, 0, 0, 0, 0, 0, 0, 0, 0, 0, 0, 0, 0, 0, 0, 0, 0, 0, 0, 0, 0, 0, 0, 0, 0, 0, 0, 0,
    0, 0, 0, 0, 0, 0, 0, 0, 0, 0, 0, 0, 0, 0, 0, 0, 0, 0, 0, 0, 0, 0, 0, 0, 0, 0, 0, 0, 0, 0, 0, 0,
    0, 0, 0, 0, 0, 0, 0, 0, 0, 0, 0, 0, 0, 0, 0, 0, 0, 0, 0, 0, 0, 0, 0,
];

// The kinds of the marks, by their class less 2.
static MARKS: [TokenKind; 10] = [
    TokenKind::CloseParen,
    TokenKind::Comma,
    TokenKind::Semicolon,
    TokenKind::Point,
    TokenKind::Equals,
    TokenKind::OpenBracket,
    TokenKind::CloseBracket,
    TokenKind::Colon,
    TokenKind::OpenBrace,
    TokenKind::CloseBrace,
];

/// Whether a word begins with this byte: a letter or `_`.
#[inline(always)]
pub fn begins_word(byte: u8) -> bool
    ensures { result ≡ words.begins_word byte }
{
    CLASSES[byte as usize] == 13
}

/// Whether a word may go on with this byte: a letter, a digit, `_` or `$`.
#[inline(always)]
pub fn is_in_word(byte: u8) -> bool
    ensures { result ≡ words.continues_word byte }
{
    12 <= CLASSES[byte as usize]
}

/// Whether this byte is a token of its own, whatever stands behind it.
#[inline(always)]
pub fn is_mark(byte: u8) -> bool
    ensures { result ≡ classes.is_mark byte }
{
    let class = CLASSES[byte as usize];
    2 <= class && class <= 11
}

/// Whether this byte is printed and begins no blank, whatever stands behind it.
#[inline(always)]
pub fn is_plain(byte: u8) -> bool
    ensures { result ≡ classes.is_plain byte }
{
    0 < CLASSES[byte as usize]
}

/// The kind of a byte that is a token of its own.
#[inline(always)]
pub fn lone_mark_kind(byte: u8) -> TokenKind
    requires { classes.is_mark byte ≡ true }
    ensures value { result ≡ spec.mark_kind byte }
    ensures name { carries_name result ≡ false }
{
    MARKS[(CLASSES[byte as usize] - 2) as usize]
}

/// Whether these two bytes are a bracket that opens no attribute.
#[inline(always)]
pub fn is_lone_paren(first: u8, second: u8) -> bool
    ensures { result ≡ classes.is_lone_paren first second }
{
    first == b'(' && second != b'*'
}
