//! The kinds of words and of bytes that stand for themselves (IEEE 1364, keywords and operators).

ghost use Rattle.std.specs.Prelude.{false, ◌≡◌, IsTrue};
ghost use Rattle.dft_base.specs.Words as words;
ghost use Rattle.dft_netlist_text.specs.Lexemes as spec;
ghost use Rattle.dft_verilog_tokens.specs.Cut.{carries_name};
ghost use Rattle.dft_verilog_tokens.specs.SmallWords as letters;

use dft_base::is_reserved;
use dft_lexing::is_printed;
use dft_netlist_text::TokenKind;

// Whether two small letters stand in front, as in each reserved word.
#[inline(always)]
fn begins_small(word: &[u8]) -> bool
    ensures { result ≡ letters.begins_small word.now }
{
    match word {
        [first, second, ..] => first.is_ascii_lowercase() && second.is_ascii_lowercase(),
        _ => false,
    }
}

#[tactic(auto, using(crate::proofs::SmallWordLemmas::small_words))]
// Whether a word is reserved. Most names do not begin as one, and are told at once.
#[inline(always)]
fn is_reserved_word(word: &[u8]) -> bool
    ensures { result ≡ words.is_reserved word.now }
{
    begins_small(word) && is_reserved(word)
}

#[tactic(auto, using(crate::proofs::WordKindLemmas::free_words))]
/// The kind of a word: a keyword, another reserved word, or a name.
#[inline(always)]
pub fn word_kind(word: &[u8]) -> TokenKind
    ensures { result ≡ spec.word_kind word.now }
{
    if is_reserved_word(word) {
        reserved_kind(word)
    } else {
        TokenKind::Name
    }
}

#[tactic(auto, unfolding(dft_netlist_text::specs::Lexemes::word_kind))]
// The kind of a word that is reserved.
#[inline(never)]
fn reserved_kind(word: &[u8]) -> TokenKind
    requires { IsTrue (words.is_reserved word.now) }
    ensures { result ≡ spec.word_kind word.now }
{
    if word == b"module".as_slice() {
        TokenKind::Module
    } else if word == b"endmodule".as_slice() {
        TokenKind::Endmodule
    } else if word == b"input".as_slice() {
        TokenKind::Input
    } else if word == b"output".as_slice() {
        TokenKind::Output
    } else if word == b"inout".as_slice() {
        TokenKind::Inout
    } else if word == b"wire".as_slice() {
        TokenKind::Wire
    } else if word == b"assign".as_slice() {
        TokenKind::Assign
    } else if word == b"and".as_slice() {
        TokenKind::And
    } else if word == b"nand".as_slice() {
        TokenKind::Nand
    } else if word == b"or".as_slice() {
        TokenKind::Or
    } else if word == b"nor".as_slice() {
        TokenKind::Nor
    } else if word == b"xor".as_slice() {
        TokenKind::Xor
    } else if word == b"xnor".as_slice() {
        TokenKind::Xnor
    } else if word == b"buf".as_slice() {
        TokenKind::Buf
    } else if word == b"not".as_slice() {
        TokenKind::Not
    } else {
        TokenKind::Reserved
    }
}

#[tactic(auto, unfolding(dft_netlist_text::specs::Lexemes::mark_kind))]
/// The kind of a byte that stands for itself.
#[inline(never)]
pub fn mark_kind(byte: u8) -> TokenKind
    ensures value { result ≡ spec.mark_kind byte }
    ensures name { carries_name result ≡ false }
{
    match byte {
        b'(' => TokenKind::OpenParen,
        b')' => TokenKind::CloseParen,
        b',' => TokenKind::Comma,
        b';' => TokenKind::Semicolon,
        b'.' => TokenKind::Point,
        b'=' => TokenKind::Equals,
        b'[' => TokenKind::OpenBracket,
        b']' => TokenKind::CloseBracket,
        b':' => TokenKind::Colon,
        b'{' => TokenKind::OpenBrace,
        b'}' => TokenKind::CloseBrace,
        _ if is_printed(byte) => TokenKind::Other,
        _ => TokenKind::Illegal,
    }
}
