//! The token at the front of a netlist text (IEEE 1364, lexical conventions).

ghost use Rattle.std.specs.Prelude.{false, true, ◌≡◌, ◌≤◌, ◌<◌, ◌+◌, ◌-◌, ◌^◌, ◌==◌, not, length, take, drop, slice_index, ◌∷◌};
ghost use Rattle.std.specs.List.{All, prefix_len};
ghost use Rattle.std.specs.Char.{is_ascii_digit};
ghost use Rattle.dft_base.specs.Name.{IsName};
ghost use Rattle.dft_base.specs.Words.{begins_word};
ghost use Rattle.dft_netlist_text.specs.Lexemes as spec;
ghost use Rattle.dft_netlist_text.specs.declared.text.TokenKind.TheVariants as kind;
ghost use Rattle.dft_verilog_tokens.specs.Cut.{carries_name, shown};

use crate::blanks::{MAX_TEXT, begins_blank, word_len};
use crate::classes::{begins_word, is_lone_paren, is_mark, lone_mark_kind};
use crate::words::{mark_kind, word_kind};
use dft_lexing::{decimal_len, is_space, is_word_byte, printed_len, word_bytes};
use dft_netlist_text::TokenKind;

/// The token at the front of a text.
#[derive(Clone, Copy, Debug)]
pub struct Lexeme {
    pub kind: TokenKind,
    /// How many bytes it has.
    pub len: usize,
    /// How many of them stand before its name.
    pub prefix: usize,
    /// How far from its begin its place is, in bytes.
    pub at: usize,
}

impl Lexeme {
    // A token of a kind and a length, whose place is its begin.
    #[inline(always)]
    fn plain(kind: TokenKind, len: usize) -> Lexeme
        ensures { shown result ≡ spec.plain kind len }
    {
        Lexeme {
            kind,
            len,
            prefix: 0,
            at: 0,
        }
    }

    #[tactic(auto, using(crate::proofs::NameLemmas::printed_bytes))]
    // This token, refused at the first of these bytes that may not stand in it.
    fn with_printed(self, bytes: &[u8]) -> Lexeme
        requires { self.prefix + length bytes.now < 2 ^ 64 }
        ensures value { shown result ≡ spec.with_printed bytes.now (shown self) }
        ensures placed { result.at ≤ self.at + self.prefix + length bytes.now }
        ensures inside { 0 < length bytes.now → self.at ≡ 0 → result.at < self.prefix + length bytes.now }
        ensures printed { carries_name result.kind ≡ true → All (λ b. (33 ≤ b) × (b ≤ 126)) bytes.now }
    {
        let printed = printed_len(bytes);
        if printed < bytes.len() {
            Lexeme {
                kind: TokenKind::Illegal,
                at: self.prefix + printed,
                ..self
            }
        } else {
            self
        }
    }
}

#[tactic(auto, using(crate::proofs::NameLemmas::digits_are_names))]
// The digits at the front of a text.
#[inline(never)]
fn digits(text: &[u8]) -> Lexeme
    ensures value { shown result ≡ spec.plain kind.Digits (prefix_len spec.is_in_digits text.now) }
    ensures within { result.len ≤ length text.now }
    ensures moves { 0 < length text.now → spec.is_in_digits (slice_index text.now 0) ≡ true → 0 < result.len }
    ensures begin { result.at ≡ 0 }
    ensures name { 0 < length text.now → spec.is_in_digits (slice_index text.now 0) ≡ true → IsName (take result.len text.now) }
{
    Lexeme::plain(TokenKind::Digits, word_bytes(text))
}

// How many bytes stand before the next space.
fn to_space(text: &[u8]) -> usize
    ensures value { result ≡ prefix_len (λ b. not (spec.is_space b)) text.now }
    ensures within { result ≤ length text.now }
{
    text.iter().take_while(|byte| !is_space(**byte)).count()
}

#[tactic(auto, unfolding(dft_netlist_text::specs::Lexemes::to_blank))]
// How many bytes stand before the next blank.
fn to_blank(text: &[u8]) -> usize
    ensures value { result ≡ spec.to_blank text.now }
    ensures within { result ≤ length text.now }
{
    let mut rest = text;
    while let [_, behind @ ..] = rest {
        if begins_blank(rest) {
            return text.len() - rest.len();
        }
        rest = behind;
    }
    text.len()
}

#[tactic(auto, unfolding(dft_netlist_text::specs::Lexemes::escaped))]
// A name behind a backslash goes to the next space, and has a byte at least.
#[inline(never)]
fn escaped(behind: &[u8]) -> Lexeme
    requires { length behind.now < MAX_TEXT }
    ensures value { shown result ≡ spec.escaped behind.now }
    ensures name { carries_name result.kind ≡ true → (result.prefix ≡ 1) × IsName (take (result.len - 1) behind.now) }
    ensures within { result.len ≤ 1 + length behind.now }
    ensures moves { 0 < result.len }
    ensures placed { result.at ≤ 1 + length behind.now }
    ensures inside { result.at < result.len }
    ensures named { result.prefix ≤ result.len }
{
    let len = to_space(behind);
    if len == 0 {
        return Lexeme::plain(TokenKind::Other, 1);
    }
    let name = Lexeme {
        kind: TokenKind::Name,
        len: 1 + len,
        prefix: 1,
        at: 0,
    };
    name.with_printed(&behind[..len])
}

// Whether a byte is the letter of a base.
fn is_base(byte: u8) -> bool
    ensures { result ≡ spec.is_base byte }
{
    matches!(byte, b'b' | b'B' | b'o' | b'O' | b'd' | b'D' | b'h' | b'H')
}

#[tactic(auto, unfolding(dft_netlist_text::specs::Lexemes::quote))]
// A quote, with the letter of a base behind it; at the end of the text a quote waits for one.
#[inline(never)]
fn quote(behind: &[u8]) -> Lexeme
    ensures value { shown result ≡ spec.quote behind.now }
    ensures name { carries_name result.kind ≡ false }
    ensures within { result.len ≤ 1 + length behind.now }
    ensures moves { 0 < result.len }
    ensures placed { result.at ≤ 1 + length behind.now }
    ensures inside { result.at < 1 + length behind.now → result.at < result.len }
    ensures named { result.prefix ≤ result.len }
{
    match behind {
        [] => Lexeme {
            kind: TokenKind::Unclosed,
            len: 1,
            prefix: 0,
            at: 1,
        },
        [letter, ..] if is_base(*letter) => Lexeme::plain(TokenKind::Base, 2),
        _ => Lexeme::plain(TokenKind::Other, 1),
    }
}

#[tactic(auto, using(crate::proofs::BlankLemmas::before_blank), unfolding(dft_netlist_text::specs::Lexemes::directive))]
// A `#` or another directive goes to the next blank.
#[inline(never)]
fn directive(text: &[u8]) -> Lexeme
    requires { length text.now ≤ MAX_TEXT }
    ensures value { shown result ≡ spec.directive text.now }
    ensures name { carries_name result.kind ≡ true → 0 < result.len → IsName (take result.len text.now) }
    ensures bare { result.prefix ≡ 0 }
    ensures within { result.len ≤ length text.now }
    ensures moves { 0 < length text.now → spec.begins_blank text.now ≡ false → 0 < result.len }
    ensures placed { result.at ≤ length text.now }
    ensures inside { 0 < result.len → result.at < result.len }
    ensures named { result.prefix ≤ result.len }
{
    let len = to_blank(text);
    Lexeme::plain(TokenKind::Directive, len).with_printed(&text[..len])
}

#[tactic(auto, using(crate::proofs::ClassLemmas::marks_in_front))]
/// The token at the front of a text that begins with no blank. Behind a base a run of letters, digits and `_` is one token.
#[inline(always)]
pub fn cut(behind_base: bool, text: &[u8]) -> Lexeme
    requires { length text.now ≤ MAX_TEXT }
    ensures value { shown result ≡ spec.lexeme behind_base text.now }
    ensures within { result.len ≤ length text.now }
    ensures moves { 0 < length text.now → spec.blank_len text.now ≡ 0 → 0 < result.len }
    ensures placed { result.at ≤ length text.now }
    ensures inside { result.at < length text.now → spec.blank_len text.now ≡ 0 → result.at < result.len }
    ensures named { result.prefix ≤ result.len }
    ensures name { carries_name result.kind ≡ true → spec.blank_len text.now ≡ 0 → IsName (drop result.prefix (take result.len text.now)) }
{
    match text {
        [first, ..] if is_mark(*first) => Lexeme::plain(lone_mark_kind(*first), 1),
        [first, second, ..] if is_lone_paren(*first, *second) => {
            Lexeme::plain(TokenKind::OpenParen, 1)
        }
        _ => cut_any(behind_base, text),
    }
}

#[tactic(auto, using(crate::proofs::BlankLemmas::no_blank), unfolding(dft_netlist_text::specs::Lexemes::lexeme))]
// The token at the front of a text that begins with no blank.
#[inline(always)]
fn cut_any(behind_base: bool, text: &[u8]) -> Lexeme
    requires { length text.now ≤ MAX_TEXT }
    ensures value { shown result ≡ spec.lexeme behind_base text.now }
    ensures within { result.len ≤ length text.now }
    ensures moves { 0 < length text.now → spec.blank_len text.now ≡ 0 → 0 < result.len }
    ensures placed { result.at ≤ length text.now }
    ensures inside { result.at < length text.now → spec.blank_len text.now ≡ 0 → result.at < result.len }
    ensures named { result.prefix ≤ result.len }
    ensures name { carries_name result.kind ≡ true → spec.blank_len text.now ≡ 0 → IsName (drop result.prefix (take result.len text.now)) }
{
    match text {
        [] => Lexeme::plain(TokenKind::End, 0),
        [first, ..] if behind_base && is_word_byte(*first) => digits(text),
        [first, ..] if begins_word(*first) => word(text),
        [first, ..] if first.is_ascii_digit() => Lexeme::plain(
            TokenKind::Number,
            decimal_len(text),
        ),
        [b'\\', behind @ ..] => escaped(behind),
        [b'\'', behind @ ..] => quote(behind),
        [b'#' | b'`', ..] => directive(text),
        [b'/', b'*', ..] | [b'(', b'*', ..] => unclosed(text.len()),
        [first, ..] => Lexeme::plain(mark_kind(*first), 1),
    }
}

#[tactic(auto, using(crate::proofs::NameLemmas::words_are_names))]
// The word at the front of a text.
#[inline(always)]
fn word(text: &[u8]) -> Lexeme
    ensures value { shown result ≡ spec.plain (spec.word_kind (take (spec.word_len text.now) text.now)) (spec.word_len text.now) }
    ensures within { result.len ≤ length text.now }
    ensures moves { 0 < length text.now → begins_word (slice_index text.now 0) ≡ true → 0 < result.len }
    ensures name { 0 < length text.now → begins_word (slice_index text.now 0) ≡ true → IsName (take result.len text.now) }
{
    let len = word_len(text);
    Lexeme::plain(word_kind(&text[..len]), len)
}

// A comment or an attribute that does not close is refused at the end of the text.
#[inline(never)]
fn unclosed(left: usize) -> Lexeme
    ensures { shown result ≡ record { kind = kind.Unclosed; len = 1; prefix = 0; at = left } }
{
    Lexeme {
        kind: TokenKind::Unclosed,
        len: 1,
        prefix: 0,
        at: left,
    }
}
