//! The token at the front of a pattern text (IEEE 1450-1999, in a subset of its forms).

ghost use Rattle.std.specs.Prelude.{false, true, ◌≡◌, ◌≤◌, ◌<◌, ◌+◌, ◌-◌, ◌^◌, ◌==◌, not, length, take, drop, slice_index, ◌∷◌};
ghost use Rattle.std.specs.List.{All, prefix_len};
ghost use Rattle.std.specs.Char.{is_ascii_digit};
ghost use Rattle.dft_base.specs.Name.{IsName};
ghost use Rattle.dft_base.specs.Words.{begins_word};
ghost use Rattle.dft_stil_tokens.specs.Lexemes as spec;
ghost use Rattle.dft_stil_tokens.specs.declared.text.TokenKind.TheVariants as kind;
ghost use Rattle.dft_stil_tokens.specs.Cut.{carries_name, shown};

use crate::blanks::{MAX_TEXT, note_opening, word_len};
use crate::text::TokenKind;
use dft_base::begins_word;
use dft_lexing::{decimal_len, is_printed, printed_len};

/// The token at the front of a text.
#[derive(Clone, Copy, Debug)]
pub struct Lexeme {
    pub kind: TokenKind,
    /// How many bytes it has.
    pub len: usize,
    /// How many of them stand before its name.
    pub prefix: usize,
    /// How many of them stand to the end of its name.
    pub end: usize,
    /// How far from its begin its place is, in bytes.
    pub at: usize,
}

// A token of a kind and a length, whose place is its begin.
fn plain(kind: TokenKind, len: usize) -> Lexeme
    ensures { shown result ≡ spec.plain kind len }
{
    Lexeme {
        kind,
        len,
        prefix: 0,
        end: len,
        at: 0,
    }
}

// A token that the text does not close: all so many bytes to its end, refused behind so many of them.
fn unclosed(len: usize, at: usize) -> Lexeme
    ensures { shown result ≡ spec.unclosed len at }
{
    Lexeme {
        kind: TokenKind::Unclosed,
        len,
        prefix: 0,
        end: len,
        at,
    }
}

// How many bytes stand before the next double quote.
fn to_quote(text: &[u8]) -> usize
    ensures value { result ≡ spec.to_quote text.now }
    ensures within { result ≤ length text.now }
{
    text.iter().take_while(|byte| **byte != b'"').count()
}

// Whether a byte may stand in a number outside single quotes.
fn is_in_number(byte: u8) -> bool
    ensures { result ≡ spec.is_in_number false byte }
{
    byte.is_ascii_alphanumeric() || byte == b'_' || byte == b'.'
}

// How many bytes at the front may stand in a number outside single quotes.
fn run_len(text: &[u8]) -> usize
    ensures value { result ≡ prefix_len (spec.is_in_number false) text.now }
    ensures within { result ≤ length text.now }
{
    text.iter().take_while(|byte| is_in_number(**byte)).count()
}

// How many bytes the number at the front has.
fn number_len(quoted: bool, text: &[u8]) -> usize
    ensures value { result ≡ prefix_len (spec.is_in_number quoted) text.now }
    ensures within { result ≤ length text.now }
{
    if quoted {
        decimal_len(text)
    } else {
        run_len(text)
    }
}

#[tactic(auto, unfolding(crate::specs::Lexemes::mark_kind))]
// The kind of a byte that stands for itself.
fn mark_kind(byte: u8) -> TokenKind
    ensures value { result ≡ spec.mark_kind byte }
    ensures printed { carries_name result ≡ true → spec.is_printed byte ≡ true }
{
    match byte {
        b'{' => TokenKind::OpenBrace,
        b'}' => TokenKind::CloseBrace,
        b';' => TokenKind::Semicolon,
        b':' => TokenKind::Colon,
        b'=' => TokenKind::Equals,
        b'+' => TokenKind::Plus,
        b'\'' => TokenKind::Quote,
        b'\\' => TokenKind::Backslash,
        _ if is_printed(byte) => TokenKind::Other,
        _ => TokenKind::Illegal,
    }
}

// A text in double quotes with so many bytes, of which so many at the front are printed.
fn closed_quote(len: usize, printed: usize) -> Lexeme
    requires { len < 2 ^ 63 }
    ensures value { shown result ≡ spec.closed_quote len printed }
    ensures len { result.len ≡ 2 + len }
    ensures inside { result.at < result.len }
    ensures named { (result.prefix ≡ 1) × (result.end ≡ 1 + len) }
    ensures printed { carries_name result.kind ≡ true → (0 < len) × (len ≤ printed) }
{
    if len == 0 {
        Lexeme {
            kind: TokenKind::Text,
            len: 2,
            prefix: 1,
            end: 1,
            at: 0,
        }
    } else if printed < len {
        Lexeme {
            kind: TokenKind::Text,
            len: 2 + len,
            prefix: 1,
            end: 1 + len,
            at: 1 + printed,
        }
    } else {
        Lexeme {
            kind: TokenKind::Quoted,
            len: 2 + len,
            prefix: 1,
            end: 1 + len,
            at: 0,
        }
    }
}

#[tactic(auto, using(crate::proofs::NameBytes::quoted_names), unfolding(crate::specs::Lexemes::quoted_text))]
// A double quote and the next one.
fn quoted_text(behind: &[u8]) -> Lexeme
    requires { length behind.now < MAX_TEXT }
    ensures value { shown result ≡ spec.quoted_text behind.now }
    ensures within { result.len ≤ 1 + length behind.now }
    ensures moves { 0 < result.len }
    ensures placed { result.at ≤ 1 + length behind.now }
    ensures inside { result.at < 1 + length behind.now → result.at < result.len }
    ensures named { (result.prefix ≤ result.end) × (result.end ≤ result.len) }
    ensures name { carries_name result.kind ≡ true → (result.prefix ≡ 1) × IsName (take (result.end - 1) behind.now) }
{
    let len = to_quote(behind);
    let printed = printed_len(behind);
    if len < behind.len() {
        closed_quote(len, printed)
    } else {
        unclosed(1 + behind.len(), 1 + printed)
    }
}

#[tactic(auto, using(crate::proofs::NameBytes::words_are_names), unfolding(crate::specs::Lexemes::word_or_note))]
// A word, or an annotation that the text does not close.
fn word_or_note(text: &[u8]) -> Lexeme
    requires { length text.now ≤ MAX_TEXT }
    ensures value { shown result ≡ spec.word_or_note text.now }
    ensures within { result.len ≤ length text.now }
    ensures moves { 0 < length text.now → begins_word (slice_index text.now 0) ≡ true → 0 < result.len }
    ensures placed { result.at ≤ length text.now }
    ensures inside { result.at < length text.now → begins_word (slice_index text.now 0) ≡ true → result.at < result.len }
    ensures bare { (result.prefix ≡ 0) × (result.end ≡ result.len) }
    ensures name { carries_name result.kind ≡ true → 0 < length text.now → begins_word (slice_index text.now 0) ≡ true → IsName (take result.len text.now) }
{
    match note_opening(text) {
        Some(_) => unclosed(text.len(), text.len()),
        None => plain(TokenKind::Word, word_len(text)),
    }
}

#[tactic(auto, using(crate::proofs::NameBytes::numbers_are_names))]
// The number at the front of a text.
fn number(quoted: bool, text: &[u8]) -> Lexeme
    ensures value { shown result ≡ spec.plain kind.Number (prefix_len (spec.is_in_number quoted) text.now) }
    ensures within { result.len ≤ length text.now }
    ensures moves { 0 < length text.now → is_ascii_digit (slice_index text.now 0) ≡ true → 0 < result.len }
    ensures name { 0 < length text.now → is_ascii_digit (slice_index text.now 0) ≡ true → IsName (take result.len text.now) }
{
    plain(TokenKind::Number, number_len(quoted, text))
}

#[tactic(auto, using(crate::proofs::NameBytes::marks_are_names))]
// A byte that stands for itself.
fn mark(text: &[u8]) -> Lexeme
    requires { 0 < length text.now }
    ensures value { shown result ≡ spec.plain (spec.mark_kind (slice_index text.now 0)) 1 }
    ensures name { carries_name result.kind ≡ true → IsName (take 1 text.now) }
{
    plain(mark_kind(text[0]), 1)
}

#[tactic(auto, unfolding(crate::specs::Lexemes::lexeme))]
/// The token at the front of a text that begins with no blank. Between single quotes a number has digits alone.
pub fn cut(quoted: bool, text: &[u8]) -> Lexeme
    requires { length text.now ≤ MAX_TEXT }
    ensures value { shown result ≡ spec.lexeme quoted text.now }
    ensures within { result.len ≤ length text.now }
    ensures moves { 0 < length text.now → 0 < result.len }
    ensures placed { result.at ≤ length text.now }
    ensures inside { result.at < length text.now → result.at < result.len }
    ensures named { result.prefix ≤ result.end }
    ensures ended { result.end ≤ result.len }
    ensures name { carries_name result.kind ≡ true → IsName (drop result.prefix (take result.end text.now)) }
{
    match text {
        [] => plain(TokenKind::End, 0),
        [b'/', b'*', ..] => unclosed(text.len(), text.len()),
        [b'"', behind @ ..] => quoted_text(behind),
        [first, ..] if begins_word(*first) => word_or_note(text),
        [first, ..] if first.is_ascii_digit() => number(quoted, text),
        _ => mark(text),
    }
}
