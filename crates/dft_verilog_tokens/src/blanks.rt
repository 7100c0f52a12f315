//! The blanks between the tokens of a netlist text (IEEE 1364, lexical conventions).

ghost use Rattle.std.specs.Prelude.{false, ◌≡◌, ◌≤◌, ◌<◌, ◌+◌, ◌-◌, ◌^◌, ◌==◌, ◌&&◌, ◌||◌, nat_le, not, [], ◌∷◌, length, drop, IfSome};
ghost use Rattle.std.specs.List.{prefix_len};
ghost use Rattle.dft_base.specs.Words as words;
ghost use Rattle.dft_netlist_text.specs.Lexemes as spec;

use crate::classes::{is_in_word, is_lone_paren, is_plain};
use dft_lexing::{begins_with_pair, closed_len, is_printed, is_space, rest_to, to_line_end};

/// The most bytes that a netlist text may have: 64 MiB.
pub const MAX_TEXT: usize = 67_108_864;

/// How many bytes the word at the front has; a text may begin with none.
pub fn word_len(text: &[u8]) -> usize
    ensures value { result ≡ spec.word_len text.now }
    ensures within { result ≤ length text.now }
{
    text.iter().take_while(|byte| is_in_word(**byte)).count()
}

// Whether this byte may stand in a line behind a directive.
fn is_in_line(byte: u8) -> bool
    ensures { result ≡ spec.is_in_line byte }
{
    byte != b'\n' && (is_space(byte) || is_printed(byte))
}

// How many bytes of the line at the front may stand behind a directive.
fn line_len(text: &[u8]) -> usize
    ensures value { result ≡ prefix_len spec.is_in_line text.now }
    ensures within { result ≤ length text.now }
{
    text.iter().take_while(|byte| is_in_line(**byte)).count()
}

#[tactic(auto, unfolding(dft_netlist_text::specs::Lexemes::attribute_rest))]
// How many bytes an attribute has from behind its opening to behind the next `*)` that stands in no quotes.
fn attribute_rest(text: &[u8]) -> Option<usize>
    ensures value { result ≡ spec.attribute_rest false text.now }
    ensures within { IfSome result (λ len. len ≤ length text.now) }
{
    let mut rest = text;
    let mut quoted = false;
    while let [byte, behind @ ..] = rest {
        if !quoted && begins_with_pair(rest, b'*', b')') {
            return Some(text.len() - rest.len() + 2);
        }
        quoted = quoted != (*byte == b'"');
        rest = behind;
    }
    None
}

// A directive that says nothing of a netlist: it is passed over with the rest of its line.
fn is_passed_over(word: &[u8]) -> bool
    ensures { result ≡ spec.is_passed_over word.now }
{
    word == b"timescale".as_slice()
        || word == b"celldefine".as_slice()
        || word == b"endcelldefine".as_slice()
        || word == b"resetall".as_slice()
}

// The name of a directive, and the rest of its line.
fn directive_len(text: &[u8]) -> usize
    requires { 0 < length text.now }
    ensures value { result ≡ spec.directive_len text.now }
    ensures within { result ≤ length text.now }
{
    let named = 1 + word_len(&text[1..]);
    named + line_len(&text[named..])
}

// Whether a directive that is passed over begins at this text, which begins with a grave accent.
fn is_passed_directive(text: &[u8]) -> bool
    ensures { result ≡ spec.is_passed_directive text.now }
{
    match text {
        [b'`', behind @ ..] => is_passed_over(&behind[..word_len(behind)]),
        _ => false,
    }
}

#[tactic(auto, using(crate::proofs::BlankLemmas::no_blank_begins))]
/// How many bytes of blank stand at the front: a space, a comment, an attribute, or a directive that is passed over.
#[inline(always)]
pub fn blank_len(text: &[u8]) -> usize
    requires { length text.now ≤ MAX_TEXT }
    ensures value { result ≡ spec.blank_len text.now }
    ensures within { result ≤ length text.now }
{
    match text {
        [first, ..] if is_plain(*first) => 0,
        [first, second, ..] if is_lone_paren(*first, *second) => 0,
        [first, ..] if is_space(*first) => 1,
        _ => any_blank_len(text),
    }
}

#[tactic(auto, unfolding(dft_netlist_text::specs::Lexemes::blank_len, dft_lexing::specs::Blanks::comment_rest))]
// How many bytes of blank stand at the front.
#[inline(never)]
fn any_blank_len(text: &[u8]) -> usize
    requires { length text.now ≤ MAX_TEXT }
    ensures value { result ≡ spec.blank_len text.now }
    ensures within { result ≤ length text.now }
{
    match text {
        [] => 0,
        [first, ..] if is_space(*first) => 1,
        [b'/', b'/', ..] => to_line_end(text),
        [b'/', b'*', behind @ ..] => closed_len(rest_to(behind, b'*', b'/')),
        [b'(', b'*', behind @ ..] => closed_len(attribute_rest(behind)),
        _ if is_passed_directive(text) => directive_len(text),
        _ => 0,
    }
}

#[tactic(auto, unfolding(dft_netlist_text::specs::Lexemes::begins_blank))]
/// Whether a blank begins here, closed or not.
pub fn begins_blank(text: &[u8]) -> bool
    requires { 0 < length text.now }
    ensures { result ≡ spec.begins_blank text.now }
{
    match text {
        [first, ..] if is_space(*first) => true,
        [b'/', b'/' | b'*', ..] | [b'(', b'*', ..] => true,
        _ => is_passed_directive(text),
    }
}
