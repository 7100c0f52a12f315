ghost use Rattle.std.specs.Prelude.{◌≡◌};
ghost use Rattle.std.specs.List.{list_all, list_any};
ghost use Rattle.std.specs.Str.{bytes_eq};
ghost use Rattle.dft_base.specs.Words as words;

use crate::reserved::is_reserved;

// The words that later standards reserve, in their order.
static LATER_RESERVED_WORDS: [&str; 14] = [
    "cell",
    "config",
    "design",
    "endconfig",
    "incdir",
    "include",
    "instance",
    "liblist",
    "library",
    "noshowcancelled",
    "pulsestyle_ondetect",
    "pulsestyle_onevent",
    "showcancelled",
    "use",
];

/// Whether a word of Verilog may begin with this byte: a letter or `_` (IEEE 1364, simple identifiers).
pub fn begins_word(byte: u8) -> bool
    ensures { result ≡ words.begins_word byte }
{
    byte.is_ascii_alphabetic() || byte == b'_'
}

/// Whether a word of Verilog may go on with this byte: a letter, a digit, `_` or `$` (IEEE 1364).
pub fn continues_word(byte: u8) -> bool
    ensures { result ≡ words.continues_word byte }
{
    byte.is_ascii_alphanumeric() || byte == b'_' || byte == b'$'
}

/// Whether these bytes have the shape of a word: a letter or `_`, then letters, digits, `_` and `$`.
#[tactic(auto, using(crate::proofs::WordLemmas::first_byte))]
pub fn is_word(bytes: &[u8]) -> bool
    ensures { result ≡ words.is_word bytes.now }
{
    match bytes {
        [first, rest @ ..] => begins_word(*first) && all_continue(rest),
        [] => false,
    }
}

// Whether a word may go on with all these bytes.
fn all_continue(bytes: &[u8]) -> bool
    ensures { result ≡ list_all words.continues_word bytes.now }
{
    bytes.iter().all(|byte| continues_word(*byte))
}

/// Whether these bytes are a word that IEEE 1364-2001 reserves for libraries, configurations and pulses.
/// It is a name where a netlist is read, and is written escaped.
pub fn is_later_reserved(bytes: &[u8]) -> bool
    ensures { result ≡ words.is_later_reserved bytes.now }
{
    is_among(&LATER_RESERVED_WORDS, bytes)
}

/// Whether these bytes are a name that needs no backslash where it is read: a word that is not reserved.
pub fn is_simple_name(bytes: &[u8]) -> bool
    ensures { result ≡ words.is_simple_name bytes.now }
{
    is_word(bytes) && !is_reserved(bytes)
}

/// Whether a name is written behind a backslash: it is no simple name, or some standard reserves it.
pub fn needs_escape(bytes: &[u8]) -> bool
    ensures { result ≡ words.needs_escape bytes.now }
{
    !is_simple_name(bytes) || is_later_reserved(bytes)
}

/// Whether one of the words has these bytes.
pub fn is_among(table: &[&str], bytes: &[u8]) -> bool
    ensures { result ≡ list_any (λ word. bytes_eq word.now bytes.now) table.entry.now }
{
    table.iter().any(|word| word.as_bytes() == bytes)
}
