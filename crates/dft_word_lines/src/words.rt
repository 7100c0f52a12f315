//! Lines and their words.

ghost use Rattle.std.specs.Prelude.{◌≡◌, ◌≤◌, ◌==◌, not, length, map, OnOk};
ghost use Rattle.std.specs.List.{prefix_len};
ghost use Rattle.dft_word_lines.specs.Lines as spec;
ghost use Rattle.dft_word_lines.specs.Lines.{AreWithin, IsNextWord, cut};

use dft_base::is_printed;
use std::alloc::AllocError;

/// Where a word stands in its line: its first byte, and the byte behind its last.
#[derive(Clone, Copy, Debug, PartialEq, Eq)]
pub struct Span {
    pub start: usize,
    pub end: usize,
}

impl Span {
    /// The bytes of a line where this word stands.
    pub fn of<'a>(&self, line: &'a [u8]) -> &'a [u8]
        requires begun { self.now.start ≤ self.now.end }
        requires within { self.now.end ≤ length line.now }
        ensures { result.now ≡ cut line.now self.now }
    {
        &line[self.start..self.end]
    }
}

/// How many bytes the first line of a text has, without the byte 10 that ends it.
pub fn line_len(text: &[u8]) -> usize
    ensures value { result ≡ prefix_len (λ b. not (b == 10)) text.now }
    ensures within { result ≤ length text.now }
{
    text.iter().take_while(|byte| **byte != b'\n').count()
}

// Whether a byte stands between words: a tab, a carriage return or a space.
fn is_gap(byte: u8) -> bool
    ensures { result ≡ spec.is_gap byte }
{
    byte == b'\t' || byte == b'\r' || byte == b' '
}

// How many bytes stand before the next word.
fn gap_len(text: &[u8]) -> usize
    ensures value { result ≡ prefix_len spec.is_gap text.now }
    ensures within { result ≤ length text.now }
{
    text.iter().take_while(|byte| is_gap(**byte)).count()
}

// How many bytes stand before the next gap.
fn word_len(text: &[u8]) -> usize
    ensures value { result ≡ prefix_len (λ b. not (spec.is_gap b)) text.now }
    ensures within { result ≤ length text.now }
{
    text.iter().take_while(|byte| !is_gap(**byte)).count()
}

// The first word from a place of a line on that is not within a word; none where the line ends or a comment begins.
fn next_word(line: &[u8], at: usize) -> Option<Span>
    requires { at ≤ length line.now }
    ensures { IsNextWord line.now at result }
{
    let start = at + gap_len(&line[at..]);
    if start == line.len() || line[start] == b'#' {
        return None;
    }
    let end = start + word_len(&line[start..]);
    Some(Span { start, end })
}

/// Where the words of a line stand: they are separated by tabs, returns and spaces, and `#` at the beginning of a word
/// begins a comment to the line's end.
pub fn words_of(line: &[u8], words: &mut Vec<Span>) -> Result<(), AllocError>
    ensures words { OnOk result (map (cut line.now) words.new.items ≡ spec.words_of line.now) }
    ensures within { OnOk result (AreWithin line.now words.new.items) }
{
    words.clear();
    let mut at = 0;
    while let Some(word) = next_word(line, at) {
        words.push(word)?;
        at = word.end;
    }
    Ok(())
}

/// Whether all bytes of a word are printed: 33 to 126.
pub fn is_printed_word(word: &[u8]) -> bool
    ensures { result ≡ spec.is_printed_word word.now }
{
    word.iter().all(|byte| is_printed(*byte))
}

/// Whether all bytes of these words of a line are printed: 33 to 126.
pub fn are_printed(line: &[u8], words: &[Span]) -> bool
    requires { AreWithin line.now words.now }
    ensures { result ≡ spec.are_printed (map (cut line.now) words.now) }
{
    for word in words {
        if !is_printed_word(word.of(line)) {
            return false;
        }
    }
    true
}
