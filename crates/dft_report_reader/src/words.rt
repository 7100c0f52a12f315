//! Lines, and their words.

ghost use Rattle.std.specs.Prelude.{◌≡◌, ◌+◌, ◌<◌, ◌≤◌, true, IfOk, length, map};
ghost use Rattle.dft_base.specs.Name.{IsName};
ghost use Rattle.dft_report_reader.specs.Words as spec;

use dft_word_lines::is_printed_word;
use std::alloc::{AllocError, Global};

// The lines of a text; behind a last byte 10 there is one more, which is empty.
pub(crate) fn lines_of(alloc: Global, text: &[u8]) -> Result<Vec<&[u8]>, AllocError>
    ensures lines { IfOk result (λ lines. map (λ line. line.now) lines.items ≡ spec.lines_of text.now) }
    ensures some { IfOk result (λ lines. 0 < length lines.items) }
    ensures few { IfOk result (λ lines. length lines.items ≤ length text.now + 1) }
{
    text.split(|byte| *byte == b'\n').collect(alloc)
}

// The words of a line, between single blanks.
pub(crate) fn words_of(alloc: Global, line: &[u8]) -> Result<Vec<&[u8]>, AllocError>
    ensures { IfOk result (λ words. map (λ word. word.now) words.items ≡ spec.words_of line.now) }
{
    line.split(|byte| *byte == b' ').collect(alloc)
}

// Whether a word may be a name: some bytes, each of 33 to 126.
pub(crate) fn is_name(word: &[u8]) -> bool
    ensures is { result ≡ spec.is_name word.now }
    ensures name { result ≡ true → IsName word.now }
{
    0 < word.len() && is_printed_word(word)
}
