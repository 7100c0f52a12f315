//! Texts of lines of words: where a line ends, and where its words stand.
#![tactic(auto)]

mod words;

pub use words::{Span, are_printed, is_printed_word, line_len, words_of};
