//! The parts of a pattern text as it is read (IEEE 1450-1999): kinds of tokens, and why a text is refused.

use dft_base::Name;

/// What a token of a pattern text is (IEEE 1450-1999, in a subset of its forms).
#[derive(Clone, Copy, Debug, PartialEq, Eq)]
pub enum TokenKind {
    /// A word without quotes: a letter or `_`, then letters, digits and `_`, and perhaps digits in brackets. A keyword where the grammar
    /// takes one, else a name.
    Word,
    /// A name in double quotes.
    Quoted,
    /// A text in double quotes that is no name: it is empty, or has a byte that no name has.
    Text,
    /// A digit and what follows it: between single quotes further digits, elsewhere letters, digits, `_` and points.
    Number,
    OpenBrace,
    CloseBrace,
    Semicolon,
    Colon,
    Equals,
    Plus,
    /// A single quote.
    Quote,
    Backslash,
    /// Another byte that is printed.
    Other,
    /// A byte that no text may have here.
    Illegal,
    /// A comment, an annotation or a text in double quotes that the text does not close.
    Unclosed,
    /// The end of the text.
    End,
}

/// Why no rule of pattern texts takes a token, or which of its meanings is refused.
#[derive(Debug, Drop)]
pub enum Cause {
    /// P1: a byte, or a token that stands where none such may; or the text ends too early.
    Token,
    /// P2: a word, a letter or a waveform that the profile leaves out.
    Unsupported(Name),
    /// P3: a name that was not given.
    Unknown(Name),
    /// P4: more or fewer characters than signals, or one vector more than there may be.
    Count,
    /// P5: a character without a waveform.
    NoWaveform,
    /// P8: times of a table that do not fit.
    Times,
    /// P9: a name, or a waveform, that was given before.
    Taken(Name),
}

/// Why a text is refused, and how many bytes there are from the refused token to the end of the text.
#[derive(Debug, Drop)]
pub struct Fault {
    pub cause: Cause,
    pub left: usize,
}
