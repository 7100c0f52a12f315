//! The parts of a netlist text as it is read (IEEE 1364): kinds of tokens, why a text is refused, what a name stands for.

use dft_base::{Name, Range};
use dft_netlist::{Counted, Dir, NetId};

/// What a token of a netlist text is (IEEE 1364, lexical conventions).
#[derive(Clone, Copy, Debug, PartialEq, Eq)]
pub enum TokenKind {
    /// A word that is not reserved where a netlist is read, or a name behind a backslash.
    Name,
    Module,
    Endmodule,
    Input,
    Output,
    Inout,
    Wire,
    Assign,
    And,
    Nand,
    Or,
    Nor,
    Xor,
    Xnor,
    Buf,
    Not,
    /// A reserved word that no netlist of the profile has.
    Reserved,
    /// Decimal digits.
    Number,
    /// A quote and the letter of a base: binary, octal, decimal or hexadecimal.
    Base,
    /// The digits behind a base.
    Digits,
    OpenParen,
    CloseParen,
    Comma,
    Semicolon,
    Point,
    Equals,
    OpenBracket,
    CloseBracket,
    Colon,
    OpenBrace,
    CloseBrace,
    /// A `#`, or a directive that is not passed over.
    Directive,
    /// Another byte that is printed.
    Other,
    /// A byte that no text may have here.
    Illegal,
    /// A comment or an attribute that the text does not close, or a quote at its end.
    Unclosed,
    /// The end of the text.
    End,
}

/// Why no rule of netlist texts takes a token, or which of its meanings is refused.
#[derive(Debug, Drop)]
pub enum Cause {
    /// V1: a byte that no text may have here.
    Byte,
    /// V2: a token that stands where none such may, or a constant that is driven.
    Token,
    /// V3: a word or directive that the profile leaves out.
    Unsupported(Name),
    /// V5: a pin that the cell has not.
    NoPin(Name),
    /// V6: widths, numbers of terminals, bits or sizes that do not fit.
    Misfit,
    /// V7: `inout`.
    Inout,
    /// V9: the text ends too early.
    Ended,
    /// V10: a number that is too large.
    TooLarge,
    /// V11: a name that was not declared.
    Undeclared(Name),
    /// V12: a pin that was connected before.
    JoinedTwice(Name),
    /// N3: a name that is taken.
    Taken(Name),
    /// N4: one more than there may be.
    Full(Counted),
}

/// Why a text is refused, and how many bytes there are from the refused token to the end of the text.
#[derive(Debug, Drop)]
pub struct Fault {
    pub cause: Cause,
    pub left: usize,
}

/// The nets of a name: one, or those of a vector, leftmost first, numbered one after the other.
#[derive(Clone, Copy, Debug, PartialEq, Eq)]
pub struct Shape {
    /// The range of a vector; a scalar has none.
    pub range: Option<Range>,
    /// The number of the first net.
    pub first: NetId,
}

/// What a name of a module stands for.
#[derive(Clone, Copy, Debug, PartialEq, Eq)]
pub enum Meaning {
    /// The port at this place of the header.
    Port(usize),
    /// Nets.
    Nets(Shape),
    /// One bit of a vector, by its printed name.
    Bit,
    Instance,
}

/// How a port was declared.
#[derive(Clone, Copy, Debug, PartialEq, Eq)]
pub struct Declared {
    pub dir: Dir,
    pub shape: Shape,
    /// Whether a `wire` item repeated it.
    pub repeated: bool,
}

/// What of a name is selected.
#[derive(Clone, Copy, Debug, PartialEq, Eq)]
pub enum Select {
    /// All of it.
    Whole,
    /// A bit-select: one bit of a vector.
    Bit(u16),
    /// A part-select: a part of a vector.
    Part(Range),
}

/// Where an expression stands.
#[derive(Clone, Copy, Debug, PartialEq, Eq)]
pub enum Site {
    /// At a pin of a cell, which drives its net or reads it.
    Pin { drives: bool },
    /// At a terminal of a gate, which drives its net or reads it.
    Terminal { drives: bool },
    /// On the left of an assignment.
    Target,
    /// On the right of an assignment.
    Source,
}
