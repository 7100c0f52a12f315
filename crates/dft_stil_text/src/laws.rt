//! Laws about pattern texts, as contracts of functions that do nothing.

ghost use Rattle.dft_stil_text.specs.Laws.{IsReadWellFormed, IsReadWithin, IsRefusedBeyond, StandsForOne};

/// The patterns that a text stands for are well formed.
pub fn well_formed()
    ensures { IsReadWellFormed }
{}

/// A text stands for one set of patterns.
pub fn one_reading()
    ensures { StandsForOne }
{}

/// A limit on the number of vectors refuses those texts that have more, and changes no other answer.
pub fn read_within()
    ensures { IsReadWithin }
{}

/// A text that stands for more vectors than a reader takes is refused for their number, and for nothing else.
pub fn refused_beyond()
    ensures { IsRefusedBeyond }
{}
