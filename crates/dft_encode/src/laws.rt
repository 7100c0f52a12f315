//! Laws of compiled patterns, as contracts of functions that do nothing.

ghost use Rattle.dft_encode.specs.Laws.{VectorsHaveWidth};

/// All vectors of compiled patterns have one width, and their number is that of the patterns and the cycles of a load.
pub fn vectors_have_width()
    ensures { VectorsHaveWidth }
{}
