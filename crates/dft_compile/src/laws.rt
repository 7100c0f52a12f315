//! Laws of compilations, as contracts of functions that do nothing.

ghost use Rattle.dft_compile.specs.Laws.{BytesAreTold};

/// The number of bytes by which patterns are refused is that of their text, though it is told before any pattern is made.
pub fn bytes_are_told()
    ensures { BytesAreTold }
{}
