//! Laws of certified reports, as contracts of functions that do nothing.

ghost use Rattle.dft_certify.specs.Laws.{CertifiedExactly, CertifiedIsNever};

/// A report is certified exactly where, for each cube that is reported unsolvable, the printed lines are care bits of the cube of that name,
/// each with the variables that its cell sums in column order, no cell twice, and together a certificate. No channel bits load such a
/// cube.
pub fn reports_are_certified()
    ensures exact { CertifiedExactly }
    ensures never { CertifiedIsNever }
{}
