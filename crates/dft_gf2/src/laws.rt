ghost use Rattle.dft_gf2.specs.Laws.{CertifiedIsUnsolvable, ChosenIsOne, StatedIsOne, StatedIsUnsolvable, UnsolvableIsStated};

/// Equations with a certificate have no solution.
pub fn certified_is_unsolvable()
    ensures { CertifiedIsUnsolvable }
{}

/// Equations with a stated certificate have no solution.
pub fn stated_is_unsolvable()
    ensures { StatedIsUnsolvable }
{}

/// Equations without solution have a stated certificate.
pub fn unsolvable_is_stated()
    ensures { UnsolvableIsStated }
{}

/// A list of equations has one stated certificate at most.
pub fn stated_is_one()
    ensures { StatedIsOne }
{}

/// A fill chooses one list of bits at most.
pub fn chosen_is_one()
    ensures { ChosenIsOne }
{}
