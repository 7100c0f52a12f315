ghost use Rattle.std.specs.Prelude.{◌≡◌};

use std::marker::Model;

/// How many equations a system kept at a moment. A clause sees the number.
#[derive(Clone, Copy, Debug)]
pub struct Mark {
    kept: usize,
}

impl Model for Mark {
    ghost use Rattle.std.specs.Prelude.{ℕ};

    ghost Value = { ℕ };

    ghost view = { λ m. m.kept };

    ghost inverse = { λ n. record { kept = n } };
}

impl Mark {
    // The mark of so many equations.
    pub(crate) fn at(kept: usize) -> Mark
        ensures { result ≡ kept }
    {
        Mark { kept }
    }

    /// How many equations were kept.
    pub fn number(&self) -> usize
        ensures { result ≡ self.now }
    {
        self.kept
    }
}
