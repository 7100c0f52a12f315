//! Values that cells can have.

ghost use Rattle.std.specs.Prelude.{◌≡◌};

use dft_base::Tri;
use dft_lanes::Wide;

/// A value of a cell, which can be one that nobody knows.
pub trait Value: Copy {
    /// The one that nobody knows.
    ghost unknown_value: { Self };

    /// The one that nobody knows.
    fn unknown() -> Self
        ensures { result ≡ unknown_value };

    /// A copy is the value.
    ghost copies: { (x y : Self) → Self.is_clone x y → y ≡ x };
}

impl Value for Tri {
    ghost use Rattle.dft_base.specs.declared.tri.Tri.TheVariants.{Unknown};
    ghost use Rattle.std.proofs.Common.{rules};

    ghost unknown_value = { Unknown };

    ghost copies = { Prim.search rules };

    fn unknown() -> Tri {
        Tri::Unknown
    }
}

impl Value for Wide {
    ghost use Rattle.dft_registers.specs.Values.{unknown_wide};
    ghost use Rattle.std.proofs.Common.{rules};

    ghost unknown_value = { unknown_wide };

    ghost copies = { Prim.search rules };

    fn unknown() -> Wide {
        Wide {
            can_zero: [u64::MAX; 8],
            can_one: [u64::MAX; 8],
        }
    }
}
