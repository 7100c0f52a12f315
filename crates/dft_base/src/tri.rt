ghost use Rattle.std.specs.Prelude.{◌≡◌};
ghost use Rattle.dft_base.specs.Tri as spec;

/// A three-valued bit: 0, 1, or a bit that nobody knows (IEEE 1364 writes it `x`).
#[derive(Clone, Copy, Debug, PartialEq, Eq)]
pub enum Tri {
    Zero,
    One,
    Unknown,
}

impl Tri {
    /// The value that both share, and otherwise `Unknown`.
    pub fn join(self, other: Tri) -> Tri
        ensures { result ≡ spec.join self other }
    {
        match (self, other) {
            (Tri::Zero, Tri::Zero) => Tri::Zero,
            (Tri::One, Tri::One) => Tri::One,
            _ => Tri::Unknown,
        }
    }
}
