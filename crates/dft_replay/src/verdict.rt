/// What a compared bit does whose value is not known.
#[derive(Clone, Copy, Debug, PartialEq, Eq)]
pub enum Unknowns {
    /// It stops the replay.
    Stop,
    /// It is passed over.
    Skip,
}

/// What patterns come to on a design. Vectors and signals are numbered from 0.
#[derive(Clone, Copy, Debug, PartialEq, Eq)]
pub enum Verdict {
    /// Every compared bit is known and as printed; so many bits are compared.
    Pass { compared: u64 },
    /// The first compared bit that is not known to be as printed is known to be the opposite.
    Mismatch { vector: u32, signal: u32 },
    /// The first compared bit that is not known to be as printed is not known.
    Undetermined { vector: u32, signal: u32 },
}
