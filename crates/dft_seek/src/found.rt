use dft_cubes::Cube;

/// What a search tells of a fault.
#[derive(Debug, Drop)]
pub enum Found {
    /// A cube each of whose completions detects the fault.
    Cube(Cube),
    /// No assignment of bits to all scanned cells and drivable ports detects the fault.
    NotTestable,
    /// The search met more dead nodes than its limit.
    Aborted,
}
