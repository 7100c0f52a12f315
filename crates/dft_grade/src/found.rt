use dft_faults::Fault;

/// Whether patterns find a fault. Vectors and signals are numbered from 0.
#[derive(Clone, Copy, Debug, PartialEq, Eq)]
pub enum Grade {
    /// This signal at the strobe of this vector is the first compared bit that is known to be the opposite of what is printed.
    Detected { vector: u32, signal: u32 },
    /// There is no such bit.
    Undetected,
}

/// A fault and its grade.
#[derive(Clone, Copy, Debug, PartialEq, Eq)]
pub struct Graded {
    pub fault: Fault,
    pub grade: Grade,
}
