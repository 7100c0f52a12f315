/// What is counted of a scan.
#[derive(Clone, Copy, Debug, PartialEq, Eq)]
pub struct Counts {
    /// The flip-flops that are scanned.
    pub cells: u32,
    /// The flip-flops that are judged and not scanned.
    pub unscanned: u32,
    pub chains: u32,
    /// The lock-ups between domains.
    pub lockups: u32,
}

/// The texts of a scan, and its counts.
#[derive(Debug, Drop)]
pub struct ScanTexts {
    /// The scanned netlist (IEEE 1364, structural part).
    pub netlist: Vec<u8>,
    pub report: Vec<u8>,
    pub counts: Counts,
}
