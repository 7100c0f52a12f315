/// What is counted of a compilation.
#[derive(Clone, Copy, Debug, PartialEq, Eq)]
pub struct Counts {
    /// The flip-flops that are scanned.
    pub cells: u32,
    pub chains: u32,
    /// Of a load.
    pub cycles: u32,
    pub patterns: u32,
    /// The cubes that a pattern loads.
    pub encoded: u32,
    /// The cubes that no channel bits load.
    pub unsolvable: u32,
    /// The cubes that name a flip-flop that is not scanned.
    pub skipped: u32,
    /// The chains that are masked, each once for each pattern.
    pub masked: u64,
    pub vectors: u64,
}

/// The texts of a compilation, and its counts.
#[derive(Debug, Drop)]
pub struct CompileTexts {
    /// The scanned netlist (IEEE 1364, structural part).
    pub netlist: Vec<u8>,
    /// The patterns (STIL, IEEE 1450-1999, a part).
    pub patterns: Vec<u8>,
    pub report: Vec<u8>,
    pub counts: Counts,
}
