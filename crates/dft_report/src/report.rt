use dft_base::{Listed, Name, Rule};

/// The cycles of a load, and its variables: the bits of all channels in these cycles.
#[derive(Clone, Copy, Debug, PartialEq, Eq)]
pub struct Load {
    pub cycles: u32,
    pub variables: u32,
}

/// What the report counts.
#[derive(Clone, Copy, Debug, PartialEq, Eq)]
pub struct Header {
    /// The scanned cells.
    pub cells: u32,
    pub chains: u32,
    /// Where patterns were made.
    pub load: Option<Load>,
}

/// Where a scanned flip-flop stands.
#[derive(Debug, Drop)]
pub struct ScannedLine {
    pub name: Name,
    /// The clock port.
    pub domain: Name,
    pub chain: u32,
    /// From the scan input on, from 0.
    pub place: u32,
    /// Whether it takes its bits at the falls of its clock, and not at the rises.
    pub falling: bool,
}

/// Why a flip-flop is not scanned.
#[derive(Debug, Drop)]
pub struct UnscannedLine {
    pub name: Name,
    pub rule: Rule,
}

/// The bit of a channel in a cycle of a load.
#[derive(Clone, Copy, Debug, PartialEq, Eq)]
pub struct Variable {
    pub channel: u32,
    pub cycle: u32,
}

/// A care bit of a cube, and the variables whose sum the cell takes.
#[derive(Debug, Drop)]
pub struct SumLine {
    /// The cell.
    pub name: Name,
    pub bit: bool,
    pub variables: Listed<Variable>,
}

/// What became of a cube.
#[derive(Debug, Drop)]
pub enum CubeLine {
    /// It is loaded in the pattern of this number.
    Encoded(u32),
    /// No channel input can load it, as these sums show.
    Unsolvable(Listed<SumLine>),
    /// It names this flip-flop, which is not scanned.
    Skipped(Name),
}

/// What became of the cube of this name.
#[derive(Debug)]
pub struct CubeReport {
    pub name: Name,
    pub outcome: CubeLine,
}

// One call for all fields, so that the proof of what owns a value stays short.
impl Drop for CubeReport {
    fn drop(self) {
        let CubeReport {
            name: _,
            outcome: _,
        } = self;
    }
}

/// A report.
#[derive(Debug)]
pub struct Report {
    pub header: Header,
    /// The lengths of the chains.
    pub chains: Listed<u32>,
    /// By chain and place.
    pub scanned: Listed<ScannedLine>,
    /// By instance order.
    pub unscanned: Listed<UnscannedLine>,
    /// By the order of the cube file.
    pub cubes: Listed<CubeReport>,
}

// One call for all fields, so that the proof of what owns a value stays short.
impl Drop for Report {
    fn drop(self) {
        let Report {
            header: _,
            chains: _,
            scanned: _,
            unscanned: _,
            cubes: _,
        } = self;
    }
}
