/// The place of a scanned cell.
#[derive(Clone, Copy, Debug, PartialEq, Eq)]
pub struct CellPlace {
    pub chain: u16,
    /// From the scan input on, from 0.
    pub place: u16,
}

/// The clock of a scanned cell.
#[derive(Clone, Copy, Debug, PartialEq, Eq)]
pub struct CellClock {
    /// The domain, by its place in the configuration.
    pub domain: u8,
    /// Whether the cell takes its bits at the falls of the domain's port, and not at its rises.
    pub falling: bool,
}

/// The place of a lock-up between two cells of one edge and different domains.
#[derive(Clone, Copy, Debug, PartialEq, Eq)]
pub struct LockupPlace {
    pub chain: u16,
    /// The place of the cell before it.
    pub after: u16,
    /// The domain of that cell, whose port clocks the lock-up, by its place in the configuration.
    pub domain: u8,
    /// Whether both cells are falling: then it is a wire while the port is 1, and else while it is 0.
    pub high: bool,
}
