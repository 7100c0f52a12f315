/// The most cells that may be scanned.
pub const MAX_CELLS: usize = 65_536;

/// The most cycles that a load may have.
pub const MAX_CYCLES: u32 = 4_096;

/// The most variables: channels times cycles.
pub const MAX_VARIABLES: u32 = 16_384;
