/// The most cubes that a file may have.
pub const MAX_CUBES: usize = 65_536;
