/// The most bytes that a cube file may have.
pub const MAX_TEXT: usize = 67_108_864;
