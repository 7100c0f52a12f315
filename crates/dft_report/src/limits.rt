/// The most bytes that the text of a report may have.
pub const MAX_BYTES: usize = 268_435_456;
