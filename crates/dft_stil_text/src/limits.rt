/// The most vectors that a reader takes of a pattern text. A text stands for its vectors whatever their number.
pub const MAX_VECTORS: usize = 4_194_304;
