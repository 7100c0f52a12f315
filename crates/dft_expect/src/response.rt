//! What a pattern captures.

use dft_base::{Listed, Tri};

/// The values that the cells have after a capture, chain by chain from the one nearest the scan input on, and those that the
/// bits of the output ports have in each of its vectors in turn, each time in order.
#[derive(Debug, Drop)]
pub struct Response {
    pub cells: Listed<Tri>,
    pub outputs: Listed<Tri>,
}
