use dft_cubes::Merged;
use dft_expect::Response;

/// What is known of a pattern before its vectors are made.
#[derive(Clone, Copy)]
pub struct Pattern<'a> {
    /// The clocks that capture, and the bits of ports in the capture.
    pub merged: &'a Merged,
    /// The bits of the channels in its load, one a column, packed into words.
    pub bits: &'a [u64],
    /// Which chains are masked while it is unloaded.
    pub masks: &'a [bool],
    /// What it captures.
    pub response: &'a Response,
}
