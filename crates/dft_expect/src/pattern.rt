//! A pattern that is loaded.

use dft_cubes::Merged;

/// What a pattern sets, and the bits that its load brings to the cells, chain by chain.
#[derive(Clone, Copy)]
pub struct Pattern<'a> {
    pub merged: &'a Merged,
    pub loaded: &'a [bool],
}
