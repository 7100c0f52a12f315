//! What patterns are found by.

use dft_merge::{Closed, Loads};
use std::alloc::Global;

// The planned design with its load equations, the chains that are always masked, and the merged cubes.
#[derive(Clone, Copy)]
pub(crate) struct Finder<'a> {
    pub(crate) alloc: Global,
    pub(crate) loads: &'a Loads<'a>,
    pub(crate) always: &'a [bool],
    pub(crate) merger: &'a Closed<'a>,
}
