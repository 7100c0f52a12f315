//! The written form of test cubes that capture once.
#![tactic(auto)]

mod laws;
mod lines;

pub use laws::written_cubes_are_read;
pub use lines::add_cube;
