//! What nets do: their roots and clocks, what they mean, settled values, events and runs.
#![tactic(auto)]

mod laws;
mod root;
mod tables;
mod walk_steps;

pub use laws::{clocks_are_exact, settled_is_one, traces_are_exact, worked_instants};
pub use root::{ClockRoot, NetRoot, Root};
pub use tables::{clock_in, find_roots, root_in};
