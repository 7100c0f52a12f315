//! The abstract cycle of a design over test vectors: its definitions, and its laws as contracts of functions that do nothing.
#![tactic(auto)]

mod laws;

pub use laws::{cycle_is_above, cycle_is_determined, known_in_runs, one_domain};
