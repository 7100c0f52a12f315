//! Laws of made configurations: what their loads bring to the netlist that is made with them, and what their rings are.
#![tactic(auto)]

mod examples;
mod laws;

pub use examples::worked_ring;
pub use laws::{few_are_loaded, made_is_taken, made_loads, made_scans, moves_are_sums};
