//! Laws of netlist texts.
#![tactic(auto)]

mod laws;

pub use laws::concatenations_nest;
