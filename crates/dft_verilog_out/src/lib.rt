//! Writes a netlist as a text (IEEE 1364, structural part).
#![tactic(auto)]

mod declarations;
mod instances;
mod joined;
mod laws;
mod names;
mod nets;
mod writer;

pub use joined::gates_are_joined;
pub use laws::{texts_are_joined, written_stands};
pub use writer::write;
