//! The design that a netlist text stands for: its modules, read and made one (IEEE 1364, structural part).
#![tactic(auto)]

mod error;
mod laws;
mod reading;

pub use error::DesignError;
pub use laws::{designs_can_be_written, texts_have_one_end};
pub use reading::read;
