//! A design's nets settled from given values, 512 patterns at a time.
#![tactic(auto)]

mod evaluator;
mod gates;
mod laws;
mod sweeping;
mod wides;

pub use evaluator::Evaluator;
pub use gates::{op_wide, operand};
pub use laws::{settled_for_any_ports, settled_from_sources, trees_complete};
pub use wides::{all, set_value, unknown, value_in, wide_at};
