//! What the scanned flip-flops of a design capture where one clock pulses once, from any values before it: definitions, and laws as
//! contracts of functions that do nothing.
#![tactic(auto)]

mod laws;

pub use laws::{capture_is_above, capture_is_one};
