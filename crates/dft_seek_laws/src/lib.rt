//! What test cubes do in runs: a cube that a search tells detects its fault in every run of the design with the fault.
#![tactic(auto)]

mod laws;

pub use laws::{captures_stand_above, cubes_apply, cubes_detect_in_runs};
