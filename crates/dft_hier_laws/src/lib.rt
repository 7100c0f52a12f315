//! What flat designs do: what their modules do side by side, joined at their ports.
#![tactic(auto)]

mod laws;

pub use laws::{flat_designs_are_joined, flat_logic_is_joined, flat_runs_are_joined};
