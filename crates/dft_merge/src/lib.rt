//! Test cubes put together into patterns, and the channel bits that load each pattern.
#![tactic(auto)]

mod adding;
mod closed;
mod fills;
mod joining;
mod laws;
mod loads;
mod merger;
mod opening;
mod placed;
mod slot;
mod tables;

pub use closed::Closed;
pub use fills::fill_bits;
pub use laws::{
    cubes_stay, patterns_are_sound, placement_is_one, plans_stand_apart, unsolvable_is_exact,
};
pub use loads::Loads;
pub use merger::Merger;
pub use placed::Placed;
