//! The generated job: a netlist, a configuration and cubes of any size, from a seed.
#![tactic(auto)]

mod configuration;
mod cubes;
mod job;
mod netlist;
mod numbers;

pub use job::{Job, generate, is_size};
