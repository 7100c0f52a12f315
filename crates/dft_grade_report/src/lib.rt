//! The report of a grading: each fault with its grade, and how many are detected.
#![tactic(auto)]

mod counting;
mod lines;
mod numbers;
mod writer;

pub use counting::{Counts, counts_of};
pub use writer::write;
