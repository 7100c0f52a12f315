//! What the rules of pattern texts mean: which waveforms there are, in one table, and how their times stand, by pairs (IEEE 1450-1999, a part).
#![tactic(auto)]

mod laws;

pub use laws::{acts_by_table, begun_by_table, times_by_pairs};
