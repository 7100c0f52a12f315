//! Laws of runs over any design: they exist, wider sets of ports leave what they show, and what is known of a vector
//! passes on to the abstract cycle and to every run.
#![tactic(auto)]

mod laws;

pub use laws::{known_passes, ports_widen, runs_exist};
