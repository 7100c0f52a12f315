//! The verdict of patterns on a design, and what it says of every run.
#![tactic(auto)]

mod acts;
mod comparing;
mod error;
mod examples;
mod laws;
mod nets;
mod playing;
mod replayer;
mod verdict;

pub use error::ReplayError;
pub use examples::{worked_edges, worked_examples};
pub use laws::{
    every_choice_runs, mismatch_is_sound, pass_is_sound, verdict_is_one, verdict_is_plain,
};
pub use nets::nets_of;
pub use replayer::{clocks, replay, replay_past};
pub use verdict::{Unknowns, Verdict};
