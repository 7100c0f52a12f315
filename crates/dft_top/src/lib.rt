//! The tool's commands: from the words of a command line and named files to a status, a line and saved files.
#![tactic(auto)]

mod certifying;
mod command;
mod compiling;
mod configuring;
mod ending;
mod generating;
mod given;
mod grading;
mod laws;
mod limits;
mod loading;
mod reading;
mod replaying;
mod saving;
mod scanning;
mod seeking;
mod telling;

pub use command::run;
pub use dft_answers::Status;
pub use ending::{end, end_of_words, status_of_run, told_run};
pub use laws::{
    outcome_is_one, passing_files_are_answered, placements_have_patterns, saved_files_are_good,
};
pub use limits::{
    MAX_CONFIG_BYTES, MAX_CUBE_BYTES, MAX_LIBRARY_BYTES, MAX_NETLIST_BYTES, MAX_PATTERN_BYTES,
    MAX_REPORT_BYTES,
};
