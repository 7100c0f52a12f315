//! Laws of generated jobs.
#![tactic(auto)]

mod laws;

pub use laws::{
    configuration_is_read, cubes_are_read, designs_are_accepted, jobs_are_read, netlists_are_read,
    pattern_texts_fit, patterns_fit, reports_fit, scanned_texts_are_short, texts_are_short,
};
