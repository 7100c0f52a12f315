//! Which single stuck-at faults of a design patterns find.
#![tactic(auto)]

mod found;
mod grading;
mod laws;

pub use found::{Grade, Graded};
pub use grading::{faults, grade, grades};
pub use laws::{detected_is_sound, grade_is_one, grade_is_plain, grades_are_one};
