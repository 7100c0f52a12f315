//! Single stuck-at faults, 512 at a time.
#![tactic(auto)]

mod cells;
mod clamps;
mod comparing;
mod controls;
mod forces;
mod gathering;
mod grading;
mod grouping;
mod idling;
mod laws;
mod marking;
mod moves;
mod plans;
mod pulsing;
mod steady;
mod sweeping;
mod telling;
mod vectors;

pub use cells::{act, take};
pub use clamps::{Clamp, stick};
pub use comparing::compare;
pub use controls::control;
pub use grading::grades;
pub use grouping::grade_group;
pub use laws::{lane_is_faulty, lanes_are_exact};
pub use marking::Steer;
pub use plans::Plan;
pub use pulsing::{Play, pulse, settle_plan};
pub use steady::keep_steady;
pub use sweeping::{Setting, settle};
pub use telling::tell_grades;
pub use vectors::{flag_pulses, set_inputs};
