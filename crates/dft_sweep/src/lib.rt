//! The settled values of a design, one of whose nets may be stuck, where the values of its ports and flip-flops change.
#![tactic(auto)]

mod field;
mod gates;
mod marks;
mod sweeping;

pub use field::{Field, Sources, Stuck};
pub use marks::{Marks, places};
pub use sweeping::{mark_all, settle};
