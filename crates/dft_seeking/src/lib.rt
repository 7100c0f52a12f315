//! Test cubes for all faults of a design, as a cube file and a report.
#![tactic(auto)]

mod counting;
mod error;
mod gathering;
mod kept;
mod laws;
mod limits;
mod lines;
mod seeking;

pub use counting::SeekCounts;
pub use error::SeekError;
pub use laws::{expected_is_captured, saved_cubes_are_read, told_is_one, told_is_true};
pub use limits::MAX_TEXT;
pub use seeking::{Sought, seek};
