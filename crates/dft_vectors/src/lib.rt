//! The vectors of compiled patterns: set-up, loads and captures in the signals of a scanned netlist.
#![tactic(auto)]

mod acts;
mod added;
mod bits;
mod layout;
mod listing;
mod loads;
mod notes;
mod own;
mod pattern;
mod signals;

pub use listing::VectorList;
pub use notes::{captures_in, notes_of};
pub use pattern::Pattern;
pub use signals::signals_of;
