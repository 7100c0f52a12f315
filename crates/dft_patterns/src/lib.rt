//! Test patterns as values: acts, signals, vectors and sets of them, and which sets are well formed.
#![tactic(auto)]

mod act;
mod notes;
mod pattern_set;
mod shapes;
mod signal;
mod steadiness;
mod times;

pub use act::{Act, Acts};
pub use notes::{Note, NoteKind};
pub use pattern_set::PatternSet;
pub use shapes::{Drawing, Event, act_drawn, act_of_events, begins_shape, extended};
pub use signal::{StilSignal, groups, input_count};
pub use steadiness::{Unsteady, first_unsteady};
pub use times::Times;
