//! Cells: their kinds, what a pin is for, and what each kind's outputs are.
#![tactic(auto)]

mod cell;
mod gates;
mod kind;
mod laws;
mod library;
mod standard;

pub use cell::{Cell, CellId, Pin, Pins};
pub use gates::{and, bit_of, mux, not, or, tri_of, xor};
pub use kind::{DFF, Flop, Forcing, Gate, Kind, Role};
pub use laws::{completions_are_above, next_values_are_above};
pub use library::{Library, MAX_CELLS};
