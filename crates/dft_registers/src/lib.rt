//! The values of cells, which lie in shift registers: a shift moves where a register begins.
#![tactic(auto)]

mod cells;
mod layout;
mod moves;
mod registers;
mod value;

pub use cells::Cells;
pub use layout::{Layout, Place};
pub use moves::{Move, Way};
pub use value::Value;
