//! Configurations that are made for a netlist: its scan clocks and resets, and what good load equations are.
#![tactic(auto)]

mod choosing;
mod cleaning;
mod compacting;
mod good;
mod laws;
mod opening;
mod roots;
mod scanning;

pub use compacting::{groups_of, masks_of, outputs_of};
pub use good::is_good;
pub use laws::{most_are_scanned, pairs_are_loaded, scanned_are_counted, tested_are_good};
pub use roots::{Roots, roots_of};
pub use scanning::scanned_of;
