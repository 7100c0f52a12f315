//! Laws of compilations: what a compiled pattern set does in every run of the scanned netlist, that its replay passes, that each placed cube is
//! loaded and captured, and that its text is read back.
#![tactic(auto)]

mod laws;

pub use laws::{
    compilations_hold, cubes_are_brought, patterns_stand, reports_are_true, rows_play,
    written_formed, written_pass,
};
