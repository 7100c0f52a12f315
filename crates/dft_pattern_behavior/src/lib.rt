//! Laws of compiled patterns: what their vectors do to a scanned netlist of style Edt, and what it shows while one pattern after another is
//! loaded, captures and is unloaded.
#![tactic(auto)]

mod laws;

pub use laws::{captures_stand_over, patterns_show, vectors_play};
