//! Laws of loads: which cubes a load brings to the cells of a scanned netlist of style Edt, and that no load brings the others.
#![tactic(auto)]

mod laws;

pub use laws::{cubes_load, loads_bring, unloads_run};
