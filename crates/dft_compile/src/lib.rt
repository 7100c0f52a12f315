//! The compilation of a design and its test cubes: the scanned netlist behind compression hardware, the patterns and the report.
#![tactic(auto)]

mod compiling;
mod counting;
mod error;
mod laws;
mod lengths;
mod prepared;
mod reporting;
mod texts;
mod work;
mod writing;

pub use compiling::compile;
pub use error::CompileError;
pub use laws::bytes_are_told;
pub use prepared::{Prepared, prepare};
pub use texts::{CompileTexts, Counts};
