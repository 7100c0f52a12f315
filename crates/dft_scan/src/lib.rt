//! The scan of a design: the text of its scanned netlist, its report, and what is counted.
#![tactic(auto)]

mod counting;
mod error;
mod laws;
mod lines;
mod reporting;
mod scanning;
mod texts;

pub use counting::counts_of;
pub use error::ScanError;
pub use laws::flip_flops_have_lines;
pub use reporting::report_of;
pub use scanning::scan;
pub use texts::{Counts, ScanTexts};
