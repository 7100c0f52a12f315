//! What became of test cubes, as lines of a report, and how long these lines are.
#![tactic(auto)]

mod cell_sums;
mod laws;
mod outcomes;
mod reports;

pub use cell_sums::variables_of;
pub use laws::cubes_have_lines;
pub use reports::{cube_reports, lines_length};
