//! The report of scan insertion: what is scanned and where, and what became of each cube.
#![tactic(auto)]

mod cubes;
mod error;
mod limits;
mod numbers;
mod report;
mod writer;

pub use cubes::cube_length;
pub use error::ReportError;
pub use limits::MAX_BYTES;
pub use report::{
    CubeLine, CubeReport, Header, Load, Report, ScannedLine, SumLine, UnscannedLine, Variable,
};
pub use writer::{length_before_cubes, write};
