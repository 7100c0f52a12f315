//! The scan rules: which flip-flops of a design are scanned, in which domain and at which edge, and why a design is
//! refused.
#![tactic(auto)]

mod cells;
mod checks;
mod clocks;
mod error;
mod findings;
mod judged;
mod judging;
mod laws;
mod verdicts;

pub use cells::{has_scan_cell, may_be_scanned};
pub use clocks::data_nets;
pub use dft_base::Rule;
pub use error::RuleError;
pub use judged::Judged;
pub use judging::judge;
pub use laws::{flip_flops_are_judged, scanned_are_clocked};
pub use verdicts::Verdicts;
