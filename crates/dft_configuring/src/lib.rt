//! Whole configurations, made for a netlist and a few numbers.
#![tactic(auto)]

mod checking;
mod configuring;
mod counting;
mod error;
mod lengths;
mod making;
mod naming;
mod reading;
mod rings;
mod rooting;
mod searching;
mod wanted;

pub use configuring::{Configured, configure};
pub use counting::MadeCounts;
pub use error::{ConfigureError, Limited};
pub use wanted::Wanted;
