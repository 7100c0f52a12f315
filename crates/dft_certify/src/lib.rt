//! Certificates of reports: whether the sums that a report prints for unsolvable cubes show that no channel bits load them.
#![tactic(auto)]

mod cell_set;
mod certifying;
mod error;
mod laws;
mod naming;
mod parity;
mod rows;
mod sums;

pub use certifying::certify;
pub use error::CertifyError;
pub use laws::reports_are_certified;
