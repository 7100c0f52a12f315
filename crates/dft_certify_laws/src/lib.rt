//! Laws of certified reports in runs, and of the reports that compilations write.
#![tactic(auto)]

mod laws;

pub use laws::{certified_in_runs, compiled_certifies, compiled_report_is_read, written_certifies};
