ghost use Rattle.std.specs.Prelude.{◌≡◌, alloc_error};
ghost use Rattle.dft_report.specs.declared.error.ReportError.TheVariants.{Memory};

use std::alloc::{AllocError, AllocFailed};
use thiserror::Error;

/// Why a report is not written.
#[derive(Debug, Error, Drop)]
pub enum ReportError {
    /// The text would have this many bytes, which is more than its limit.
    #[error("the report is too long")]
    K6 { first: i64 },
    #[error("out of memory")]
    Memory(AllocError),
}

impl From<AllocError> for ReportError {
    ghost from_gives = { λ error e. e ≡ Memory error };

    fn from(error: AllocError) -> ReportError {
        ReportError::Memory(error)
    }
}

impl<T: Drop> From<AllocFailed<T>> for ReportError {
    ghost from_gives = { λ error e. e ≡ Memory alloc_error };

    fn from(_error: AllocFailed<T>) -> ReportError {
        ReportError::Memory(AllocError)
    }
}
