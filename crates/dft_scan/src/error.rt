ghost use Rattle.std.specs.Prelude.{◌≡◌, alloc_error};
ghost use Rattle.dft_scan.specs.Errors.{of_insert, of_planning, of_report};
ghost use Rattle.dft_scan.specs.declared.error.ScanError.TheVariants.{Memory};

use dft_insert::InsertError;
use dft_report::ReportError;
use dft_rules::RuleError;
use dft_stitch::{PrepareError, StitchError};
use std::alloc::{AllocError, AllocFailed};
use thiserror::Error;

/// Why a design is not scanned.
#[derive(Debug, Error, Drop)]
pub enum ScanError {
    /// The scan rules refuse it.
    #[error("the scan rules refuse the design")]
    Rules(RuleError),
    /// No chains are planned for it.
    #[error("no chains can be planned")]
    Stitch(StitchError),
    /// Its chains cannot be inserted.
    #[error("the chains cannot be inserted")]
    Insert(InsertError),
    /// Its report is not written.
    #[error("the report cannot be written")]
    Report(ReportError),
    #[error("out of memory")]
    Memory(AllocError),
}

impl From<AllocError> for ScanError {
    ghost from_gives = { λ error e. e ≡ Memory error };

    fn from(error: AllocError) -> ScanError {
        ScanError::Memory(error)
    }
}

impl<T: Drop> From<AllocFailed<T>> for ScanError {
    ghost from_gives = { λ error e. e ≡ Memory alloc_error };

    fn from(_error: AllocFailed<T>) -> ScanError {
        ScanError::Memory(AllocError)
    }
}

impl From<PrepareError> for ScanError {
    ghost from_gives = { λ error e. e ≡ of_planning error };

    fn from(error: PrepareError) -> ScanError {
        match error {
            PrepareError::Rules(error) => ScanError::Rules(error),
            PrepareError::Stitch(error) => ScanError::Stitch(error),
            PrepareError::Memory(error) => ScanError::Memory(error),
        }
    }
}

impl From<InsertError> for ScanError {
    ghost from_gives = { λ error e. e ≡ of_insert error };

    fn from(error: InsertError) -> ScanError {
        match error {
            InsertError::Memory(error) => ScanError::Memory(error),
            error => ScanError::Insert(error),
        }
    }
}

impl From<ReportError> for ScanError {
    ghost from_gives = { λ error e. e ≡ of_report error };

    fn from(error: ReportError) -> ScanError {
        match error {
            ReportError::Memory(error) => ScanError::Memory(error),
            error => ScanError::Report(error),
        }
    }
}
