ghost use Rattle.std.specs.Prelude.{◌≡◌, alloc_error};
ghost use Rattle.dft_compile.specs.Errors.{of_insert, of_patterns, of_planning, of_report, of_rules, of_stitch};
ghost use Rattle.dft_compile.specs.declared.error.CompileError.TheVariants.{Memory};

use dft_insert::InsertError;
use dft_report::ReportError;
use dft_rules::RuleError;
use dft_stil_out::StilError;
use dft_stitch::{PrepareError, StitchError};
use std::alloc::{AllocError, AllocFailed};
use thiserror::Error;

/// Why a design is not compiled.
#[derive(Debug, Error, Drop)]
pub enum CompileError {
    /// The scan rules refuse it.
    #[error("the scan rules refuse the design")]
    Rules(RuleError),
    /// No chains are planned for it.
    #[error("no chains can be planned")]
    Stitch(StitchError),
    /// Its chains cannot be inserted.
    #[error("the chains cannot be inserted")]
    Insert(InsertError),
    /// Its patterns are not written.
    #[error("the patterns cannot be written")]
    Patterns(StilError),
    /// Its report is not written.
    #[error("the report cannot be written")]
    Report(ReportError),
    #[error("out of memory")]
    Memory(AllocError),
}

impl From<AllocError> for CompileError {
    ghost from_gives = { λ error e. e ≡ Memory error };

    fn from(error: AllocError) -> CompileError {
        CompileError::Memory(error)
    }
}

impl<T: Drop> From<AllocFailed<T>> for CompileError {
    ghost from_gives = { λ error e. e ≡ Memory alloc_error };

    fn from(_error: AllocFailed<T>) -> CompileError {
        CompileError::Memory(AllocError)
    }
}

impl From<RuleError> for CompileError {
    ghost from_gives = { λ error e. e ≡ of_rules error };

    fn from(error: RuleError) -> CompileError {
        match error {
            RuleError::Memory(error) => CompileError::Memory(error),
            error => CompileError::Rules(error),
        }
    }
}

impl From<StitchError> for CompileError {
    ghost from_gives = { λ error e. e ≡ of_stitch error };

    fn from(error: StitchError) -> CompileError {
        match error {
            StitchError::Memory(error) => CompileError::Memory(error),
            error => CompileError::Stitch(error),
        }
    }
}

impl From<PrepareError> for CompileError {
    ghost from_gives = { λ error e. e ≡ of_planning error };

    fn from(error: PrepareError) -> CompileError {
        match error {
            PrepareError::Rules(error) => CompileError::Rules(error),
            PrepareError::Stitch(error) => CompileError::Stitch(error),
            PrepareError::Memory(error) => CompileError::Memory(error),
        }
    }
}

impl From<InsertError> for CompileError {
    ghost from_gives = { λ error e. e ≡ of_insert error };

    fn from(error: InsertError) -> CompileError {
        match error {
            InsertError::Memory(error) => CompileError::Memory(error),
            error => CompileError::Insert(error),
        }
    }
}

impl From<ReportError> for CompileError {
    ghost from_gives = { λ error e. e ≡ of_report error };

    fn from(error: ReportError) -> CompileError {
        match error {
            ReportError::Memory(error) => CompileError::Memory(error),
            error => CompileError::Report(error),
        }
    }
}

impl From<StilError> for CompileError {
    ghost from_gives = { λ error e. e ≡ of_patterns error };

    fn from(error: StilError) -> CompileError {
        match error {
            StilError::Memory(error) => CompileError::Memory(error),
            error => CompileError::Patterns(error),
        }
    }
}
