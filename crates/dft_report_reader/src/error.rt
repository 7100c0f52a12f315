ghost use Rattle.std.specs.Prelude.{◌≡◌, alloc_error};
ghost use Rattle.dft_report_reader.specs.declared.error.ReadError.TheVariants.{Memory};

use dft_base::Place;
use std::alloc::{AllocError, AllocFailed};
use thiserror::Error;

/// Why a report is not read.
#[derive(Debug, Error, Drop)]
pub enum ReadError {
    /// This is the first line that is not of the form.
    #[error("a line is not of the form of reports")]
    K1 { place: Place },
    #[error("out of memory")]
    Memory(AllocError),
}

impl From<AllocError> for ReadError {
    ghost from_gives = { λ error e. e ≡ Memory error };

    fn from(error: AllocError) -> ReadError {
        ReadError::Memory(error)
    }
}

impl<T: Drop> From<AllocFailed<T>> for ReadError {
    ghost from_gives = { λ error e. e ≡ Memory alloc_error };

    fn from(_error: AllocFailed<T>) -> ReadError {
        ReadError::Memory(AllocError)
    }
}
