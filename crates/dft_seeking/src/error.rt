ghost use Rattle.std.specs.Prelude.{◌≡◌, alloc_error};
ghost use Rattle.dft_seeking.specs.declared.error.SeekError.TheVariants.{Memory};

use std::alloc::{AllocError, AllocFailed};
use thiserror::Error;

/// Why the cubes of a search are not saved.
#[derive(Debug, Error, Drop)]
pub enum SeekError {
    /// N4: there are more cubes than a cube file may have.
    #[error("too many cubes")]
    TooManyCubes,
    /// K6: the cube file would have this many bytes, which is more than its limit.
    #[error("the cube file is too long")]
    LongCubes { first: i64 },
    /// K6: the report would have this many bytes, which is more than its limit.
    #[error("the report is too long")]
    LongReport { first: i64 },
    #[error("out of memory")]
    Memory(AllocError),
}

impl From<AllocError> for SeekError {
    ghost from_gives = { λ error e. e ≡ Memory error };

    fn from(error: AllocError) -> SeekError {
        SeekError::Memory(error)
    }
}

impl<T: Drop> From<AllocFailed<T>> for SeekError {
    ghost from_gives = { λ error e. e ≡ Memory alloc_error };

    fn from(_error: AllocFailed<T>) -> SeekError {
        SeekError::Memory(AllocError)
    }
}
