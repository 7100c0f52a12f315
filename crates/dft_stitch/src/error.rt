ghost use Rattle.std.specs.Prelude.{◌≡◌, alloc_error};
ghost use Rattle.dft_stitch.specs.declared.error.StitchError.TheVariants.{Memory};

use std::alloc::{AllocError, AllocFailed};
use thiserror::Error;

/// What a limit counts.
#[derive(Clone, Copy, Debug, PartialEq, Eq)]
pub enum Counted {
    /// Scanned cells.
    Cells,
    /// Cycles of a load.
    Cycles,
    /// Variables: the bits of all channels in the cycles of a load.
    Variables,
}

/// Why no chains are planned.
#[derive(Debug, Error, Drop)]
pub enum StitchError {
    /// There would be more than the limit.
    #[error("too many")]
    TooMany { what: Counted, limit: i64 },
    #[error("out of memory")]
    Memory(AllocError),
}

impl From<AllocError> for StitchError {
    ghost from_gives = { λ error e. e ≡ Memory error };

    fn from(error: AllocError) -> StitchError {
        StitchError::Memory(error)
    }
}

impl<T: Drop> From<AllocFailed<T>> for StitchError {
    ghost from_gives = { λ error e. e ≡ Memory alloc_error };

    fn from(_error: AllocFailed<T>) -> StitchError {
        StitchError::Memory(AllocError)
    }
}
