ghost use Rattle.std.specs.Prelude.{◌≡◌, alloc_error};
ghost use Rattle.dft_replay.specs.declared.error.ReplayError.TheVariants.{Memory};

use dft_base::Name;
use std::alloc::{AllocError, AllocFailed};
use thiserror::Error;

/// Why patterns are not replayed.
#[derive(Debug, Error, Drop)]
pub enum ReplayError {
    /// P7: the signal with this name is no bit of a port with its direction; it is the first such signal.
    #[error("a signal that is no bit of a port of the netlist with its direction")]
    P7 { name: Name },
    /// Memory ran out.
    #[error("out of memory")]
    Memory(AllocError),
}

impl From<AllocError> for ReplayError {
    ghost from_gives = { λ error gives. gives ≡ Memory error };

    fn from(error: AllocError) -> ReplayError {
        ReplayError::Memory(error)
    }
}

impl<T: Drop> From<AllocFailed<T>> for ReplayError {
    ghost from_gives = { λ failed gives. gives ≡ Memory alloc_error };

    fn from(_failed: AllocFailed<T>) -> ReplayError {
        ReplayError::Memory(AllocError)
    }
}
