ghost use Rattle.std.specs.Prelude.{◌≡◌, alloc_error};
ghost use Rattle.dft_lexing.specs.declared.read_error.ReadError.TheVariants as errors;

use std::alloc::{AllocError, AllocFailed};
use thiserror::Error;

/// Why a text was not read. The faults of texts are each reader's own.
#[derive(Debug, Error, Drop)]
pub enum ReadError<F> {
    /// The first fault of the text.
    #[error("the text is refused")]
    Fault(F),
    /// Memory ran out.
    #[error("out of memory")]
    Memory(AllocError),
}

impl<F> From<AllocError> for ReadError<F> {
    ghost from_gives = { λ _ e. e ≡ errors.Memory alloc_error };

    fn from(error: AllocError) -> ReadError<F> {
        ReadError::Memory(error)
    }
}

impl<F, T: Drop> From<AllocFailed<T>> for ReadError<F> {
    ghost from_gives = { λ _ e. e ≡ errors.Memory alloc_error };

    fn from(_error: AllocFailed<T>) -> ReadError<F> {
        ReadError::Memory(AllocError)
    }
}
