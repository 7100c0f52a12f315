ghost use Rattle.std.specs.Prelude.{◌≡◌, alloc_error};
ghost use Rattle.dft_scan_frame.specs.declared.error.InsertError.TheVariants.{Memory};

use dft_base::Name;
use dft_netlist::Counted;
use std::alloc::{AllocError, AllocFailed};
use thiserror::Error;

/// Why scan chains cannot be inserted.
#[derive(Debug, Error, Drop)]
pub enum InsertError {
    /// A name that insertion adds is in the design, or was added before.
    #[error("an added name is taken")]
    NameClash { name: Name },
    /// There would be more ports, nets or instances than the limit.
    #[error("too many")]
    TooMany { what: Counted, limit: i64 },
    #[error("out of memory")]
    Memory(AllocError),
}

impl From<AllocError> for InsertError {
    ghost from_gives = { λ error e. e ≡ Memory error };

    fn from(error: AllocError) -> InsertError {
        InsertError::Memory(error)
    }
}

impl<T: Drop> From<AllocFailed<T>> for InsertError {
    ghost from_gives = { λ error e. e ≡ Memory alloc_error };

    fn from(_error: AllocFailed<T>) -> InsertError {
        InsertError::Memory(AllocError)
    }
}
