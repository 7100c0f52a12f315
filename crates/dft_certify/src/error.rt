ghost use Rattle.std.specs.Prelude.{◌≡◌, alloc_error};
ghost use Rattle.dft_certify.specs.declared.error.CertifyError.TheVariants.{Memory};

use dft_base::{Name, Place};
use std::alloc::{AllocError, AllocFailed};
use thiserror::Error;

/// Why a report is not certified: the first check that fails, by cube in the report's order.
#[derive(Debug, Error, Drop)]
pub enum CertifyError {
    /// The sum of this cell, in this line of the written text, is no care bit of the cube, stands twice, or has other variables
    /// than the cell sums.
    #[error("the cell and the bit are no care bit of the cube, the cell stands twice, or the listed pairs are not those that the cell sums")]
    K2 { place: Place, name: Name },
    /// The sums of this cube are no certificate.
    #[error("the pairs do not cancel, or the bits do not sum to 1")]
    K3 { name: Name },
    /// A sum, in this line of the written text, names no scanned cell.
    #[error("a sum names no scanned cell")]
    K4 { place: Place, name: Name },
    /// The cube file has no cube of this name.
    #[error("no cube has the name of a cube that is reported unsolvable")]
    K5 { name: Name },
    /// Memory ran out.
    #[error("out of memory")]
    Memory(AllocError),
}

impl From<AllocError> for CertifyError {
    ghost from_gives = { λ error e. e ≡ Memory error };

    fn from(error: AllocError) -> CertifyError {
        CertifyError::Memory(error)
    }
}

impl<T: Drop> From<AllocFailed<T>> for CertifyError {
    ghost from_gives = { λ error e. e ≡ Memory alloc_error };

    fn from(_error: AllocFailed<T>) -> CertifyError {
        CertifyError::Memory(AllocError)
    }
}
