ghost use Rattle.std.specs.Prelude.{◌≡◌, alloc_error};
ghost use Rattle.dft_cubes.specs.declared.error.CubeError.TheVariants.{Memory};

use dft_base::{Name, Place};
use std::alloc::{AllocError, AllocFailed};
use thiserror::Error;

/// Why a cube file was not read: the first check of the first line that fails. Each place is the first column of that line.
#[derive(Debug, Error, Drop)]
pub enum CubeError {
    /// A line that is none of those that may stand there, or has a byte outside of 33 to 126 in a word before its comment.
    #[error("a line that is none of these in its place, as a second clock in version 1, or has a byte outside of 33 to 126 in a word before its comment")]
    Q1 { place: Place },
    /// A cell that is no flip-flop that may be scanned.
    #[error("the cell is no flip-flop without scan pins")]
    Q2 { place: Place, name: Name },
    /// A port that is no bit of an input.
    #[error("the port is no bit of an input")]
    Q3 { place: Place, name: Name },
    /// A clock that is no domain.
    #[error("the clock is no domain of the configuration")]
    Q4 { place: Place, name: Name },
    /// A cube's name that was given before.
    #[error("a cube before has this name")]
    Q5 { place: Place, name: Name },
    /// A cell or port that was given before in this cube.
    #[error("the cube gave this cell or port before")]
    Q6 { place: Place, name: Name },
    /// The text ends inside of a cube.
    #[error("the text ends inside of a cube")]
    Q7 { place: Place },
    /// A port that is a domain or a reset.
    #[error("the port is a domain or a reset")]
    Q8 { place: Place, name: Name },
    /// One cube more than there may be.
    #[error("the first line of cube number 65,537")]
    Q9 { place: Place },
    /// Memory ran out.
    #[error("out of memory")]
    Memory(AllocError),
}

impl From<AllocError> for CubeError {
    ghost from_gives = { λ error e. e ≡ Memory error };

    fn from(error: AllocError) -> CubeError {
        CubeError::Memory(error)
    }
}

impl<T: Drop> From<AllocFailed<T>> for CubeError {
    ghost from_gives = { λ error e. e ≡ Memory alloc_error };

    fn from(_error: AllocFailed<T>) -> CubeError {
        CubeError::Memory(AllocError)
    }
}
