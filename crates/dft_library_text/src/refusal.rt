ghost use Rattle.std.specs.Prelude.{◌≡◌, alloc_error, IfOk};
ghost use Rattle.dft_library_text.specs.declared.refusal.LibraryError.TheVariants as error;
ghost use Rattle.dft_library_text.specs.declared.refusal.Flaw.TheVariants as flaw;
ghost use Rattle.dft_library_text.specs.Refusals as spec;

use dft_base::{Name, printable};
use std::alloc::{AllocError, AllocFailed, Global};
use thiserror::Error;

/// Why a text is no library. A name is the cell's as it is shown, with `?` for what is not printed.
#[derive(Debug, Error, Drop)]
pub enum LibraryError {
    /// The text is no TOML.
    #[error("no TOML text")]
    NotToml,
    /// The cell has a kind that is not known.
    #[error("a kind that is not known")]
    L1 { name: Name },
    /// The cell has a wrong number of inputs, a table of another length or character, or a pin twice.
    #[error("a wrong number of inputs, a pin twice, a table of another length or character")]
    L2 { name: Name },
    /// The cell has the name of a word that IEEE 1364 reserves.
    #[error("a name that IEEE 1364 reserves")]
    L3 { name: Name },
    /// No cell has this kind: `dff` or `lockup`.
    #[error("no dff or no lockup is there")]
    L4 { name: Name },
    /// The cell's `scan` names no scan cell that fits it.
    #[error("its scan names no scan cell that fits it")]
    L5 { name: Name },
    /// The cell, or the table `cells`, has a missing or another key, a value of another kind, or a name with other bytes.
    #[error("a key is missing, unknown, or holds another kind of value or a name with other bytes; or cells is missing, is no table, has another key beside it, or more than 4,096 cells")]
    L7 { name: Name },
    #[error("out of memory")]
    Memory(AllocError),
}

impl From<AllocError> for LibraryError {
    ghost from_gives = { λ a e. e ≡ error.Memory a };

    fn from(e: AllocError) -> LibraryError {
        LibraryError::Memory(e)
    }
}

impl<T: Drop> From<AllocFailed<T>> for LibraryError {
    ghost from_gives = { λ _ e. e ≡ error.Memory alloc_error };

    fn from(_e: AllocFailed<T>) -> LibraryError {
        LibraryError::Memory(AllocError)
    }
}

/// What is wrong with the table of one cell.
#[derive(Clone, Copy, Debug, PartialEq, Eq)]
pub enum Flaw {
    /// A key is missing or not known, or a value is of another kind.
    Keys,
    /// The kind is not known.
    Kind,
    /// The inputs, the table or the names of pins do not fit.
    Pins,
    /// The name is a reserved word.
    Reserved,
    Memory(AllocError),
}

impl From<AllocError> for Flaw {
    ghost from_gives = { λ a e. e ≡ flaw.Memory a };

    fn from(e: AllocError) -> Flaw {
        Flaw::Memory(e)
    }
}

/// The refusal of a cell with a flaw.
pub fn refusal_of(alloc: Global, flaw: Flaw, name: &[u8]) -> Result<LibraryError, AllocError>
    ensures { IfOk result (λ refusal. refusal ≡ spec.refusal_of name.now flaw) }
{
    let name = printable(alloc, name)?;
    Ok(match flaw {
        Flaw::Keys => LibraryError::L7 { name },
        Flaw::Kind => LibraryError::L1 { name },
        Flaw::Pins => LibraryError::L2 { name },
        Flaw::Reserved => LibraryError::L3 { name },
        Flaw::Memory(e) => LibraryError::Memory(e),
    })
}
