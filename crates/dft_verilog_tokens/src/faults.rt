//! Faults with names and limits in them.

ghost use Rattle.std.specs.Prelude.{◌≡◌};
ghost use Rattle.dft_base.specs.Name.{IsName};
ghost use Rattle.dft_lexing.specs.declared.read_error.ReadError.TheVariants as errors;
ghost use Rattle.dft_netlist_text.specs.Steps.{fault};
ghost use Rattle.dft_verilog_tokens.specs.Reading.{Faults};

use crate::read_error::ReadError;
use dft_base::Name;
use dft_netlist::Counted;
use dft_netlist_text::{Cause, Fault};
use std::alloc::Global;

/// The name is taken.
#[cold]
pub fn taken(alloc: Global, place: usize, word: &[u8]) -> ReadError
    requires { IsName word.now }
    ensures { Faults (fault (Cause.Taken word.now) place) result }
{
    match Name::from_slice(alloc, word) {
        Ok(name) => ReadError::Fault(Fault {
            cause: Cause::Taken(name),
            left: place,
        }),
        Err(failed) => ReadError::Memory(failed),
    }
}

/// The name was not declared.
#[cold]
pub fn undeclared(alloc: Global, place: usize, word: &[u8]) -> ReadError
    requires { IsName word.now }
    ensures { Faults (fault (Cause.Undeclared word.now) place) result }
{
    match Name::from_slice(alloc, word) {
        Ok(name) => ReadError::Fault(Fault {
            cause: Cause::Undeclared(name),
            left: place,
        }),
        Err(failed) => ReadError::Memory(failed),
    }
}

/// The cell has no pin of this name.
#[cold]
pub fn no_pin(alloc: Global, place: usize, word: &[u8]) -> ReadError
    requires { IsName word.now }
    ensures { Faults (fault (Cause.NoPin word.now) place) result }
{
    match Name::from_slice(alloc, word) {
        Ok(name) => ReadError::Fault(Fault {
            cause: Cause::NoPin(name),
            left: place,
        }),
        Err(failed) => ReadError::Memory(failed),
    }
}

/// The pin of this name was connected before.
#[cold]
pub fn joined_twice(alloc: Global, place: usize, word: &[u8]) -> ReadError
    requires { IsName word.now }
    ensures { Faults (fault (Cause.JoinedTwice word.now) place) result }
{
    match Name::from_slice(alloc, word) {
        Ok(name) => ReadError::Fault(Fault {
            cause: Cause::JoinedTwice(name),
            left: place,
        }),
        Err(failed) => ReadError::Memory(failed),
    }
}

/// There are as many as there may be.
pub fn full(place: usize, what: Counted) -> ReadError
    ensures { result ≡ errors.Fault (fault (Cause.Full what) place) }
{
    ReadError::Fault(Fault {
        cause: Cause::Full(what),
        left: place,
    })
}

/// No such token may stand here, or a selection does not fit.
pub fn refused(place: usize, cause: Cause) -> ReadError
    ensures { result ≡ errors.Fault (fault cause place) }
{
    ReadError::Fault(Fault { cause, left: place })
}
