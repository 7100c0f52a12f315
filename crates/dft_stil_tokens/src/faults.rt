ghost use Rattle.std.specs.Prelude.{◌≡◌};
ghost use Rattle.dft_base.specs.Name.{IsName};
ghost use Rattle.dft_stil_tokens.specs.Steps.{fault};
ghost use Rattle.dft_stil_tokens.specs.declared.text.Cause.TheVariants as causes;
ghost use Rattle.dft_stil_tokens.specs.Reading.{Faults};

use crate::read_error::ReadError;
use crate::text::{Cause, Fault};
use dft_base::Name;
use std::alloc::Global;

/// That a token is refused which stands at this place.
pub fn fault_at(cause: Cause, left: usize) -> ReadError
    ensures { Faults (fault cause left) result }
{
    ReadError::Fault(Fault { cause, left })
}

/// That a name at this place was given before.
pub fn taken(alloc: Global, word: &[u8], left: usize) -> ReadError
    requires { IsName word.now }
    ensures { Faults (fault (causes.Taken word.now) left) result }
{
    match Name::from_slice(alloc, word) {
        Ok(name) => fault_at(Cause::Taken(name), left),
        Err(error) => ReadError::Memory(error),
    }
}

/// That a name at this place was not given.
pub fn unknown(alloc: Global, word: &[u8], left: usize) -> ReadError
    requires { IsName word.now }
    ensures { Faults (fault (causes.Unknown word.now) left) result }
{
    match Name::from_slice(alloc, word) {
        Ok(name) => fault_at(Cause::Unknown(name), left),
        Err(error) => ReadError::Memory(error),
    }
}

/// That the profile leaves out a word at this place.
pub fn unsupported_at(alloc: Global, word: &[u8], left: usize) -> ReadError
    requires { IsName word.now }
    ensures { Faults (fault (causes.Unsupported word.now) left) result }
{
    match Name::from_slice(alloc, word) {
        Ok(name) => fault_at(Cause::Unsupported(name), left),
        Err(error) => ReadError::Memory(error),
    }
}
