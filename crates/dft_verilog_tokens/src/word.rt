//! Names of a module, as they are kept while its text is read.

ghost use Rattle.std.specs.Prelude.{◌≡◌};
ghost use Rattle.std.specs.Cow.{cow_slice_items};
ghost use Rattle.dft_base.specs.Name.{IsName};

use std::borrow::CowSlice;
use std::marker::Model;

/// A name that stands in the text, or that was made for a bit. A clause sees it as its bytes.
#[derive(Debug, Drop)]
pub struct Word<'a> {
    bytes: CowSlice<'a, u8>,
}

impl<'a> Model for Word<'a> {
    ghost use Rattle.std.specs.Prelude.{List, ℕ};
    ghost use Rattle.std.specs.Cow.{cow_slice_items};
    ghost use Rattle.dft_base.specs.Name.{IsName};

    ghost Value = { List ℕ };

    ghost view = { λ w. cow_slice_items w.bytes };

    ghost invariant = { λ w. IsName (cow_slice_items w.bytes) };
}

impl<'a> Word<'a> {
    /// A name that stands in the text.
    pub fn read(bytes: &'a [u8]) -> Word<'a>
        requires { IsName bytes.now }
        ensures { result ≡ bytes.now }
    {
        Word {
            bytes: CowSlice::Borrowed(bytes),
        }
    }

    /// A name that was made.
    pub fn made(bytes: Vec<u8>) -> Word<'a>
        requires { IsName bytes.items }
        ensures { result ≡ bytes.items }
    {
        Word {
            bytes: CowSlice::Owned(bytes),
        }
    }

    /// Its bytes, as they are kept.
    pub fn into_bytes(self) -> CowSlice<'a, u8>
        ensures { cow_slice_items result ≡ self.entry }
    {
        self.bytes
    }

    /// Its bytes.
    pub fn as_slice(&self) -> &[u8]
        ensures bytes { result.now ≡ self.now }
        ensures name { IsName self.now }
    {
        self.bytes.as_slice()
    }
}
