//! Names with numbers, which are found by their bytes.

ghost use Rattle.std.specs.Prelude.{◌≡◌, ◌++◌, ◌∷◌, [], None, OnOk};
ghost use Rattle.dft_numbered.specs.Numbers.{look_up, noted};

use indexmap::IndexMap;
use std::alloc::{AllocError, Global};
use std::borrow::CowSlice;
use std::marker::Model;

/// Names with numbers. Of two names that are the same the first has its number. A clause sees them in the order in which they
/// were added.
#[derive(Debug)]
pub struct Numbered<'a> {
    numbers: IndexMap<CowSlice<'a, u8>, usize>,
}

// One call for all fields, so that the proof of what owns a value stays short.
impl Drop for Numbered<'_> {
    fn drop(self) {
        let Numbered { numbers: _ } = self;
    }
}

impl<'a> Model for Numbered<'a> {
    ghost use Rattle.std.specs.Prelude.{List};
    ghost use Rattle.dft_numbered.specs.Numbers.{Entry};

    ghost Value = { List Entry };

    ghost use Rattle.dft_numbered.specs.NumberedShown.{entries_in};

    ghost view = { entries_in };
}

impl<'a> Numbered<'a> {
    /// No name yet.
    pub fn new(alloc: Global) -> Numbered<'a>
        ensures { result ≡ [] }
    {
        Numbered {
            numbers: IndexMap::new(alloc),
        }
    }

    /// The number of a name.
    pub fn find(&self, name: &[u8]) -> Option<usize>
        ensures { result ≡ look_up self.now name.now }
    {
        self.numbers.get(name).copied()
    }

    // Gives a number to a name that has none.
    fn add(&mut self, name: &'a [u8], number: usize) -> Result<(), AllocError>
        requires { look_up self.old name.now ≡ None }
        ensures { OnOk result (self.new ≡ self.old ++ (name.now, number) ∷ []) }
    {
        self.numbers.insert(CowSlice::Borrowed(name), number)?;
        Ok(())
    }

    /// Gives a name this number, unless it has one.
    pub fn put(&mut self, name: &'a [u8], number: usize) -> Result<(), AllocError>
        ensures { OnOk result (self.new ≡ noted self.old name.now number) }
    {
        match self.find(name) {
            Some(_first) => Ok(()),
            None => self.add(name, number),
        }
    }
}
