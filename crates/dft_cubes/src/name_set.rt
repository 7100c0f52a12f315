ghost use Rattle.std.specs.Prelude.{◌≡◌, ◌++◌, ◌∷◌, [], false, OnOk};
ghost use Rattle.dft_cells.specs.WellFormed.{has_name};

use indexmap::IndexSet;
use std::alloc::{AllocError, Global};
use std::marker::Model;

// Names, each once, found by their bytes. A clause sees them in the order in which they were added.
#[derive(Debug)]
pub(crate) struct NameSet {
    names: IndexSet<Vec<u8>>,
}

// One call for all fields, so that the proof of what owns a value stays short.
impl Drop for NameSet {
    fn drop(self) {
        let NameSet { names: _ } = self;
    }
}

impl Model for NameSet {
    ghost use Rattle.std.specs.Prelude.{List, ℕ};
    ghost use Rattle.dft_cubes.specs.NameSetShown.{names_in};

    ghost Value = { List (List ℕ) };

    ghost view = { names_in };
}

impl NameSet {
    // No name yet.
    pub(crate) fn new(alloc: Global) -> NameSet
        ensures { result ≡ [] }
    {
        NameSet {
            names: IndexSet::new(alloc),
        }
    }

    // Whether this name was added.
    pub(crate) fn has(&self, name: &[u8]) -> bool
        ensures { result ≡ has_name self.now name.now }
    {
        self.names.contains(name)
    }

    // Adds a name that is not there.
    pub(crate) fn add(&mut self, name: Vec<u8>) -> Result<(), AllocError>
        requires { has_name self.old name.items ≡ false }
        ensures { OnOk result (self.new ≡ self.old ++ name.items ∷ []) }
    {
        self.names.insert(name)?;
        Ok(())
    }
}
