//! Names, each kept once, and found by their bytes.

ghost use Rattle.std.specs.Prelude.{◌≡◌, ◌<◌, ◌≤◌, ◌+◌, ◌++◌, ◌∷◌, [], None, OnOk, option_map, length, slice_get, Some};
ghost use Rattle.dft_netlist.specs.NameTables.{look_up, name_at};

use crate::key::Key;
use crate::named::Named;
use dft_base::Name;
use indexmap::IndexMap;
use std::alloc::{AllocError, Global};
use std::marker::Model;

// More names than this are as many as memory cannot hold.
pub(crate) const MAX_NAMES: usize = 4_294_967_295;

// Names and what each stands for. A clause sees them in order of adding.
#[derive(Debug)]
pub(crate) struct NameStore {
    names: IndexMap<Key, Named>,
}

// One call for all fields, so that the proof of what owns a value stays short.
impl Drop for NameStore {
    fn drop(self) {
        let NameStore { names: _ } = self;
    }
}

impl Model for NameStore {
    ghost use Rattle.dft_netlist.specs.NameTables.{Store};

    ghost Value = { Store };

    ghost use Rattle.dft_netlist.specs.NameStoreShown.{store_of, IsStore};

    ghost view = { store_of };

    ghost invariant = { IsStore };
}

impl NameStore {
    // No name yet.
    pub(crate) fn new(alloc: Global) -> NameStore
        ensures { result.entries ≡ [] }
    {
        NameStore {
            names: IndexMap::new(alloc),
        }
    }

    // How many names there are.
    pub(crate) fn len(&self) -> usize
        ensures count { result ≡ length self.now.entries }
        ensures few { result ≤ MAX_NAMES }
    {
        self.names.len()
    }

    // The name at this place.
    pub(crate) fn name(&self, place: u32) -> &Name
        requires { place < length self.now.entries }
        ensures { result.now ≡ name_at self.now.entries place }
    {
        match self.names.get_index(place as usize) {
            Some((key, _)) => &key.name,
            None => unreachable!(),
        }
    }

    // What this name stands for.
    pub(crate) fn get(&self, name: &[u8]) -> Option<Named>
        ensures { result ≡ look_up self.now.entries name.now }
    {
        self.names.get(name).copied()
    }

    // Makes room for so many more names.
    pub(crate) fn reserve(&mut self, more: usize) -> Result<(), AllocError>
        ensures same { self.new.entries ≡ self.old.entries }
        ensures room { OnOk result (more ≤ self.new.room) }
    {
        if more > MAX_NAMES - self.names.len() {
            return Err(AllocError);
        }
        self.names.reserve(more)
    }

    // Adds a name that is not there, for which there is room.
    pub(crate) fn insert_reserved(&mut self, name: Name, named: Named)
        requires room { 0 < self.old.room }
        requires fresh { look_up self.old.entries name ≡ None }
        ensures added { self.new.entries ≡ self.old.entries ++ (name, named) ∷ [] }
        ensures room { self.old.room ≤ self.new.room + 1 }
    {
        let _ = self.names.insert(Key { name }, named);
    }
}
