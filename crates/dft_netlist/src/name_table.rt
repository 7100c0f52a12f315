ghost use Rattle.std.specs.Prelude.{◌≡◌, ◌<◌, ◌≤◌, ◌+◌, ◌++◌, ◌∷◌, [], None, Some, OnOk, length, slice_get, vec_len, ◌^◌};
ghost use Rattle.dft_netlist.specs.NameTables.{look_up, own_entries, net_entries, AreNew, IsFree};
ghost use Rattle.dft_netlist.specs.declared.named.Named.TheVariants.{Net};

use crate::ids::NetId;
use crate::name_store::NameStore;
use crate::named::Named;
use dft_base::Name;
use std::alloc::{AllocError, Global};
use std::marker::Model;

// What each printed name stands for, and the names of nets by their numbers. Each name is kept once. A clause sees the
// names in order of adding.
#[derive(Debug)]
pub(crate) struct NameTable {
    names: NameStore,
    // The place of each net's name.
    nets: Vec<u32>,
}

// One call for all fields, so that the proof of what owns a value stays short.
impl Drop for NameTable {
    fn drop(self) {
        let NameTable { names: _, nets: _ } = self;
    }
}

impl Model for NameTable {
    ghost use Rattle.dft_netlist.specs.NameTables.{Table};

    ghost Value = { Table };

    ghost use Rattle.dft_netlist.specs.NameTableShown.{table_of, IsTable};

    ghost view = { table_of };

    ghost invariant = { IsTable };
}

impl NameTable {
    // No name yet.
    pub(crate) fn new(alloc: Global) -> NameTable
        ensures entries { result.entries ≡ [] }
        ensures nets { result.nets ≡ [] }
    {
        NameTable {
            names: NameStore::new(alloc),
            nets: Vec::new(alloc),
        }
    }

    // What this name stands for.
    pub(crate) fn get(&self, name: &[u8]) -> Option<Named>
        ensures { result ≡ look_up self.now.entries name.now }
    {
        self.names.get(name)
    }

    // How many nets there are.
    pub(crate) fn net_count(&self) -> usize
        ensures { result ≡ length self.now.nets }
    {
        self.nets.len()
    }

    // The name of this net.
    pub(crate) fn net_name(&self, net: NetId) -> &Name
        requires { net.0 < length self.now.nets }
        ensures { slice_get self.now.nets net.0 ≡ Some result.now }
    {
        self.names.name(self.nets[net.0 as usize])
    }

    // Makes room for so many more names.
    pub(crate) fn reserve(&mut self, more: usize) -> Result<(), AllocError>
        ensures entries { self.new.entries ≡ self.old.entries }
        ensures nets { self.new.nets ≡ self.old.nets }
        ensures room { OnOk result (more ≤ self.new.room) }
    {
        self.names.reserve(more)?;
        self.nets.reserve(more)
    }

    // Adds a name, if there is one, that is not there and for which there is room, of no net.
    pub(crate) fn insert_own(&mut self, name: Option<Name>, named: Named)
        requires room { 0 < self.old.room }
        requires fresh { IsFree self.old.entries name }
        ensures added { self.new.entries ≡ self.old.entries ++ own_entries name named }
        ensures nets { self.new.nets ≡ self.old.nets }
        ensures room { self.old.room ≤ self.new.room + 1 }
    {
        if let Some(name) = name {
            self.names.insert_reserved(name, named);
        }
    }

    // Adds a net of this name, which is not there and for which there is room.
    pub(crate) fn insert_net(&mut self, name: Name)
        requires room { 0 < self.old.room }
        requires few { length self.old.nets < 2 ^ 32 }
        requires fresh { look_up self.old.entries name ≡ None }
        ensures added { self.new.entries ≡ self.old.entries ++ (name, Net (record { 0 = length self.old.nets })) ∷ [] }
        ensures nets { self.new.nets ≡ self.old.nets ++ name ∷ [] }
        ensures room { self.old.room ≤ self.new.room + 1 }
    {
        let net = NetId(self.nets.len() as u32);
        let place = self.names.len() as u32;
        self.names.insert_reserved(name, Named::Net(net));
        self.nets.push_reserved(place);
    }

    // Adds nets of these names, which are not there and for which there is room.
    pub(crate) fn insert_nets(&mut self, names: Vec<Name>)
        requires room { vec_len names ≤ self.old.room }
        requires few { length self.old.nets + vec_len names < 2 ^ 32 }
        requires new { AreNew self.old.entries names.items }
        ensures added { self.new.entries ≡ self.old.entries ++ net_entries (length self.old.nets) names.items }
        ensures nets { self.new.nets ≡ self.old.nets ++ names.items }
    {
        for name in names {
            self.insert_net(name);
        }
    }
}
