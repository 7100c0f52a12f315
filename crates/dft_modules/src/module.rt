//! Modules, as a text of several says them.

ghost use Rattle.std.specs.Prelude.{◌≡◌, [], ◌++◌, ◌∷◌, OnOk, OnErr};

use crate::connections::Connections;
use dft_base::Name;
use dft_netlist::{Instance, Join, Port};
use std::alloc::{AllocError, Global};
use std::marker::Model;

/// An instance of a module, by the module's name.
#[derive(Debug)]
pub struct SubInstance {
    pub name: Name,
    pub of: Name,
    pub connections: Connections,
}

// One call for all fields, so that the proof of what owns a value stays short.
impl Drop for SubInstance {
    fn drop(self) {
        let SubInstance {
            name: _,
            of: _,
            connections: _,
        } = self;
    }
}

/// A part of a module. The nets are those of the module, by their numbers in it.
#[derive(Debug, Drop)]
pub enum Item {
    /// A continuous assignment of one bit.
    Join(Join),
    /// An instance of a cell of the library or of a gate.
    Cell(Instance),
    /// An instance of a module.
    Sub(SubInstance),
}

/// A module of a text (IEEE 1364, structural part): its name, its ports, the printed name of each net by its number, and its
/// items: module instances in the order of the text, and before each the joins and then the cells that stand before it. The
/// bits of its ports are the first nets.
#[derive(Debug)]
pub struct Module {
    name: Name,
    ports: Vec<Port>,
    nets: Vec<Name>,
    items: Vec<Item>,
}

// One call for all fields, so that the proof of what owns a value stays short.
impl Drop for Module {
    fn drop(self) {
        let Module {
            name: _,
            ports: _,
            nets: _,
            items: _,
        } = self;
    }
}

impl Model for Module {
    ghost use Rattle.dft_modules.specs.Modules as spec;

    ghost Value = { spec.Module };

    ghost use Rattle.dft_modules.specs.ModuleShown.{module_of};

    ghost view = { module_of };
}

impl Module {
    /// The module with this name that has nothing yet.
    pub fn new(alloc: Global, name: Name) -> Module
        ensures { result ≡ record { name = name; ports = []; nets = []; items = [] } }
    {
        Module {
            name,
            ports: Vec::new(alloc),
            nets: Vec::new(alloc),
            items: Vec::new(alloc),
        }
    }

    /// Its name.
    pub fn name(&self) -> &Name
        ensures { result.now ≡ self.now.name }
    {
        &self.name
    }

    /// Its ports, in the order of the header.
    pub fn ports(&self) -> &[Port]
        ensures { result.now ≡ self.now.ports }
    {
        &self.ports
    }

    /// The printed name of each net, by its number.
    pub fn nets(&self) -> &[Name]
        ensures { result.now ≡ self.now.nets }
    {
        &self.nets
    }

    /// Its items.
    pub fn items(&self) -> &[Item]
        ensures { result.now ≡ self.now.items }
    {
        &self.items
    }

    /// Adds a port at the end of the header.
    pub fn add_port(&mut self, port: Port) -> Result<(), AllocError>
        ensures ok { OnOk result (self.new ≡ record self.old { ports = self.old.ports ++ port ∷ [] }) }
        ensures err { OnErr result (self.new ≡ self.old) }
    {
        self.ports.push(port)?;
        Ok(())
    }

    /// Adds a net of this printed name.
    pub fn add_net(&mut self, name: Name) -> Result<(), AllocError>
        ensures ok { OnOk result (self.new ≡ record self.old { nets = self.old.nets ++ name ∷ [] }) }
        ensures err { OnErr result (self.new ≡ self.old) }
    {
        self.nets.push(name)?;
        Ok(())
    }

    /// Adds an item at the end.
    pub fn add_item(&mut self, item: Item) -> Result<(), AllocError>
        ensures ok { OnOk result (self.new ≡ record self.old { items = self.old.items ++ item ∷ [] }) }
        ensures err { OnErr result (self.new ≡ self.old) }
    {
        self.items.push(item)?;
        Ok(())
    }
}
