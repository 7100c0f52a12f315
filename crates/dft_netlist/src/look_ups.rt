//! What a design has under a name or a number, and what holds of every design.

ghost use Rattle.std.specs.Prelude.{◌≡◌, ◌<◌, IfSome, length, slice_get};
ghost use Rattle.dft_cells.specs.WellFormed.{IsWellFormed};
ghost use Rattle.dft_netlist.specs.Connections as connections;
ghost use Rattle.dft_netlist.specs.Drivers.{kind_at, pins_of};
ghost use Rattle.dft_netlist.specs.Finishing.{IsFinished};
ghost use Rattle.dft_netlist.specs.Names as names;
ghost use Rattle.dft_netlist.specs.Names.{IsNamed};
ghost use Rattle.dft_netlist.specs.NetDrivers.{IsSingle, roles_at};
ghost use Rattle.dft_netlist.specs.Orders.{HasOrder};
ghost use Rattle.dft_netlist.specs.Sound.{IsLive, IsNetlist};

use crate::cells::{kind_of, role_at, signal_of};
use crate::design::Design;
use crate::ids::{InstanceId, NetId};
use crate::instance::Signal;
use crate::named::Named;
use crate::net_driver::NetDriver;
use dft_cells::{Kind, Role};

impl Design {
    /// Does nothing: its clauses are what holds of every design. Its netlist is sound over well-formed cells, no net has
    /// two drivers, and its nets have an order.
    pub fn soundness(&self)
        ensures netlist { IsNetlist self.now }
        ensures library { IsWellFormed self.now.library }
        ensures single { IsSingle self.now }
        ensures ordered { HasOrder self.now }
        ensures finished { IsFinished self.now self.now }
    {
        let _cells = self.library.cells();
    }

    /// What this printed name stands for, if it is taken.
    pub fn named(&self, name: &[u8]) -> Option<Named>
        ensures { IsNamed self.now name.now result }
    {
        self.table.get(name)
    }

    /// Whether this printed name is taken.
    pub fn is_taken(&self, name: &[u8]) -> bool
        ensures { result ≡ names.is_taken self.now name.now }
    {
        self.table.get(name).is_some()
    }

    /// The bit of an input port with this name, if there is one.
    pub fn input(&self, name: &[u8]) -> Option<NetId>
        ensures net { result ≡ connections.input_net self.now name.now }
        ensures live { IfSome result (λ net. net.0 < length self.now.nets) }
    {
        let net = self.find(name)?;
        match self.driver(net) {
            NetDriver::Input => Some(net),
            _ => None,
        }
    }

    /// What the instance of this number is; a number past the end is that of a cell that is not modelled.
    pub fn kind(&self, instance: InstanceId) -> Kind
        ensures { result ≡ kind_at self.now instance.0 }
    {
        match self.instances.get(instance.0 as usize) {
            Some(instance) => kind_of(self.library.cells(), instance.cell),
            None => Kind::Opaque,
        }
    }

    /// What this pin of the instance of this number is for, if there is one.
    pub fn role(&self, instance: InstanceId, pin: usize) -> Option<Role>
        ensures { result ≡ slice_get (roles_at self.now instance.0) pin }
    {
        match self.instances.get(instance.0 as usize) {
            Some(instance) => role_at(self.library.cells(), instance.cell, pin),
            None => None,
        }
    }

    /// What the first pin of a role of the instance of this number is joined to, if there is one.
    pub fn signal(&self, instance: InstanceId, role: Role) -> Option<Signal>
        ensures signal { result ≡ connections.signal_of role (pins_of self.now instance.0) }
        ensures live { IfSome result (IsLive (length self.now.nets)) }
    {
        match self.instances.get(instance.0 as usize) {
            Some(instance) => signal_of(self.library.cells(), instance, role),
            None => None,
        }
    }
}
