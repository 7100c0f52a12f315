ghost use Rattle.std.specs.Prelude.{ℕ, ◌≡◌, ◌<◌, ◌≤◌, length, Some, slice_get};
ghost use Rattle.dft_netlist.specs.Drivers.{driver as driver_of};
ghost use Rattle.dft_netlist.specs.Names.{find_net, find_instance};
ghost use Rattle.dft_netlist.specs.NetDrivers.{IsSingle, driver_at, Drives};
ghost use Rattle.dft_netlist.specs.Orders.{IsOrder, numbers_of};
ghost use Rattle.dft_netlist.specs.Sound.{IsNetlist};

use crate::ids::{InstanceId, NetId};
use crate::instance::{Instance, Join};
use crate::name_table::NameTable;
use crate::named::{instance_of, net_of};
use crate::net_driver::NetDriver;
use crate::port::Port;
use dft_base::Name;
use dft_cells::Library;
use std::marker::Model;

/// A gate-level netlist: one module over a library of cells (IEEE 1364). Each net has one driver at most, and an
/// order puts it after the nets that its driver reads. A clause sees it as a record of lists.
#[derive(Debug)]
pub struct Design {
    pub(crate) name: Name,
    pub(crate) library: Library,
    pub(crate) ports: Vec<Port>,
    pub(crate) instances: Vec<Instance>,
    pub(crate) joins: Vec<Join>,
    pub(crate) table: NameTable,
    pub(crate) drivers: Vec<NetDriver>,
    pub(crate) order: Vec<NetId>,
}

// One call for all fields, so that the proof of what owns a value stays short.
impl Drop for Design {
    fn drop(self) {
        let Design {
            name: _,
            library: _,
            ports: _,
            instances: _,
            joins: _,
            table: _,
            drivers: _,
            order: _,
        } = self;
    }
}

impl Model for Design {
    ghost use Rattle.dft_netlist.specs.Netlist.{Netlist};

    ghost Value = { Netlist };

    ghost use Rattle.dft_netlist.specs.Shown.{netlist_of, IsDesign};

    ghost view = { netlist_of };

    ghost invariant = { IsDesign };
}

impl Design {
    /// The module's name.
    pub fn module(&self) -> &Name
        ensures name { result.now ≡ self.now.name }
        ensures sound { IsNetlist self.now }
        ensures single { IsSingle self.now }
    {
        &self.name
    }

    /// The cells that its instances may name.
    pub fn library(&self) -> &Library
        ensures library { result.now ≡ self.now.library }
        ensures sound { IsNetlist self.now }
    {
        &self.library
    }

    /// Its ports, in the order of the module's header. The nets of their bits have the lowest numbers.
    pub fn ports(&self) -> &[Port]
        ensures ports { result.now ≡ self.now.ports }
        ensures sound { IsNetlist self.now }
    {
        &self.ports
    }

    /// Its instances, in the order in which they were added.
    pub fn instances(&self) -> &[Instance]
        ensures instances { result.now ≡ self.now.instances }
        ensures sound { IsNetlist self.now }
    {
        &self.instances
    }

    /// Its continuous assignments, one for each bit.
    pub fn joins(&self) -> &[Join]
        ensures joins { result.now ≡ self.now.joins }
        ensures sound { IsNetlist self.now }
    {
        &self.joins
    }

    /// How many nets there are; their numbers are all those below.
    pub fn net_count(&self) -> u32
        ensures count { result ≡ length self.now.nets }
        ensures sound { IsNetlist self.now }
    {
        self.table.net_count() as u32
    }

    /// The printed name of this net.
    pub fn net_name(&self, net: NetId) -> &Name
        requires { net.0 < length self.now.nets }
        ensures { slice_get self.now.nets net.0 ≡ Some result.now }
    {
        self.table.net_name(net)
    }

    /// The net with this printed name, if there is one.
    pub fn find(&self, name: &[u8]) -> Option<NetId>
        ensures { result ≡ find_net self.now name.now }
    {
        net_of(self.table.get(name))
    }

    /// The instance with this name, if there is one.
    pub fn find_instance(&self, name: &[u8]) -> Option<InstanceId>
        ensures { result ≡ find_instance self.now name.now }
    {
        instance_of(self.table.get(name))
    }

    /// What drives this net. It takes the same time for each.
    pub fn driver(&self, net: NetId) -> NetDriver
        requires { net.0 < length self.now.nets }
        ensures driver { driver_of self.now net.0 ≡ driver_at self.now result }
        ensures drives { Drives self.now result net.0 }
    {
        self.drivers[net.0 as usize]
    }

    /// Every net once, after the nets that its driving gate, join or lock-up reads.
    pub fn order(&self) -> &[NetId]
        ensures { IsOrder self.now (numbers_of result.now) }
    {
        &self.order
    }
}
