ghost use Rattle.std.specs.Prelude.{◌≡◌, ◌<◌, ◌≤◌, ◌^◌, pos, length, Some, None, option_map, slice_get, IfOk, OnOk, OnErr, IfErr};
ghost use Rattle.dft_netlist.specs.Building.{empty_netlist, WithPort, WithNet, WithInstance, WithJoin, Connected, IsUnconnected, port_refusal, net_refusal, instance_refusal, Answers, room_limit, taken_or, own_names};
ghost use Rattle.dft_netlist.specs.Finishing.{IsFinished, CannotFinish};
ghost use Rattle.dft_netlist.specs.Names.{find_net, IsNamed, bit_names, port_names, first_taken};
ghost use Rattle.dft_netlist.specs.Sound.{IsNetlist, IsInstanceOf, IsJoinOf, HasOnlyPorts};

use crate::bits::{bit_names, vector_key};
use crate::design::Design;
use crate::drivers::find_drivers;
use crate::error::{Counted, NetlistError};
use crate::ids::{InstanceId, NetId, PortId};
use crate::instance::{CellRef, Instance, Join, Signal};
use crate::limits::{MAX_INSTANCES, MAX_NETS, MAX_PORTS};
use crate::name_table::NameTable;
use crate::named::{Named, net_of};
use crate::order::find_order;
use crate::pins::PinSignals;
use crate::port::{NetIds, Port};
use dft_base::{Dir, Name, Range};
use dft_cells::Library;
use std::alloc::{AllocError, Global};
use std::marker::Model;

/// A netlist that is being built. Names of nets, ports and instances are one name space of printed names. A clause sees
/// the netlist so far. A call that is refused leaves it as it was.
#[derive(Debug)]
pub struct DesignBuilder {
    pub(crate) alloc: Global,
    pub(crate) name: Name,
    pub(crate) library: Library,
    pub(crate) ports: Vec<Port>,
    pub(crate) instances: Vec<Instance>,
    pub(crate) joins: Vec<Join>,
    pub(crate) table: NameTable,
}

// One call for all fields, so that the proof of what owns a value stays short.
impl Drop for DesignBuilder {
    fn drop(self) {
        let DesignBuilder {
            alloc: _,
            name: _,
            library: _,
            ports: _,
            instances: _,
            joins: _,
            table: _,
        } = self;
    }
}

impl Model for DesignBuilder {
    ghost use Rattle.dft_netlist.specs.Netlist.{Netlist};

    ghost Value = { Netlist };

    ghost use Rattle.dft_netlist.specs.BuilderShown.{netlist_so_far, IsBuilder};

    ghost view = { netlist_so_far };

    ghost invariant = { IsBuilder };
}

impl DesignBuilder {
    /// A module of this name over these cells, with nothing in it yet.
    pub fn new(alloc: Global, module: Name, library: Library) -> DesignBuilder
        ensures { result ≡ empty_netlist «module» library }
    {
        module.soundness();
        DesignBuilder {
            alloc,
            name: module,
            library,
            ports: Vec::new(alloc),
            instances: Vec::new(alloc),
            joins: Vec::new(alloc),
            table: NameTable::new(alloc),
        }
    }

    /// Adds a port and the nets of its bits, the leftmost first. A bit of a vector has the vector's name and its index
    /// in brackets; a scalar port's one bit has the port's name. All nets so far are bits of ports. Refused with
    /// `DuplicateName` for the first of its names that is taken, a vector's own name first, and else with `TooMany`
    /// ports or nets.
    pub fn port(
        &mut self,
        name: Name,
        dir: Dir,
        range: Option<Range>,
    ) -> Result<PortId, NetlistError>
        requires { HasOnlyPorts self.old }
        ensures ok { IfOk result (λ port. WithPort self.old name dir range port self.new) }
        ensures refused { Answers (port_refusal self.old name range) result }
        ensures err { OnErr result (self.new ≡ self.old) }
    {
        let names = bit_names(self.alloc, &name, range)?;
        let name = self.untaken_port(name, range, &names)?;
        self.check_room(names.len())?;
        let port = PortId(self.ports.len() as u16);
        let first = self.table.net_count() as u32;
        let bits = NetIds::counted(self.alloc, first, names.len() as u32)?;
        let own = vector_key(self.alloc, &name, range)?;
        self.ports.reserve(1)?;
        self.table.reserve(names.len() + 1)?;
        self.table.insert_own(own, Named::Vector(port));
        self.table.insert_nets(names);
        self.ports.push_reserved(Port {
            name,
            dir,
            range,
            bits,
        });
        Ok(port)
    }

    /// Adds a net of this printed name. Refused with `DuplicateName` where the name is taken, and else with `TooMany` nets.
    pub fn net(&mut self, name: Name) -> Result<NetId, NetlistError>
        ensures ok { IfOk result (λ net. WithNet self.old name net self.new) }
        ensures refused { Answers (net_refusal self.old name) result }
        ensures err { OnErr result (self.new ≡ self.old) }
    {
        if self.table.get(name.as_slice()).is_some() {
            return Err(NetlistError::DuplicateName { name });
        }
        if self.table.net_count() >= MAX_NETS {
            return Err(too_many(Counted::Nets, MAX_NETS));
        }
        Ok(self.add_net(name)?)
    }

    /// Adds an instance of a cell or a gate. Its pins follow the order of its cell's pins; a gate's are its inputs, then
    /// its output. Refused with `DuplicateName` where its name is taken, and else with `TooMany` instances.
    pub fn instance(
        &mut self,
        name: Option<Name>,
        cell: CellRef,
        pins: &[Signal],
    ) -> Result<InstanceId, NetlistError>
        requires { IsInstanceOf self.old name cell pins.now }
        ensures ok { IfOk result (λ id. WithInstance self.old (record { name = name; cell = cell; pins = pins.now }) id self.new) }
        ensures refused { Answers (instance_refusal self.old name) result }
        ensures err { OnErr result (self.new ≡ self.old) }
    {
        let name = self.untaken(name)?;
        if self.instances.len() >= MAX_INSTANCES {
            return Err(too_many(Counted::Instances, MAX_INSTANCES));
        }
        let pins = PinSignals::from_slice(self.alloc, pins)?;
        Ok(self.add_instance(Instance { name, cell, pins })?)
    }

    /// Adds a join: the target has the source's bit (IEEE 1364 `assign` of one bit).
    pub fn join(&mut self, target: NetId, source: Signal) -> Result<(), AllocError>
        requires { IsJoinOf self.old target source }
        ensures ok { OnOk result (WithJoin self.old (record { target = target; source = source }) self.new) }
        ensures err { OnErr result (self.new ≡ self.old) }
    {
        self.joins.push(Join { target, source })?;
        Ok(())
    }

    /// Joins a pin of an instance that is joined to nothing to this net.
    pub fn connect(&mut self, instance: InstanceId, pin: u32, net: NetId)
        requires free { IsUnconnected self.old instance pin }
        requires live { net.0 < length self.old.nets }
        ensures { Connected self.old instance pin net self.new }
    {
        self.instances[instance.0 as usize]
            .pins
            .set(pin as usize, Signal::Net(net));
    }

    // The name of an instance, refused where it is taken.
    fn untaken(&self, name: Option<Name>) -> Result<Option<Name>, NetlistError>
        ensures same { IfOk result (λ same. same ≡ name) }
        ensures refused { Answers (taken_or (first_taken self.now (own_names name)) None) result }
    {
        match name {
            Some(name) => {
                if self.table.get(name.as_slice()).is_some() {
                    return Err(NetlistError::DuplicateName { name });
                }
                Ok(Some(name))
            }
            None => Ok(None),
        }
    }

    // The name of a port, refused where it or one of its bits' is taken.
    fn untaken_port(
        &self,
        name: Name,
        range: Option<Range>,
        bits: &[Name],
    ) -> Result<Name, NetlistError>
        requires { bits.now ≡ bit_names name range }
        ensures same { IfOk result (λ same. same ≡ name) }
        ensures refused { Answers (taken_or (first_taken self.now (port_names name range)) None) result }
    {
        if range.is_some() && self.table.get(name.as_slice()).is_some() {
            return Err(NetlistError::DuplicateName { name });
        }
        for bit in bits {
            if self.table.get(bit.as_slice()).is_some() {
                let name = bit.copy(self.alloc)?;
                return Err(NetlistError::DuplicateName { name });
            }
        }
        Ok(name)
    }

    // Refuses one port more, of so many bits, where it passes a limit.
    fn check_room(&self, width: usize) -> Result<(), NetlistError>
        ensures { Answers (room_limit self.now width) result }
    {
        if self.ports.len() >= MAX_PORTS {
            return Err(too_many(Counted::Ports, MAX_PORTS));
        }
        if width > MAX_NETS - self.table.net_count() {
            return Err(too_many(Counted::Nets, MAX_NETS));
        }
        Ok(())
    }

    /// The module's name.
    pub fn module(&self) -> &Name
        ensures { result.now ≡ self.now.name }
    {
        &self.name
    }

    /// The cells that its instances may name.
    pub fn library(&self) -> &Library
        ensures { result.now ≡ self.now.library }
    {
        &self.library
    }

    /// The ports so far.
    pub fn ports(&self) -> &[Port]
        ensures ports { result.now ≡ self.now.ports }
        ensures sound { IsNetlist self.now }
    {
        &self.ports
    }

    /// The instances so far.
    pub fn instances(&self) -> &[Instance]
        ensures instances { result.now ≡ self.now.instances }
        ensures sound { IsNetlist self.now }
    {
        &self.instances
    }

    /// The joins so far.
    pub fn joins(&self) -> &[Join]
        ensures joins { result.now ≡ self.now.joins }
        ensures sound { IsNetlist self.now }
    {
        &self.joins
    }

    /// How many nets there are so far.
    pub fn net_count(&self) -> u32
        ensures count { result ≡ length self.now.nets }
        ensures sound { IsNetlist self.now }
    {
        self.table.net_count() as u32
    }

    /// The printed name of this net.
    pub fn net_name(&self, net: NetId) -> &Name
        requires { net.0 < length self.now.nets }
        ensures { slice_get self.now.nets net.0 ≡ Some result.now }
    {
        self.table.net_name(net)
    }

    /// The net with this printed name, if there is one.
    pub fn find(&self, name: &[u8]) -> Option<NetId>
        ensures { result ≡ find_net self.now name.now }
    {
        net_of(self.table.get(name))
    }

    /// What this printed name stands for, if it is taken.
    pub fn named(&self, name: &[u8]) -> Option<Named>
        ensures { IsNamed self.now name.now result }
    {
        self.table.get(name)
    }

    /// The design of this netlist. Refused with `MultipleDrivers` for the first net with two drivers, and else with
    /// `Loop` where the nets have no order.
    pub fn finish(self) -> Result<Design, NetlistError>
        ensures ok { IfOk result (λ design. IsFinished self design) }
        ensures refused { IfErr result (λ error. CannotFinish self error) }
    {
        let drivers = find_drivers(self.alloc, &self)?;
        let order = find_order(self.alloc, &self, &drivers)?;
        let DesignBuilder {
            alloc: _,
            name,
            library,
            ports,
            instances,
            joins,
            table,
        } = self;
        Ok(Design {
            name,
            library,
            ports,
            instances,
            joins,
            table,
            drivers,
            order,
        })
    }
}

// The refusal of one more than the limit.
fn too_many(what: Counted, limit: usize) -> NetlistError
    requires { limit < 2 ^ 32 }
    ensures { result ≡ NetlistError.TooMany what (pos limit) }
{
    NetlistError::TooMany {
        what,
        limit: limit as i64,
    }
}
