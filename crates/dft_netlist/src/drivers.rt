//! What drives each net.

ghost use Rattle.std.specs.Prelude.{◌≡◌, ◌<◌, ◌≤◌, ℕ, Some, slice_get, length, IfOk, IfErr};
ghost use Rattle.dft_netlist.specs.declared.ids.NetId.{NetId as ANet};
ghost use Rattle.dft_netlist.specs.declared.instance.Instance.{Instance as AnInstance};
ghost use Rattle.dft_netlist.specs.declared.instance.Join.{Join as AJoin};
ghost use Rattle.dft_netlist.specs.declared.port.Port.{Port as APort};
ghost use Rattle.dft_netlist.specs.Finding.{AreDrivers};
ghost use Rattle.dft_netlist.specs.Finishing.{CannotFinish};
ghost use Rattle.dft_netlist.specs.Notes.{all_noted, port_drives, instance_drives, pin_drives, ports_drives, instances_drives, joins_drives};
ghost use Rattle.dft_netlist.specs.Sound.{IsInstance, IsLive};

use crate::builder::DesignBuilder;
use crate::cells::known_role;
use crate::driver_notes::DriverNotes;
use crate::error::NetlistError;
use crate::ids::InstanceId;
use crate::instance::{Instance, Join, Signal};
use crate::limits::MAX_INSTANCES;
use crate::net_driver::NetDriver;
use crate::port::Port;
use dft_base::{Dir, Name};
use dft_cells::{Cell, Role};
use std::alloc::Global;

// What drives each net, by its number; refused where one has two drivers.
pub(crate) fn find_drivers(
    alloc: Global,
    builder: &DesignBuilder,
) -> Result<Vec<NetDriver>, NetlistError>
    ensures ok { IfOk result (λ drivers. AreDrivers builder.now drivers.items) }
    ensures refused { IfErr result (λ error. CannotFinish builder.now error) }
{
    let mut notes = DriverNotes::new(alloc, builder.net_count() as usize)?;
    note_ports(&mut notes, builder.ports());
    note_instances(&mut notes, builder.library().cells(), builder.instances());
    note_joins(&mut notes, builder.joins());
    if let Some(net) = notes.clash() {
        let net = builder.net_name(net).copy(alloc)?;
        return Err(NetlistError::MultipleDrivers { net });
    }
    Ok(notes.into_found())
}

fn note_ports(notes: &mut DriverNotes, ports: &[Port])
    requires { (place bit : ℕ) (port : APort) (net : ANet) → slice_get ports.now place ≡ Some port → slice_get port.bits bit ≡ Some net → net.0 < length notes.old.found }
    ensures { notes.new ≡ all_noted notes.old (ports_drives ports.now) }
{
    for port in ports {
        note_port(notes, port);
    }
}

fn note_port(notes: &mut DriverNotes, port: &Port)
    requires { (bit : ℕ) (net : ANet) → slice_get port.now.bits bit ≡ Some net → net.0 < length notes.old.found }
    ensures { notes.new ≡ all_noted notes.old (port_drives port.now) }
{
    if port.dir == Dir::Input {
        for bit in port.bits.as_slice() {
            notes.note(*bit, NetDriver::Input);
        }
    }
}

fn note_instances(notes: &mut DriverNotes, cells: &[Cell], instances: &[Instance])
    requires few { length instances.now ≤ MAX_INSTANCES }
    requires sound { (place : ℕ) (instance : AnInstance) → slice_get instances.now place ≡ Some instance → IsInstance cells.now (length notes.old.found) instance.name instance.cell instance.pins }
    ensures { notes.new ≡ all_noted notes.old (instances_drives cells.now 0 instances.now) }
{
    for (number, instance) in instances.iter().enumerate() {
        note_instance(notes, cells, InstanceId(number as u32), instance);
    }
}

fn note_instance(notes: &mut DriverNotes, cells: &[Cell], id: InstanceId, instance: &Instance)
    requires { IsInstance cells.now (length notes.old.found) instance.now.name instance.now.cell instance.now.pins }
    ensures { notes.new ≡ all_noted notes.old (instance_drives cells.now id.0 instance.now) }
{
    for (pin, signal) in instance.pins.as_slice().iter().enumerate() {
        let role = known_role(cells, instance.cell, pin);
        note_pin(notes, id, pin, role, *signal);
    }
}

fn note_pin(notes: &mut DriverNotes, id: InstanceId, pin: usize, role: Role, signal: Signal)
    requires { IsLive (length notes.old.found) signal }
    ensures { notes.new ≡ all_noted notes.old (pin_drives id.0 pin role signal) }
{
    if role.is_output() {
        if let Signal::Net(net) = signal {
            notes.note(net, NetDriver::Pin { instance: id, pin });
        }
    }
}

fn note_joins(notes: &mut DriverNotes, joins: &[Join])
    requires { (place : ℕ) (join : AJoin) → slice_get joins.now place ≡ Some join → join.target.0 < length notes.old.found }
    ensures { notes.new ≡ all_noted notes.old (joins_drives 0 joins.now) }
{
    for (number, join) in joins.iter().enumerate() {
        notes.note(join.target, NetDriver::Join(number));
    }
}
