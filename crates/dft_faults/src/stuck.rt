//! The design with a stuck net.

ghost use Rattle.std.specs.Prelude.{◌≡◌, IfOk, OnOk, filter, map};
ghost use Rattle.dft_netlist.specs.Drivers.{shape_of};
ghost use Rattle.dft_scan_frame.specs.Growing.{AllFit, instance_things, join_things, with_things};
ghost use Rattle.dft_scan_frame.specs.Statements.{CanFinish};
ghost use Rattle.dft_faults.specs.Faulty as spec;
ghost use Rattle.dft_faults.specs.Faulty.{IsFault};

use crate::fault::Fault;
use dft_cells::{Cell, Role};
use dft_netlist::{Design, DesignBuilder, Instance, Join, NetId, PinSignals, Signal, role_at};
use dft_scan_frame::{add_instance, bare_module, carry_nets, carry_ports, memory, own_name};
use std::alloc::{AllocError, Global};

// Whether a pin is joined to the net.
fn is_at(net: NetId, signal: Signal) -> bool
    ensures { result ≡ spec.is_at net.0 signal }
{
    match signal {
        Signal::Net(other) => other.0 == net.0,
        Signal::Constant(_) | Signal::Unconnected => false,
    }
}

// What a pin is joined to once nothing drives the net.
fn loosened_pin(net: NetId, role: Role, signal: Signal) -> Signal
    ensures { result ≡ spec.loosened_pin net.0 role signal }
{
    if role.is_output() && is_at(net, signal) {
        Signal::Unconnected
    } else {
        signal
    }
}

// The same for a pin whose role is looked up; there is one for each pin.
fn loosened_at(net: NetId, role: Option<Role>, signal: Signal) -> Signal
    ensures { result ≡ spec.loosened_at net.0 role signal }
{
    match role {
        Some(role) => loosened_pin(net, role, signal),
        None => signal,
    }
}

// What the pins of an instance are joined to once nothing drives the net.
fn loosened_pins(
    alloc: Global,
    cells: &[Cell],
    net: NetId,
    instance: &Instance,
) -> Result<PinSignals, AllocError>
    ensures { IfOk result (λ pins. pins ≡ spec.loosened_pins net.0 (shape_of cells.now instance.now.cell).roles instance.now.pins) }
{
    let mut pins = PinSignals::new(alloc);
    for (pin, signal) in instance.pins.as_slice().iter().enumerate() {
        let role = role_at(cells, instance.cell, pin);
        pins.push(loosened_at(net, role, *signal))?;
    }
    Ok(pins)
}

// The instance once nothing drives the net.
fn loosened(
    alloc: Global,
    cells: &[Cell],
    net: NetId,
    instance: &Instance,
) -> Result<Instance, AllocError>
    ensures { IfOk result (λ new. new ≡ spec.loosened cells.now net.0 instance.now) }
{
    Ok(Instance {
        name: own_name(alloc, &instance.name)?,
        cell: instance.cell,
        pins: loosened_pins(alloc, cells, net, instance)?,
    })
}

// Adds these instances, none of which drives the net.
fn carry_instances(
    alloc: Global,
    builder: &mut DesignBuilder,
    cells: &[Cell],
    instances: &[Instance],
    net: NetId,
) -> Result<(), AllocError>
    requires { AllFit builder.old (instance_things (map (spec.loosened cells.now net.0) instances.now)) }
    ensures { OnOk result (builder.new ≡ with_things builder.old (instance_things (map (spec.loosened cells.now net.0) instances.now))) }
{
    for instance in instances {
        add_instance(builder, loosened(alloc, cells, net, instance)?)?;
    }
    Ok(())
}

// Adds those of these joins that are not of the net.
fn carry_joins(builder: &mut DesignBuilder, joins: &[Join], net: NetId) -> Result<(), AllocError>
    requires { AllFit builder.old (join_things (filter (spec.is_elsewhere net.0) joins.now)) }
    ensures { OnOk result (builder.new ≡ with_things builder.old (join_things (filter (spec.is_elsewhere net.0) joins.now))) }
{
    for join in joins {
        if join.target.0 != net.0 {
            builder.join(join.target, join.source)?;
        }
    }
    Ok(())
}

// Adds to the ports of the design the rest of it, with a stuck net.
fn carry_rest(
    alloc: Global,
    builder: &mut DesignBuilder,
    design: &Design,
    fault: Fault,
) -> Result<(), AllocError>
    requires fault { IsFault design.now fault }
    requires ports { builder.old ≡ spec.ports_alone design.now }
    ensures { OnOk result (builder.new ≡ spec.faulty design.now fault) }
{
    design.soundness();
    let first = builder.net_count();
    let cells = design.library().cells();
    carry_nets(alloc, builder, design, first)?;
    carry_instances(alloc, builder, cells, design.instances(), fault.net)?;
    carry_joins(builder, design.joins(), fault.net)?;
    builder.join(fault.net, Signal::Constant(fault.value))
}

// The ports of a design and their nets, over its cells.
fn bare_ports(alloc: Global, design: &Design) -> Result<DesignBuilder, AllocError>
    ensures { IfOk result (λ builder. builder ≡ spec.ports_alone design.now) }
{
    let mut builder = bare_module(alloc, design)?;
    carry_ports(alloc, &mut builder, design.ports())?;
    Ok(builder)
}

// The design with a stuck net, before it is finished.
fn unfinished(alloc: Global, design: &Design, fault: Fault) -> Result<DesignBuilder, AllocError>
    requires { IsFault design.now fault }
    ensures { IfOk result (λ builder. builder ≡ spec.faulty design.now fault) }
{
    let mut builder = bare_ports(alloc, design)?;
    carry_rest(alloc, &mut builder, design, fault)?;
    Ok(builder)
}

// The design of a netlist that has an order and no net with two drivers.
fn finish(builder: DesignBuilder) -> Result<Design, AllocError>
    requires { CanFinish builder }
    ensures { IfOk result (λ design. design ≡ builder) }
{
    match builder.finish() {
        Ok(design) => Ok(design),
        Err(error) => Err(memory(error)),
    }
}

/// The design with a stuck net. It has the same ports, nets and instances under the same numbers. The output pin at the net is
/// unconnected or its join is left out, and a join of the net to the constant is added last; all else stays.
pub fn faulty(alloc: Global, design: &Design, fault: Fault) -> Result<Design, AllocError>
    requires { IsFault design.now fault }
    ensures { IfOk result (λ new. new ≡ spec.faulty design.now fault) }
{
    design.soundness();
    let builder = unfinished(alloc, design, fault)?;
    finish(builder)
}
