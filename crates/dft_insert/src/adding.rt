//! Ports that are added to those of a design.

ghost use Rattle.std.specs.Prelude.{◌≡◌, None, IfErr, OnOk};
ghost use Rattle.dft_netlist.specs.Sound.{HasOnlyPorts};
ghost use Rattle.dft_scan_frame.specs.Refusals.{IsRefusal};
ghost use Rattle.dft_insert.specs.Refusals.{new_port_refusal, ports_refusal, with_port, with_ports};

use crate::new_port::NewPort;
use crate::told::told;
use dft_netlist::{Design, DesignBuilder};
use dft_scan_frame::InsertError;
use std::alloc::Global;

// Adds these ports, or refuses the first whose name is taken or that passes a limit. The builder has only ports so far, and the
// names of the whole design are taken.
pub(crate) fn add_ports(
    alloc: Global,
    builder: &mut DesignBuilder,
    design: &Design,
    ports: &[NewPort],
) -> Result<(), InsertError>
    requires { HasOnlyPorts builder.old }
    ensures accepted { OnOk result (ports_refusal design.now builder.old ports.now ≡ None) }
    ensures added { OnOk result (builder.new ≡ with_ports builder.old ports.now) }
    ensures refused { IfErr result (IsRefusal (ports_refusal design.now builder.old ports.now)) }
{
    for port in ports {
        add_port(alloc, builder, design, port)?;
    }
    Ok(())
}

// Adds a port, or refuses it.
fn add_port(
    alloc: Global,
    builder: &mut DesignBuilder,
    design: &Design,
    port: &NewPort,
) -> Result<(), InsertError>
    requires { HasOnlyPorts builder.old }
    ensures accepted { OnOk result (new_port_refusal design.now builder.old port.now ≡ None) }
    ensures added { OnOk result (builder.new ≡ with_port builder.old port.now) }
    ensures refused { IfErr result (IsRefusal (new_port_refusal design.now builder.old port.now)) }
{
    let name = port.name.copy(alloc)?;
    if design.is_taken(name.as_slice()) {
        return Err(InsertError::NameClash { name });
    }
    match builder.port(name, port.dir, None) {
        Ok(_) => Ok(()),
        Err(error) => Err(told(error)),
    }
}
