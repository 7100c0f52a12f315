//! Things that are added to a netlist where they are not refused.

ghost use Rattle.std.specs.Prelude.{◌≡◌, None, IfOk, OnOk};
ghost use Rattle.dft_netlist.specs.Building.{net_refusal, port_refusal};
ghost use Rattle.dft_netlist.specs.Sound.{HasOnlyPorts};
ghost use Rattle.dft_scan_frame.specs.Growing.{APort, ANet, AnInstance, InstanceFits, IsMemory, next_port, with_thing};

use dft_base::{Name, Range};
use dft_netlist::{DesignBuilder, Dir, Instance, NetlistError};
use std::alloc::{AllocError, Global};

// Adds a port and the nets of its bits.
pub(crate) fn add_port(
    builder: &mut DesignBuilder,
    name: Name,
    dir: Dir,
    range: Option<Range>,
) -> Result<(), AllocError>
    requires only { HasOnlyPorts builder.old }
    requires passes { port_refusal builder.old name range ≡ None }
    ensures { OnOk result (builder.new ≡ with_thing builder.old (APort (next_port builder.old name dir range))) }
{
    match builder.port(name, dir, range) {
        Ok(_) => Ok(()),
        Err(error) => Err(memory(error)),
    }
}

// Adds a net.
pub(crate) fn add_net(builder: &mut DesignBuilder, name: Name) -> Result<(), AllocError>
    requires { net_refusal builder.old name ≡ None }
    ensures { OnOk result (builder.new ≡ with_thing builder.old (ANet name)) }
{
    match builder.net(name) {
        Ok(_) => Ok(()),
        Err(error) => Err(memory(error)),
    }
}

/// Adds an instance.
pub fn add_instance(builder: &mut DesignBuilder, instance: Instance) -> Result<(), AllocError>
    requires { InstanceFits builder.old instance }
    ensures { OnOk result (builder.new ≡ with_thing builder.old (AnInstance instance)) }
{
    let Instance { name, cell, pins } = instance;
    match builder.instance(name, cell, pins.as_slice()) {
        Ok(_) => Ok(()),
        Err(error) => Err(memory(error)),
    }
}

/// The error of a builder that refuses nothing.
pub fn memory(error: NetlistError) -> AllocError
    requires { IsMemory error }
{
    match error {
        NetlistError::Memory(error) => error,
        _ => unreachable!(),
    }
}
