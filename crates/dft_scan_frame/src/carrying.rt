//! What is carried over from the design.

ghost use Rattle.std.specs.Prelude.{ℕ, ◌≡◌, ◌<◌, ◌≤◌, drop, map, length, OnOk, IfOk, slice_get, Some};
ghost use Rattle.dft_netlist.specs.declared.instance.Join.{Join};
ghost use Rattle.dft_netlist.specs.declared.limits.TheConstants.{MAX_NETS, MAX_PORTS};
ghost use Rattle.dft_netlist.specs.Building.{empty_netlist};
ghost use Rattle.dft_netlist.specs.Sound.{AreLive, IsAJoin, IsLive};
ghost use Rattle.dft_scan_frame.specs.Growing.{AllFit, join_things, net_things, port_things, with_things};
ghost use Rattle.dft_scan_frame.specs.Moves.{moved_join};
ghost use Rattle.dft_scan_frame.specs.Moves as spec;

use crate::gap::Gap;
use crate::growing::{add_net, add_port};
use dft_netlist::{Design, DesignBuilder, Join, NetId, PinSignals, Port, Signal};
use std::alloc::{AllocError, Global};

/// A module of the design's name over its cells, with nothing in it.
pub fn bare_module(alloc: Global, design: &Design) -> Result<DesignBuilder, AllocError>
    ensures { IfOk result (λ builder. builder ≡ empty_netlist design.now.name design.now.library) }
{
    let name = design.module().copy(alloc)?;
    let library = design.library().copy(alloc)?;
    Ok(DesignBuilder::new(alloc, name, library))
}

/// Adds these ports.
pub fn carry_ports(
    alloc: Global,
    builder: &mut DesignBuilder,
    ports: &[Port],
) -> Result<(), AllocError>
    requires { AllFit builder.old (port_things ports.now) }
    ensures { OnOk result (builder.new ≡ with_things builder.old (port_things ports.now)) }
{
    for port in ports {
        add_port(builder, port.name.copy(alloc)?, port.dir, port.range)?;
    }
    Ok(())
}

/// Adds the nets of a design from this one on.
pub fn carry_nets(
    alloc: Global,
    builder: &mut DesignBuilder,
    design: &Design,
    first: u32,
) -> Result<(), AllocError>
    requires within { first ≤ length design.now.nets }
    requires fit { AllFit builder.old (net_things (drop first design.now.nets)) }
    ensures { OnOk result (builder.new ≡ with_things builder.old (net_things (drop first design.now.nets))) }
{
    for net in first..design.net_count() {
        add_net(builder, design.net_name(NetId(net)).copy(alloc)?)?;
    }
    Ok(())
}

/// Adds these joins, moved.
pub fn carry_joins(builder: &mut DesignBuilder, joins: &[Join], gap: &Gap) -> Result<(), AllocError>
    requires room { gap.now.width ≤ MAX_PORTS }
    requires live { (place : ℕ) (join : Join) → slice_get joins.now place ≡ Some join → IsAJoin MAX_NETS join.target join.source }
    requires fit { AllFit builder.old (join_things (map (moved_join gap.now) joins.now)) }
    ensures { OnOk result (builder.new ≡ with_things builder.old (join_things (map (moved_join gap.now) joins.now))) }
{
    for join in joins {
        builder.join(gap.moved(join.target), moved_signal(gap, join.source))?;
    }
    Ok(())
}

// What a pin or a join of the design is joined to in the scanned netlist.
fn moved_signal(gap: &Gap, signal: Signal) -> Signal
    requires room { gap.now.width ≤ MAX_PORTS }
    requires live { IsLive MAX_NETS signal }
    ensures { result ≡ spec.moved_signal gap.now signal }
{
    match signal {
        Signal::Net(net) => Signal::Net(gap.moved(net)),
        Signal::Constant(bit) => Signal::Constant(bit),
        Signal::Unconnected => Signal::Unconnected,
    }
}

/// What the pins of an instance of the design are joined to in the scanned netlist.
pub fn moved_pins(alloc: Global, gap: &Gap, pins: &[Signal]) -> Result<PinSignals, AllocError>
    requires room { gap.now.width ≤ MAX_PORTS }
    requires live { AreLive MAX_NETS pins.now }
    ensures { IfOk result (λ moved. moved ≡ map (spec.moved_signal gap.now) pins.now) }
{
    let mut moved = PinSignals::new(alloc);
    for pin in pins {
        moved.push(moved_signal(gap, *pin))?;
    }
    Ok(moved)
}
