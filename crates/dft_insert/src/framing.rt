//! The instances of the design, with scan cells in place of the scanned flip-flops.

ghost use Rattle.std.specs.Prelude.{◌≡◌, ◌<◌, ◌≤◌, ◌^◌, IfOk, OnOk, map};
ghost use Rattle.dft_cells.specs.WellFormed.{role_of};
ghost use Rattle.dft_config.specs.Config.{Config as AConfig};
ghost use Rattle.dft_config.specs.Range.{IsInRange};
ghost use Rattle.dft_netlist.specs.Netlist.{Netlist};
ghost use Rattle.dft_netlist.specs.declared.instance.Signal.TheVariants.{Net};
ghost use Rattle.dft_netlist.specs.declared.limits.TheConstants.{MAX_NETS, MAX_PORTS};
ghost use Rattle.dft_netlist.specs.Sound.{AreLive};
ghost use Rattle.dft_rules.specs.Refusals as rules;
ghost use Rattle.dft_rules.specs.Rules.{judged};
ghost use Rattle.dft_stitch.specs.Chains.{plan_of};
ghost use Rattle.dft_scan_frame.specs.Growing.{AllFit, instance_things, with_things};
ghost use Rattle.dft_scan_frame.specs.Moves.{map_from};
ghost use Rattle.dft_insert.specs.Frame.{framed_at, framed_instance};
ghost use Rattle.dft_insert.specs.Frame as spec;

use dft_cells::{Library, Pin, Role};
use dft_config::Config;
use dft_netlist::{
    CellRef, Design, DesignBuilder, Instance, InstanceId, NetId, PinSignals, Signal,
};
use dft_scan_frame::{
    Gap, add_instance, moved_pins, own_name, pins_of, pins_taken, scan_cell, signal_at,
};
use dft_stitch::Chains;
use std::alloc::{AllocError, Global};

// Adds the instances of the design: where one stands in a chain, as its scan cell.
pub(crate) fn frame_instances(
    alloc: Global,
    builder: &mut DesignBuilder,
    design: &Design,
    config: &Config,
    chains: &Chains,
    gap: &Gap,
) -> Result<(), AllocError>
    requires planned { chains.now ≡ plan_of design.now config.now }
    requires room { gap.now.width ≤ MAX_PORTS }
    requires fit { AllFit builder.old (instance_things (map_from (framed_at design.now config.now gap.now) 0 design.now.instances)) }
    ensures { OnOk result (builder.new ≡ with_things builder.old (instance_things (map_from (framed_at design.now config.now gap.now) 0 design.now.instances))) }
{
    config.soundness();
    let library = design.library();
    for (number, instance) in design.instances().iter().enumerate() {
        let scanned = is_scanned(chains, number);
        let framed = framed(alloc, library, gap, scanned, instance)?;
        add_instance(builder, framed)?;
    }
    Ok(())
}

// Whether the instance of this number stands in a chain, as the scanned flip-flops do.
fn is_scanned(chains: &Chains, number: usize) -> bool
    requires { number < 2 ^ 32 }
    ensures { (n : Netlist) (config : AConfig) → IsInRange config → chains.now ≡ plan_of n config → result ≡ rules.is_scanned (judged n config number) }
{
    match chains.place_of(InstanceId(number as u32)) {
        Some(_) => true,
        None => false,
    }
}

// An instance in the frame.
fn framed(
    alloc: Global,
    library: &Library,
    gap: &Gap,
    scanned: bool,
    instance: &Instance,
) -> Result<Instance, AllocError>
    requires room { gap.now.width ≤ MAX_PORTS }
    requires live { AreLive MAX_NETS instance.now.pins }
    ensures { IfOk result (λ x. x ≡ framed_instance library.now gap.now scanned instance.now) }
{
    let name = own_name(alloc, &instance.name)?;
    let pins = moved_pins(alloc, gap, instance.pins.as_slice())?;
    match (scanned, scan_cell(library, instance.cell)) {
        (true, Some(cell)) => {
            let roles = pins_of(library, cell);
            let pins = framed_pins(alloc, roles, NetId(gap.before()), pins.as_slice())?;
            let cell = CellRef::Library(cell);
            Ok(Instance { name, cell, pins })
        }
        _ => {
            let cell = instance.cell;
            Ok(Instance { name, cell, pins })
        }
    }
}

// The pins of a scan cell in place of a flip-flop with these pins, its scan input open.
fn framed_pins(
    alloc: Global,
    roles: &[Pin],
    enable: NetId,
    pins: &[Signal],
) -> Result<PinSignals, AllocError>
    ensures { IfOk result (λ made. made ≡ spec.framed_pins (Net enable) (map role_of roles.now) pins.now) }
{
    let mut made = PinSignals::new(alloc);
    let mut taken = 0;
    for pin in roles {
        made.push(framed_pin(pin.role, enable, signal_at(pins, taken)))?;
        taken += pins_taken(pin.role);
    }
    Ok(made)
}

// What a pin of a scan cell is joined to; `pin` is the flip-flop's pin that it may stand for.
fn framed_pin(role: Role, enable: NetId, pin: Signal) -> Signal
    ensures { result ≡ spec.framed_pin (Net enable) role pin }
{
    match role {
        Role::ScanIn => Signal::Unconnected,
        Role::ScanEnable => Signal::Net(enable),
        _ => pin,
    }
}
