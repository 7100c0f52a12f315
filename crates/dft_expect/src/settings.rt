//! What each net is set to before a capture settles.

ghost use Rattle.std.specs.Prelude.{◌≡◌, ℕ, ◌<◌, ◌^◌, length, slice_get, IfOk};
ghost use Rattle.std.specs.List.{list_any};
ghost use Rattle.dft_netlist.specs.Connections.{input_net};
ghost use Rattle.dft_netlist.specs.NetDrivers.{is_inverted as inverts, roles_at};
ghost use Rattle.dft_rules.specs.Rules.{is_net};
ghost use Rattle.dft_stitch.specs.Chains.{plan_of};
ghost use Rattle.dft_expect.specs.Loaded.{all_cells};
ghost use Rattle.dft_expect.specs.Settings.{AreFlags, AreSettings, IsCellSetting, IsSetting};
ghost use Rattle.dft_expect.specs.Settings as spec;
ghost use Rattle.dft_expect.specs.Unloads.{AreStarts};

use crate::unloading::starts;
use dft_base::Name;
use dft_cells::Role;
use dft_netlist::{Design, InstanceId, NetDriver, NetId};
use dft_stitch::{Chains, Planned};
use std::alloc::{AllocError, Global};

// What a net is set to before it is settled.
#[derive(Clone, Copy)]
pub(crate) enum Setting {
    // The bit that a pattern gives an input port.
    Input,
    // The bit of a reset or set, which is 1.
    Reset,
    // The bit of a clock port, which is 0.
    Clock,
    // The bit of the cell of this number, as they are counted chain by chain, or its inverse.
    Cell(usize, bool),
    // Nothing that is known.
    Unknown,
}

// For each net whether one of these names stands for it, as the bit of an input port.
pub(crate) fn flags(alloc: Global, design: &Design, names: &[Name]) -> Result<Vec<bool>, AllocError>
    ensures { IfOk result (λ flags. AreFlags design.now names.now flags.items) }
{
    let mut flags = vec![in alloc; false; design.net_count() as usize]?;
    for name in names {
        if let Some(net) = design.input(name.as_slice()) {
            flags[net.0 as usize] = true;
        }
    }
    Ok(flags)
}

// What the bit of an input port is set to.
fn port_setting(clock: bool, reset: bool) -> Setting
    ensures { result ≡ spec.port_setting clock reset }
{
    if clock {
        Setting::Clock
    } else if reset {
        Setting::Reset
    } else {
        Setting::Input
    }
}

// What the output of an instance is set to, which may be a cell of the chains.
fn cell_setting(chains: &Chains, starts: &[usize], instance: InstanceId, inverted: bool) -> Setting
    requires starts { AreStarts chains.now.chains starts.now }
    requires small { length (all_cells chains.now.chains) < 2 ^ 64 }
    ensures { IsCellSetting (all_cells chains.now.chains) instance.0 inverted result }
{
    match chains.place_of(instance) {
        Some(at) => {
            let number = starts[usize::from(at.chain)] + usize::from(at.place);
            Setting::Cell(number, inverted)
        }
        None => Setting::Unknown,
    }
}

// Whether the pin of this number of an instance has the inverse of a flip-flop's bit.
fn is_inverted(design: &Design, instance: InstanceId, pin: usize) -> bool
    ensures { result ≡ inverts (slice_get (roles_at design.now instance.0) pin) }
{
    match design.role(instance, pin) {
        Some(Role::Inverted) => true,
        _ => false,
    }
}

// What the settings of nets are found by: a planned design, its clocks and its resets by net, and how many cells stand before
// each chain's.
#[derive(Clone, Copy)]
pub(crate) struct Finding<'a> {
    pub planned: &'a Planned<'a>,
    pub clocks: &'a [bool],
    pub resets: &'a [bool],
    pub starts: &'a [usize],
}

// What a net is set to.
fn setting_of(found: &Finding<'_>, net: NetId) -> Setting
    requires net { net.0 < length found.now.planned.now.design.nets }
    requires clocks { length found.now.clocks.now ≡ length found.now.planned.now.design.nets }
    requires resets { length found.now.resets.now ≡ length found.now.planned.now.design.nets }
    requires starts { AreStarts (plan_of found.now.planned.now.design found.now.planned.now.config).chains found.now.starts.now }
    requires small { length (all_cells (plan_of found.now.planned.now.design found.now.planned.now.config).chains) < 2 ^ 64 }
    ensures { IsSetting found.now.planned.now.design found.now.clocks.now found.now.resets.now (all_cells (plan_of found.now.planned.now.design found.now.planned.now.config).chains) net.0 result }
{
    let design = found.planned.design();
    match design.driver(net) {
        NetDriver::Input => {
            port_setting(found.clocks[net.0 as usize], found.resets[net.0 as usize])
        }
        NetDriver::Pin { instance, pin } => {
            let inverted = is_inverted(design, instance, pin);
            cell_setting(found.planned.chains(), found.starts, instance, inverted)
        }
        NetDriver::Join(_) | NetDriver::Nothing => Setting::Unknown,
    }
}

// What each net is set to.
pub(crate) fn settings(alloc: Global, found: &Finding<'_>) -> Result<Vec<Setting>, AllocError>
    requires clocks { length found.now.clocks.now ≡ length found.now.planned.now.design.nets }
    requires resets { length found.now.resets.now ≡ length found.now.planned.now.design.nets }
    requires starts { AreStarts (plan_of found.now.planned.now.design found.now.planned.now.config).chains found.now.starts.now }
    requires small { length (all_cells (plan_of found.now.planned.now.design found.now.planned.now.config).chains) < 2 ^ 64 }
    ensures { IfOk result (λ settings. AreSettings found.now.planned.now.design found.now.clocks.now found.now.resets.now (all_cells (plan_of found.now.planned.now.design found.now.planned.now.config).chains) settings.items) }
{
    let mut settings = Vec::new(alloc);
    for net in 0..found.planned.design().net_count() {
        settings.push(setting_of(found, NetId(net)))?;
    }
    Ok(settings)
}
