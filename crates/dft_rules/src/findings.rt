//! What the names of a configuration stand for in a design.

ghost use Rattle.std.specs.Prelude.{◌≡◌, ◌≤◌, None, IfOk, IfErr, length};
ghost use Rattle.dft_rules.specs.Findings as at;
ghost use Rattle.dft_rules.specs.Findings.{AreKept, AreNets, place_among};
ghost use Rattle.dft_rules.specs.Refusals.{IsRefusal, unknown_cell, unknown_port};
ghost use Rattle.dft_rules.specs.Rules as spec;

use crate::cells::may_be_scanned;
use crate::error::RuleError;
use dft_base::Name;
use dft_behavior::{ClockRoot, NetRoot, Root, clock_in, root_in};
use dft_netlist::{Design, InstanceId, NetId, Signal};
use std::alloc::{AllocError, Global};

// What is looked up once, before flip-flops are judged.
#[derive(Debug)]
pub(crate) struct Findings {
    // The nets of the domains, in the order of the configuration.
    pub(crate) domains: Vec<NetId>,
    // The nets of the resets.
    pub(crate) resets: Vec<NetId>,
    // Whether each instance is kept, by its number.
    pub(crate) kept: Vec<bool>,
    // The root of each net, by its number.
    pub(crate) roots: Vec<NetRoot>,
}

// One call for all fields, so that the proof of what owns a value stays short.
impl Drop for Findings {
    fn drop(self) {
        let Findings {
            domains: _,
            resets: _,
            kept: _,
            roots: _,
        } = self;
    }
}

// The bits of input ports that these names stand for.
pub(crate) fn input_nets(
    alloc: Global,
    design: &Design,
    names: &[Name],
) -> Result<Vec<NetId>, RuleError>
    ensures found { IfOk result (λ nets. AreNets design.now names.now nets.items) }
    ensures known { IfOk result (λ nets. unknown_port design.now names.now ≡ None) }
    ensures refused { IfErr result (IsRefusal (unknown_port design.now names.now)) }
{
    let mut nets = Vec::new(alloc);
    for name in names {
        match design.input(name.as_slice()) {
            Some(net) => nets.push(net)?,
            None => return Err(unknown(alloc, name)?),
        }
    }
    Ok(nets)
}

// Marks the flip-flops with these names.
pub(crate) fn kept_cells(
    alloc: Global,
    design: &Design,
    names: &[Name],
) -> Result<Vec<bool>, RuleError>
    ensures found { IfOk result (λ marks. AreKept design.now names.now marks.items) }
    ensures known { IfOk result (λ marks. unknown_cell design.now names.now ≡ None) }
    ensures refused { IfErr result (IsRefusal (unknown_cell design.now names.now)) }
{
    let mut marks = vec![in alloc; false; design.instances().len()]?;
    for name in names {
        match flip_flop_named(design, name.as_slice()) {
            Some(instance) => marks[instance.0 as usize] = true,
            None => return Err(unknown(alloc, name)?),
        }
    }
    Ok(marks)
}

// The flip-flop with this name.
fn flip_flop_named(design: &Design, name: &[u8]) -> Option<InstanceId>
    ensures { result ≡ spec.flip_flop_named design.now name.now }
{
    let id = design.find_instance(name)?;
    if may_be_scanned(design.kind(id)) {
        Some(id)
    } else {
        None
    }
}

fn unknown(alloc: Global, name: &Name) -> Result<RuleError, AllocError>
    ensures { IfOk result (λ error. error ≡ RuleError.UnknownName name.now) }
{
    Ok(RuleError::UnknownName {
        name: name.copy(alloc)?,
    })
}

// The clock at a clock pin that is joined to this: the place of its domain, and whether it is inverted.
pub(crate) fn clock_at(
    domains: &[NetId],
    roots: &[NetRoot],
    pin: Option<Signal>,
) -> Option<(u8, bool)>
    requires { length domains.now ≤ 16 }
    ensures { result ≡ at.clock_at domains.now roots.now pin }
{
    match pin {
        Some(signal) => clock_place(domains, clock_in(roots, signal)),
        None => None,
    }
}

// The place of a shown clock's port among nets, and whether the clock is inverted.
pub(crate) fn clock_place(nets: &[NetId], clock: Option<ClockRoot>) -> Option<(u8, bool)>
    requires { length nets.now ≤ 16 }
    ensures { result ≡ at.clock_place nets.now clock }
{
    match clock {
        Some(clock) => match place_of_net(nets, clock.port) {
            Some(place) => Some((place, clock.inverted)),
            None => None,
        },
        None => None,
    }
}

// Whether the reset and the set are held at 1 while the resets are.
pub(crate) fn are_held(
    resets: &[NetId],
    roots: &[NetRoot],
    reset: Option<Signal>,
    preset: Option<Signal>,
) -> bool
    requires { length resets.now ≤ 16 }
    ensures { result ≡ at.are_held_by resets.now roots.now reset preset }
{
    is_signal_held(resets, roots, reset) && is_signal_held(resets, roots, preset)
}

fn is_signal_held(resets: &[NetId], roots: &[NetRoot], signal: Option<Signal>) -> bool
    requires { length resets.now ≤ 16 }
    ensures { result ≡ at.is_signal_held resets.now roots.now signal }
{
    match signal {
        Some(signal) => is_held(resets, root_in(roots, signal)),
        None => true,
    }
}

fn is_held(resets: &[NetId], root: Root) -> bool
    requires { length resets.now ≤ 16 }
    ensures { result ≡ at.is_held_at resets.now root }
{
    match root {
        Root::Port(_) => place_of(resets, root).is_some(),
        Root::Constant(bit) => bit,
        Root::Other => false,
    }
}

// The place of a root among nets.
fn place_of(nets: &[NetId], root: Root) -> Option<u8>
    requires { length nets.now ≤ 16 }
    ensures { result ≡ place_among nets.now root }
{
    match root {
        Root::Port(net) => place_of_net(nets, net),
        _ => None,
    }
}

fn place_of_net(nets: &[NetId], net: NetId) -> Option<u8>
    requires { length nets.now ≤ 16 }
    ensures { result ≡ place_among nets.now (Root.Port net) }
{
    for (place, other) in nets.iter().enumerate() {
        if other.0 == net.0 {
            return Some(place as u8);
        }
    }
    None
}
