//! The ports of the design itself.

ghost use Rattle.std.specs.Prelude.{◌≡◌, ◌++◌, false, get_or, map, None, IfOk, OnOk};
ghost use Rattle.std.specs.List.{list_any};
ghost use Rattle.dft_netlist.specs.Netlist.{Netlist};
ghost use Rattle.dft_config.specs.Config.{Config};
ghost use Rattle.dft_rules.specs.Rules as rules;
ghost use Rattle.dft_expect.specs.Captures as captures;
ghost use Rattle.dft_expect.specs.Captures.{vector_of};
ghost use Rattle.dft_vectors.specs.OwnPorts as spec;
ghost use Rattle.dft_vectors.specs.OwnPorts.{inputs_by, quiet_vector};
ghost use Rattle.dft_vectors.specs.Tables.{AreOwn, nets_named};

use crate::acts::{driven, port_value};
use crate::bits;
use dft_base::Name;
use dft_config::Config;
use dft_cubes::Merged;
use dft_netlist::{Design, NetId};
use dft_patterns::Act;
use std::alloc::{AllocError, Global};

// A bit of an input port, and whether it is a clock or a reset.
#[derive(Clone, Copy)]
pub(crate) struct OwnInput {
    pub(crate) net: NetId,
    pub(crate) is_clock: bool,
    pub(crate) is_reset: bool,
}

// What is looked up once of the design's ports.
pub(crate) struct OwnPorts {
    // The nets of the clocks, in the order of the configuration.
    pub(crate) clocks: Vec<Option<NetId>>,
    // The bits of the input ports.
    pub(crate) inputs: Vec<OwnInput>,
    // What a shift vector does at them.
    pub(crate) pulsing: Vec<Act>,
    // How many bits the output ports have.
    pub(crate) outputs: usize,
    // How many nets the design has.
    pub(crate) nets: usize,
}

// One call for all fields, so that the proof of what owns a value stays short.
impl Drop for OwnPorts {
    fn drop(self) {
        let OwnPorts {
            clocks: _,
            inputs: _,
            pulsing: _,
            outputs: _,
            nets: _,
        } = self;
    }
}

// What the ports of a design are for.
pub(crate) fn own_ports(
    alloc: Global,
    design: &Design,
    config: &Config,
) -> Result<OwnPorts, AllocError>
    ensures { IfOk result (AreOwn design.now config.now) }
{
    let ports = design.ports();
    let nets = bits::inputs(alloc, ports)?;
    let clocks = nets_named(alloc, design, config.domains())?;
    let resets = nets_named(alloc, design, config.resets())?;
    let inputs = own_inputs(alloc, &nets, &clocks, &resets)?;
    let pulsing = pulsing(alloc, &inputs)?;
    let outputs = bits::outputs(alloc, ports)?.len();
    Ok(OwnPorts {
        clocks,
        inputs,
        pulsing,
        outputs,
        nets: design.net_count() as usize,
    })
}

// The nets of these names.
fn nets_named(
    alloc: Global,
    design: &Design,
    names: &[Name],
) -> Result<Vec<Option<NetId>>, AllocError>
    ensures { IfOk result (λ nets. nets.items ≡ nets_named design.now names.now) }
{
    names
        .iter()
        .map(|name| design.input(name.as_slice()))
        .collect(alloc)
}

fn is_net(found: Option<NetId>, net: NetId) -> bool
    ensures { result ≡ rules.is_net net.0 found }
{
    match found {
        Some(other) => other.0 == net.0,
        None => false,
    }
}

fn is_among(found: &[Option<NetId>], net: NetId) -> bool
    ensures { result ≡ list_any (rules.is_net net.0) found.now }
{
    found.iter().any(|other| is_net(*other, net))
}

// What these bits of input ports are for.
fn own_inputs(
    alloc: Global,
    nets: &[NetId],
    clocks: &[Option<NetId>],
    resets: &[Option<NetId>],
) -> Result<Vec<OwnInput>, AllocError>
    ensures { IfOk result (λ inputs. inputs.items ≡ map (λ net. record { net = net; is_clock = list_any (rules.is_net net.0) clocks.now; is_reset = list_any (rules.is_net net.0) resets.now }) nets.now) }
{
    nets.iter()
        .map(|net| OwnInput {
            net: *net,
            is_clock: is_among(clocks, *net),
            is_reset: is_among(resets, *net),
        })
        .collect(alloc)
}

// What a vector does at the design's inputs in which every clock pulses.
fn pulsing(alloc: Global, inputs: &[OwnInput]) -> Result<Vec<Act>, AllocError>
    ensures { IfOk result (λ acts. acts.items ≡ map (λ input. spec.driven input.is_clock (captures.port_value input.is_reset None)) inputs.now) }
{
    inputs
        .iter()
        .map(|input| driven(input.is_clock, port_value(input.is_reset, None)))
        .collect(alloc)
}

// Adds what the set-up vector does at the design's inputs.
pub(crate) fn push_quiet(acts: &mut Vec<Act>, inputs: &[OwnInput]) -> Result<(), AllocError>
    ensures { OnOk result (acts.new.items ≡ acts.old.items ++ map (λ input. spec.driven false (captures.port_value input.is_reset None)) inputs.now) }
{
    for input in inputs {
        acts.push(driven(false, port_value(input.is_reset, None)))?;
    }
    Ok(())
}

fn bit_of(given: &[Option<bool>], net: NetId) -> Option<bool>
    ensures { result ≡ get_or given.now net.0 None }
{
    match given.get(net.0 as usize) {
        Some(bit) => *bit,
        None => None,
    }
}

fn clock_at(clocks: &[Option<NetId>], domain: u8) -> Option<NetId>
    ensures { result ≡ get_or clocks.now domain None }
{
    match clocks.get(usize::from(domain)) {
        Some(net) => *net,
        None => None,
    }
}

// Adds what a capture vector does at inputs, where this clock pulses and these bits are given by net.
fn push_given(
    acts: &mut Vec<Act>,
    inputs: &[OwnInput],
    clock: Option<NetId>,
    given: &[Option<bool>],
) -> Result<(), AllocError>
    ensures { OnOk result (acts.new.items ≡ acts.old.items
        ++ map (λ input. spec.driven (rules.is_net input.net.0 clock) (captures.port_value input.is_reset (get_or given.now input.net.0 None))) inputs.now) }
{
    for input in inputs {
        let value = port_value(input.is_reset, bit_of(given, input.net));
        acts.push(driven(is_net(clock, input.net), value))?;
    }
    Ok(())
}

// Adds what a capture vector of a pattern, in which the clock of a domain pulses, does at the design's inputs.
pub(crate) fn push_captured(
    alloc: Global,
    acts: &mut Vec<Act>,
    own: &OwnPorts,
    merged: &Merged,
    domain: u8,
) -> Result<(), AllocError>
    ensures { OnOk result ((n : Netlist) (config : Config) → AreOwn n config own.now
        → acts.new.items ≡ acts.old.items ++ inputs_by n (vector_of n config merged.now domain)) }
{
    let clock = clock_at(&own.clocks, domain);
    let given = bits::given_bits(alloc, own.nets, merged.ports.as_slice())?;
    push_given(acts, &own.inputs, clock, &given)?;
    Ok(())
}
