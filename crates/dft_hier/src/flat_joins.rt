//! Joins and instances of modules by the numbers and names of the flat design.

ghost use Rattle.std.specs.Prelude.{◌≡◌, ◌<◌, ◌+◌, ◌^◌, ◌++◌, [], ◌∷◌, None, Some, ◌⊎◌, map, option_map, slice_get, IfOk, IfSome, IfNone, OnOk};
ghost use Rattle.std.specs.List.{All};
ghost use Rattle.dft_hier.specs.Flat as spec;
ghost use Rattle.dft_hier.specs.Flat.{add_instances, bit_joins, connection_joins, moved_instance, moved_join, port_joins};
ghost use Rattle.dft_hier.specs.Growing.{Grows, IsPrefix};
ghost use Rattle.dft_hier.specs.Moving.{AreBitsWritable, AreJoinsOf, AreWritable, IsInstanceIn, IsWritable, connection_names, with_joins};
ghost use Rattle.dft_numbered.specs.Numbers.{Finds};
ghost use Rattle.dft_netlist.specs.Sound.{IsJoinOf};

use crate::flat_nets::prefixed;
use dft_base::Name;
use dft_modules::Connection;
use dft_netlist::{
    DesignBuilder, Dir, Instance, Join, NetId, NetlistError, PinSignals, Port, Signal,
};
use dft_numbered::Numbered;
use std::alloc::{AllocError, Global};

// A net of a module whose first net has this number.
fn moved_net(first: usize, net: NetId) -> NetId
    requires { first + net.0 < 2 ^ 32 }
    ensures { result ≡ spec.moved_net first net }
{
    NetId((first + net.0 as usize) as u32)
}

// A signal of such a module.
fn moved(first: usize, signal: Signal) -> Signal
    requires { IsWritable first signal }
    ensures { result ≡ spec.moved first signal }
{
    match signal {
        Signal::Net(net) => Signal::Net(moved_net(first, net)),
        Signal::Constant(bit) => Signal::Constant(bit),
        Signal::Unconnected => Signal::Unconnected,
    }
}

// The pins of an instance of such a module.
fn moved_pins(alloc: Global, first: usize, pins: &[Signal]) -> Result<PinSignals, AllocError>
    requires { AreWritable first pins.now }
    ensures { IfOk result (λ signals. signals ≡ map (spec.moved first) pins.now) }
{
    let mut signals = PinSignals::new(alloc);
    for pin in pins {
        signals.push(moved(first, *pin))?;
    }
    Ok(signals)
}

// The name of an instance behind a prefix, if it has one.
fn moved_name(alloc: Global, prefix: &[u8], name: &Option<Name>) -> Result<Option<Name>, AllocError>
    requires { IsPrefix prefix.now }
    ensures { IfOk result (λ whole. whole ≡ option_map (λ own. prefix.now ++ own) name.now) }
{
    match name {
        Some(name) => Ok(Some(prefixed(alloc, prefix, name)?)),
        None => Ok(None),
    }
}

/// Adds an instance of a cell or a gate of a module whose first net has this number, behind a prefix of names.
pub fn add_cell(
    alloc: Global,
    builder: &mut DesignBuilder,
    prefix: &[u8],
    first: usize,
    instance: &Instance,
) -> Result<(), NetlistError>
    requires prefix { IsPrefix prefix.now }
    requires fits { IsInstanceIn builder.old (moved_instance prefix.now first instance.now) }
    requires writable { AreWritable first instance.now.pins }
    ensures { Grows (add_instances (moved_instance prefix.now first instance.now ∷ []) builder.old) result builder.new }
{
    let name = moved_name(alloc, prefix, &instance.name)?;
    let pins = moved_pins(alloc, first, instance.pins.as_slice())?;
    builder.instance(name, instance.cell, pins.as_slice())?;
    Ok(())
}

/// Adds a join of such a module.
pub fn add_join(builder: &mut DesignBuilder, first: usize, join: Join) -> Result<(), AllocError>
    requires target { first + join.target.0 < 2 ^ 32 }
    requires source { IsWritable first join.source }
    requires fits { IsJoinOf builder.old (spec.moved_net first join.target) (spec.moved first join.source) }
    ensures { OnOk result (builder.new ≡ with_joins builder.old (moved_join first join ∷ [])) }
{
    builder.join(moved_net(first, join.target), moved(first, join.source))
}

// Adds the join of a bit: an input bit takes what is outside, and a net outside takes an output bit.
fn add_bit_join(
    builder: &mut DesignBuilder,
    dir: Dir,
    bit: NetId,
    outside: Signal,
) -> Result<(), AllocError>
    requires { AreJoinsOf builder.old (bit_joins dir bit outside) }
    ensures { OnOk result (builder.new ≡ with_joins builder.old (bit_joins dir bit outside)) }
{
    match dir {
        Dir::Input => builder.join(bit, outside),
        Dir::Output => match outside {
            Signal::Net(net) => builder.join(net, Signal::Net(bit)),
            Signal::Constant(_) => Ok(()),
            Signal::Unconnected => Ok(()),
        },
    }
}

// The bit and the signal at a place, where both are there.
fn pair_at(bits: &[NetId], signals: &[Signal], place: usize) -> Option<(NetId, Signal)>
    ensures bit { IfSome result (λ pair. slice_get bits.now place ≡ Some pair.0) }
    ensures signal { IfSome result (λ pair. slice_get signals.now place ≡ Some pair.1) }
    ensures none { IfNone result ((slice_get bits.now place ≡ None) ⊎ (slice_get signals.now place ≡ None)) }
{
    match bits.get(place).copied() {
        Some(bit) => match signals.get(place).copied() {
            Some(signal) => Some((bit, signal)),
            None => None,
        },
        None => None,
    }
}

// Adds the joins of a port's bits from the left, where the first net outside and the first inside have these numbers.
fn add_port_joins(
    builder: &mut DesignBuilder,
    outside: usize,
    within: usize,
    port: &Port,
    signals: &[Signal],
) -> Result<(), AllocError>
    requires bits { AreBitsWritable within port.now.bits }
    requires signals { AreWritable outside signals.now }
    requires fits { AreJoinsOf builder.old (port_joins port.now.dir (map (spec.moved_net within) port.now.bits) (map (spec.moved outside) signals.now)) }
    ensures { OnOk result (builder.new ≡ with_joins builder.old (port_joins port.now.dir (map (spec.moved_net within) port.now.bits) (map (spec.moved outside) signals.now))) }
{
    for place in 0..signals.len() {
        match pair_at(port.bits.as_slice(), signals, place) {
            Some((bit, signal)) => {
                let inner = moved_net(within, bit);
                let outer = moved(outside, signal);
                add_bit_join(builder, port.dir, inner, outer)?;
            }
            None => return Ok(()),
        }
    }
    Ok(())
}

// The connections of an instance by the names of their ports.
fn connection_numbers<'a>(
    alloc: Global,
    connections: &'a [Connection],
) -> Result<Numbered<'a>, AllocError>
    ensures { IfOk result (λ numbers. Finds numbers (connection_names connections.now)) }
{
    let mut numbers = Numbered::new(alloc);
    for (number, connection) in connections.iter().enumerate() {
        numbers.put(connection.port.as_slice(), number)?;
    }
    Ok(numbers)
}

// Adds the joins of a port to what it is connected to.
fn add_connection(
    builder: &mut DesignBuilder,
    outside: usize,
    within: usize,
    port: &Port,
    connections: &[Connection],
    numbers: &Numbered<'_>,
) -> Result<(), AllocError>
    requires numbers { Finds numbers.now (connection_names connections.now) }
    requires bits { AreBitsWritable within port.now.bits }
    requires signals { AreWritable outside (spec.joined_to connections.now port.now.name) }
    requires fits { AreJoinsOf builder.old (connection_joins outside within connections.now (port.now ∷ [])) }
    ensures { OnOk result (builder.new ≡ with_joins builder.old (connection_joins outside within connections.now (port.now ∷ []))) }
{
    match numbers.find(port.name.as_slice()) {
        Some(number) => {
            let signals = connections[number].signals.as_slice();
            add_port_joins(builder, outside, within, port, signals)
        }
        None => Ok(()),
    }
}

/// Adds the joins of an instance's connections, in the order of its module's ports, where the first net outside and the first
/// inside have these numbers.
pub fn add_connections(
    alloc: Global,
    builder: &mut DesignBuilder,
    outside: usize,
    within: usize,
    ports: &[Port],
    connections: &[Connection],
) -> Result<(), AllocError>
    requires bits { All (λ port. AreBitsWritable within port.bits) ports.now }
    requires signals { All (λ port. AreWritable outside (spec.joined_to connections.now port.name)) ports.now }
    requires fits { AreJoinsOf builder.old (connection_joins outside within connections.now ports.now) }
    ensures { OnOk result (builder.new ≡ with_joins builder.old (connection_joins outside within connections.now ports.now)) }
{
    let numbers = connection_numbers(alloc, connections)?;
    for port in ports {
        add_connection(builder, outside, within, port, connections, &numbers)?;
    }
    Ok(())
}
