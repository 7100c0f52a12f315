//! The ports and nets of one of several modules, by their final numbers.

ghost use Rattle.std.specs.Prelude.{◌≡◌, ◌+◌, ◌<◌, ◌≤◌, ◌^◌, [], ◌∷◌, length, Some, unwrap_or, IfOk, OnOk};
ghost use Rattle.std.specs.List.{All};
ghost use Rattle.dft_base.specs.Ranges.{going_up};
ghost use Rattle.dft_modules.specs.ModuleTexts as spec;
ghost use Rattle.dft_netlist.specs.NetNumbers.{nets_from};
ghost use Rattle.dft_verilog_draft.specs.Drafts.{IsDeclaredWithin};
ghost use Rattle.dft_verilog.specs.FinalNets.{name_unless, without_number, all_numbered};
ghost use Rattle.dft_verilog.specs.SaidParts.{with_nets, with_port, with_ports, next_number};

use crate::final_nets::net_count;
use dft_base::Name;
use dft_modules::Module;
use dft_netlist::{MAX_PORTS, NetId, NetIds, Port};
use dft_netlist_text::Declared;
use dft_verilog_draft::HeaderPort;
use dft_verilog_tokens::Word;
use std::alloc::{AllocError, Global};

// So many nets with numbers from this one on.
fn counted(alloc: Global, first: usize, count: usize) -> Result<NetIds, AllocError>
    requires { first + count ≤ 2 ^ 32 }
    ensures { IfOk result (λ nets. nets ≡ nets_from first count) }
{
    let mut nets = NetIds::new(alloc);
    for place in 0..count {
        nets.push(NetId((first + place) as u32))?;
    }
    Ok(nets)
}

// Adds a net of this name.
fn add_named(alloc: Global, made: &mut Module, name: &Word<'_>) -> Result<(), AllocError>
    ensures { OnOk result (made.new ≡ with_nets (name.now ∷ []) made.old) }
{
    let name = Name::from_slice(alloc, name.as_slice())?;
    made.add_net(name)?;
    Ok(())
}

// Adds nets with these numbers one after another, by their names.
fn add_run(
    alloc: Global,
    made: &mut Module,
    names: &[Word<'_>],
    first: usize,
    count: usize,
) -> Result<(), AllocError>
    requires { first + count ≤ length names.now }
    ensures made { OnOk result (made.new ≡ with_nets (spec.names_in_order (going_up first count) names.now) made.old) }
    ensures count { OnOk result (length made.new.nets ≡ length made.old.nets + count) }
{
    for bit in 0..count {
        let net = first + bit;
        add_named(alloc, made, &names[net])?;
    }
    Ok(())
}

// Adds a port that was declared so, with its nets.
fn add_declared(
    alloc: Global,
    made: &mut Module,
    names: &[Word<'_>],
    name: &Name,
    declared: Declared,
) -> Result<(), AllocError>
    requires within { IsDeclaredWithin (length names.now) (Some declared) }
    requires few { length made.old.nets + 65536 ≤ 2 ^ 32 }
    ensures made { OnOk result (made.new ≡ with_port names.now name.now (Some declared) made.old) }
    ensures few { OnOk result (length made.new.nets ≤ length made.old.nets + 65536) }
{
    let range = declared.shape.range;
    let count = net_count(range);
    let name = name.copy(alloc)?;
    let bits = counted(alloc, made.nets().len(), count)?;
    made.add_port(Port {
        name,
        dir: declared.dir,
        range,
        bits,
    })?;
    add_run(alloc, made, names, declared.shape.first.0 as usize, count)
}

// Adds a port with its nets, if it was declared.
fn add_port(
    alloc: Global,
    made: &mut Module,
    names: &[Word<'_>],
    name: &Name,
    declared: Option<Declared>,
) -> Result<(), AllocError>
    requires within { IsDeclaredWithin (length names.now) declared }
    requires few { length made.old.nets + 65536 ≤ 2 ^ 32 }
    ensures made { OnOk result (made.new ≡ with_port names.now name.now declared made.old) }
    ensures few { OnOk result (length made.new.nets ≤ length made.old.nets + 65536) }
{
    match declared {
        Some(declared) => add_declared(alloc, made, names, name, declared),
        None => Ok(()),
    }
}

/// Adds the ports of a header with their nets.
pub fn add_ports(
    alloc: Global,
    made: &mut Module,
    names: &[Word<'_>],
    ports: &[HeaderPort],
) -> Result<(), AllocError>
    requires none { length made.old.nets ≡ 0 }
    requires few { length ports.now ≤ MAX_PORTS }
    requires within { All (λ p. IsDeclaredWithin (length names.now) p.declared) ports.now }
    ensures made { OnOk result (made.new ≡ with_ports names.now ports.now made.old) }
    ensures few { OnOk result (length made.new.nets ≤ 2 ^ 31) }
{
    for port in ports {
        add_port(alloc, made, names, port.name(), port.declared())?;
    }
    Ok(())
}

// Adds a net by its name, if it has no number.
fn add_unnumbered(
    alloc: Global,
    made: &mut Module,
    name: &Word<'_>,
    number: Option<NetId>,
) -> Result<(), AllocError>
    ensures { OnOk result (made.new ≡ with_nets (name_unless number name.now) made.old) }
{
    match number {
        Some(_) => Ok(()),
        None => add_named(alloc, made, name),
    }
}

/// Adds the nets that have no number, by their names.
pub fn add_others(
    alloc: Global,
    made: &mut Module,
    names: &[Word<'_>],
    numbers: &[Option<NetId>],
) -> Result<(), AllocError>
    requires { length names.now ≡ length numbers.now }
    ensures { OnOk result (made.new ≡ with_nets (without_number names.now numbers.now) made.old) }
{
    for (net, number) in numbers.iter().enumerate() {
        add_unnumbered(alloc, made, &names[net], *number)?;
    }
    Ok(())
}

// The number of a net, or this one where it has none.
fn number_or(number: Option<NetId>, next: u32) -> NetId
    ensures { result ≡ unwrap_or number (record { 0 = next }) }
{
    match number {
        Some(net) => net,
        None => NetId(next),
    }
}

// Which number is the next behind a net with this number, or without one.
fn next_behind(number: Option<NetId>, next: u32) -> u32
    requires { next + 1 < 2 ^ 32 }
    ensures { result ≡ next_number next number }
{
    match number {
        Some(_) => next,
        None => next + 1,
    }
}

/// The numbers of all nets, where those that had none get numbers from `first` on.
pub fn all_numbers(
    alloc: Global,
    numbers: &[Option<NetId>],
    first: usize,
) -> Result<Vec<NetId>, AllocError>
    requires { first + length numbers.now < 2 ^ 32 }
    ensures { IfOk result (λ finals. finals.items ≡ all_numbered first numbers.now) }
{
    let mut finals = Vec::with_capacity(alloc, numbers.len())?;
    let mut next = first as u32;
    for number in numbers {
        finals.push(number_or(*number, next))?;
        next = next_behind(*number, next);
    }
    Ok(finals)
}
