//! What a search finds by net and by instance in a planned design.

ghost use Rattle.std.specs.Prelude.{◌≡◌, ◌||◌, ◌&&◌, ◌++◌, ℕ, ◌<◌, ◌^◌, length, replicate, filter, not, false, IfOk, OnOk};
ghost use Rattle.dft_base.specs.declared.tri.Tri.TheVariants.{Unknown};
ghost use Rattle.std.specs.List.{list_any, AllByRecursion};
ghost use Rattle.dft_stitch.specs.Chains as chains_of;
ghost use Rattle.dft_expect.specs.Captures.{bits_out, output_bits};
ghost use Rattle.dft_expect.specs.Loaded.{all_cells};
ghost use Rattle.dft_logic.specs.Circuit.{flag_at as is_up, meaning, op_at};
ghost use Rattle.dft_seek.specs.Searches as spec;
ghost use Rattle.dft_seek.specs.Searches.{has_cell, is_of, input_bits};
ghost use Rattle.dft_seek.specs.SoughtFaults.{is_named};
ghost use Rattle.dft_seek.specs.Steps.{is_input_of};

use dft_base::{Name, Tri};
use dft_logic::{Op, flag_at};
use dft_netlist::{Design, Dir, InstanceId, NetId, Port};
use dft_rules::Verdicts;
use dft_stitch::{Chains, clock_of};
use std::alloc::{AllocError, Global};

// So many flags that are down.
pub(crate) fn lowered(alloc: Global, count: usize) -> Result<Vec<bool>, AllocError>
    ensures { IfOk result (λ flags. flags.items ≡ replicate count false) }
{
    vec![in alloc; false; count]
}

// So many values that are not known.
pub(crate) fn unknown(alloc: Global, count: usize) -> Result<Vec<Tri>, AllocError>
    ensures { IfOk result (λ values. values.items ≡ replicate count Unknown) }
{
    vec![in alloc; Tri::Unknown; count]
}

// For each net whether one of these names stands for it, as the bit of an input port.
pub(crate) fn named(alloc: Global, design: &Design, names: &[Name]) -> Result<Vec<bool>, AllocError>
    ensures size { IfOk result (λ flags. length flags.items ≡ length design.now.nets) }
    ensures each { IfOk result (λ flags. (net : ℕ) → is_up flags.items net ≡ is_named design.now names.now net) }
{
    let mut flags = vec![in alloc; false; design.net_count() as usize]?;
    for name in names {
        if let Some(net) = design.input(name.as_slice()) {
            flags[net.0 as usize] = true;
        }
    }
    Ok(flags)
}

// The cells of all chains, by chain and place.
pub(crate) fn cells(alloc: Global, chains: &Chains) -> Result<Vec<InstanceId>, AllocError>
    ensures { IfOk result (λ cells. cells.items ≡ all_cells chains.now.chains) }
{
    let mut cells = Vec::new(alloc);
    for chain in 0..chains.count() {
        cells.extend_from_slice(chains.chain(chain))?;
    }
    Ok(cells)
}

// Flags cells, by instance.
fn flag_all(cells: &[InstanceId], flags: &mut [bool])
    requires { AllByRecursion (λ cell. cell.0 < length flags.old) cells.now }
    ensures size { length flags.new ≡ length flags.old }
    ensures each { (c : ℕ) → is_up flags.new c ≡ (is_up flags.old c || has_cell cells.now c) }
{
    for cell in cells {
        flags[cell.0 as usize] = true;
    }
}

// For so many instances whether each is one of these cells.
pub(crate) fn held(
    alloc: Global,
    cells: &[InstanceId],
    count: usize,
) -> Result<Vec<bool>, AllocError>
    requires { AllByRecursion (λ cell. cell.0 < count) cells.now }
    ensures size { IfOk result (λ flags. length flags.items ≡ count) }
    ensures each { IfOk result (λ flags. (c : ℕ) → is_up flags.items c ≡ has_cell cells.now c) }
{
    let mut flags = lowered(alloc, count)?;
    flag_all(cells, &mut flags);
    Ok(flags)
}

// Whether the clock of a cell is that of a domain, with this edge.
fn takes(verdicts: &Verdicts, domain: u8, falling: bool, cell: InstanceId) -> bool
    ensures { result ≡ is_of domain falling (chains_of.clock_of verdicts.now cell) }
{
    match clock_of(verdicts, cell) {
        Some(clock) => clock.domain == domain && clock.falling == falling,
        None => false,
    }
}

// Whether an instance is flagged and has the clock of a domain, with this edge.
fn is_taking(
    verdicts: &Verdicts,
    holds: &[bool],
    domain: u8,
    falling: bool,
    cell: InstanceId,
) -> bool
    ensures { result ≡ (is_up holds.now cell.0 && is_of domain falling (chains_of.clock_of verdicts.now cell)) }
{
    flag_at(holds, cell.0) && takes(verdicts, domain, falling, cell)
}

// For each instance whether it is flagged and has the clock of a domain, with this edge.
pub(crate) fn taking(
    alloc: Global,
    verdicts: &Verdicts,
    holds: &[bool],
    domain: u8,
    falling: bool,
) -> Result<Vec<bool>, AllocError>
    requires { length holds.now < 2 ^ 32 }
    ensures size { IfOk result (λ flags. length flags.items ≡ length holds.now) }
    ensures each { IfOk result (λ flags. (c : ℕ) → is_up flags.items c ≡ (is_up holds.now c && is_of domain falling (chains_of.clock_of verdicts.now (record { 0 = c })))) }
{
    let mut flags = Vec::new(alloc);
    for number in 0..holds.len() {
        let own = is_taking(verdicts, holds, domain, falling, InstanceId(number as u32));
        flags.push(own)?;
    }
    Ok(flags)
}

// Whether one of these cells is flagged.
pub(crate) fn any_cell(cells: &[InstanceId], flags: &[bool]) -> bool
    ensures { result ≡ list_any (λ cell. is_up flags.now cell.0) cells.now }
{
    cells.iter().any(|cell| flag_at(flags, cell.0))
}

// Whether both hold.
fn both(one: bool, other: bool) -> bool
    ensures { result ≡ (one && other) }
{
    one && other
}

// For so many instances whether each is flagged, if any is to be.
pub(crate) fn passing(alloc: Global, any: bool, flags: &[bool]) -> Result<Vec<bool>, AllocError>
    ensures size { IfOk result (λ passed. length passed.items ≡ length flags.now) }
    ensures each { IfOk result (λ passed. (c : ℕ) → is_up passed.items c ≡ (any && is_up flags.now c)) }
{
    let mut passed = Vec::new(alloc);
    for flag in flags {
        passed.push(both(any, *flag))?;
    }
    Ok(passed)
}

// Whether a cell has one flag or the other.
fn has_either(one: &[bool], other: &[bool], cell: InstanceId) -> bool
    ensures { result ≡ (is_up one.now cell.0 || is_up other.now cell.0) }
{
    flag_at(one, cell.0) || flag_at(other, cell.0)
}

// Those of the cells that have one flag or the other.
pub(crate) fn flagged_cells(
    alloc: Global,
    cells: &[InstanceId],
    one: &[bool],
    other: &[bool],
) -> Result<Vec<InstanceId>, AllocError>
    ensures { IfOk result (λ flagged. flagged.items ≡ filter (λ cell. is_up one.now cell.0 || is_up other.now cell.0) cells.now) }
{
    let mut flagged = Vec::new(alloc);
    for cell in cells {
        if has_either(one, other, *cell) {
            flagged.push(*cell)?;
        }
    }
    Ok(flagged)
}

// Adds the bits of an output port.
fn add_outputs(nets: &mut Vec<NetId>, port: &Port) -> Result<(), AllocError>
    ensures { OnOk result (nets.new.items ≡ nets.old.items ++ bits_out port.now.dir port.now.bits) }
{
    match port.dir {
        Dir::Input => Ok(()),
        Dir::Output => {
            nets.extend_from_slice(port.bits.as_slice())?;
            Ok(())
        }
    }
}

// The bits of the output ports, in order.
pub(crate) fn outputs(alloc: Global, ports: &[Port]) -> Result<Vec<NetId>, AllocError>
    ensures { IfOk result (λ nets. nets.items ≡ output_bits ports.now) }
{
    let mut nets = Vec::new(alloc);
    for port in ports {
        add_outputs(&mut nets, port)?;
    }
    Ok(nets)
}

// Adds the bits of an input port.
fn add_inputs(nets: &mut Vec<NetId>, port: &Port) -> Result<(), AllocError>
    ensures { OnOk result (nets.new.items ≡ nets.old.items ++ spec.bits_in port.now.dir port.now.bits) }
{
    match port.dir {
        Dir::Output => Ok(()),
        Dir::Input => {
            nets.extend_from_slice(port.bits.as_slice())?;
            Ok(())
        }
    }
}

// The bits of the input ports, in order.
pub(crate) fn inputs(alloc: Global, ports: &[Port]) -> Result<Vec<NetId>, AllocError>
    ensures { IfOk result (λ nets. nets.items ≡ input_bits ports.now) }
{
    let mut nets = Vec::new(alloc);
    for port in ports {
        add_inputs(&mut nets, port)?;
    }
    Ok(nets)
}

// Whether a net is the bit of an input port that is no clock.
fn is_input(ops: &[Op], net: NetId) -> bool
    ensures { result ≡ is_input_of (meaning (op_at ops.now net.0)) }
{
    match ops.get(net.0 as usize) {
        Some(Op::Input) => true,
        _ => false,
    }
}

// Whether a net is the bit of an input port that is neither clock nor reset.
fn is_drivable(ops: &[Op], resets: &[bool], net: NetId) -> bool
    ensures { result ≡ (is_input_of (meaning (op_at ops.now net.0)) && not (is_up resets.now net.0)) }
{
    is_input(ops, net) && !flag_at(resets, net.0)
}

// Those of the nets that are the bits of input ports, and neither clocks nor resets.
pub(crate) fn drivable(
    alloc: Global,
    ops: &[Op],
    nets: &[NetId],
    resets: &[bool],
) -> Result<Vec<NetId>, AllocError>
    ensures { IfOk result (λ ports. ports.items ≡ filter (λ net. is_input_of (meaning (op_at ops.now net.0)) && not (is_up resets.now net.0)) nets.now) }
{
    let mut ports = Vec::new(alloc);
    for net in nets {
        if is_drivable(ops, resets, *net) {
            ports.push(*net)?;
        }
    }
    Ok(ports)
}
