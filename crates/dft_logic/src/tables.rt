//! Tables of lists of numbers: what is listed at each place.

ghost use Rattle.std.specs.Prelude.{◌≡◌, ◌∷◌, [], ◌<◌, ◌^◌, length, map, replicate, IfOk, OnOk};
ghost use Rattle.dft_behavior.specs.Logic.{reads};
ghost use Rattle.dft_netlist.specs.Drivers.{nets_of};
ghost use Rattle.dft_logic.specs.Circuit.{source_at, meaning, op_at, cell_of, cell_at, latch_at, source_places, leaf_domains, latch_domains, force_nets};
ghost use Rattle.dft_logic.specs.Circuit as circuits;
ghost use Rattle.dft_logic.specs.Tables.{list_at, listed, IsAdded, IsTable};

use crate::circuit::{Acting, FlipFlop, Latch, Numbers, Op, Operand};
use crate::packed::{Table, packed};
use crate::values::domain_at;
use dft_netlist::NetId;
use std::alloc::{AllocError, Global};

/// The list at a place, and none past the end.
pub fn list_of(table: &Table, place: NetId) -> &[u32]
    ensures { result.now ≡ list_at table.now place.0 }
{
    table.at(place.0 as usize)
}

// So many empty lists.
fn empty(alloc: Global, count: usize) -> Result<Vec<Numbers>, AllocError>
    ensures { IfOk result (λ table. table.items ≡ replicate count []) }
{
    let mut table = Vec::with_capacity(alloc, count)?;
    for _place in 0..count {
        table.push(Numbers::new(alloc))?;
    }
    Ok(table)
}

// Lists a number at a place of the table; past its end there is none.
fn add(table: &mut Vec<Numbers>, place: NetId, number: u32) -> Result<(), AllocError>
    ensures { OnOk result (IsAdded table.old.items (place.0 ∷ []) number table.new.items) }
{
    if (place.0 as usize) < table.len() {
        table[place.0 as usize].push(number)?;
    }
    Ok(())
}

// Lists a number at a place, if there is one.
fn add_at(table: &mut Vec<Numbers>, place: Option<NetId>, number: u32) -> Result<(), AllocError>
    ensures { OnOk result (IsAdded table.old.items (listed place) number table.new.items) }
{
    match place {
        Some(place) => add(table, place, number),
        None => Ok(()),
    }
}

// The net of an operand, if it is joined to one.
fn net_of(operand: &Operand) -> Option<NetId>
    ensures { listed result ≡ nets_of (source_at operand.now ∷ []) }
{
    match operand {
        Operand::Net(net) => Some(*net),
        _ => None,
    }
}

// Lists a net as a reader of the nets of operands.
fn add_inputs(table: &mut Vec<Numbers>, inputs: &[Operand], reader: u32) -> Result<(), AllocError>
    ensures { OnOk result (IsAdded table.old.items (nets_of (map source_at inputs.now)) reader table.new.items) }
{
    for input in inputs {
        add_at(table, net_of(input), reader)?;
    }
    Ok(())
}

// Lists a net as a reader of the nets that its value is settled from.
fn add_reader(table: &mut Vec<Numbers>, op: &Op, reader: u32) -> Result<(), AllocError>
    ensures { OnOk result (IsAdded table.old.items (reads (meaning op.now)) reader table.new.items) }
{
    match op {
        Op::Gate(_, inputs) => add_inputs(table, inputs.as_slice(), reader),
        Op::Joined(source) | Op::Lockup(_, _, _, source) => add_at(table, net_of(source), reader),
        _ => Ok(()),
    }
}

// The readers of each net.
pub(crate) fn readers(alloc: Global, ops: &[Op]) -> Result<Table, AllocError>
    requires { length ops.now < 2 ^ 32 }
    ensures { IfOk result (λ table. IsTable (length ops.now) (length ops.now) (λ net. reads (meaning (op_at ops.now net))) table) }
{
    let mut table = empty(alloc, ops.len())?;
    for (net, op) in ops.iter().enumerate() {
        add_reader(&mut table, op, net as u32)?;
    }
    let packed = packed(alloc, &table)?;
    Ok(packed)
}

// The domain whose clock, flip-flop or lock-up a net shows.
fn leaf_domain(op: &Op, net: NetId, flops: &[FlipFlop]) -> Option<NetId>
    ensures { listed result ≡ leaf_domains (map cell_of flops.now) net.0 (meaning op.now) }
{
    match op {
        Op::Clock => Some(net),
        Op::Flop(instance, _) => Some(domain_at(flops, instance.0)),
        Op::Lockup(_, domain, _, _) => Some(*domain),
        _ => None,
    }
}

// The one place of a source's table, where a net is a source.
fn source_place(op: &Op) -> Option<NetId>
    ensures { listed result ≡ source_places (meaning op.now) }
{
    match op {
        Op::Input | Op::Clock | Op::Flop(_, _) | Op::Lockup(_, _, _, _) => Some(NetId(0)),
        _ => None,
    }
}

// The sources, in a table of one list: the nets that show an input, a clock, a flip-flop or a lock-up.
pub(crate) fn sources(alloc: Global, ops: &[Op]) -> Result<Table, AllocError>
    requires { length ops.now < 2 ^ 32 }
    ensures { IfOk result (λ table. IsTable 1 (length ops.now) (λ net. source_places (meaning (op_at ops.now net))) table) }
{
    let mut table = empty(alloc, 1)?;
    for (net, op) in ops.iter().enumerate() {
        add_at(&mut table, source_place(op), net as u32)?;
    }
    let packed = packed(alloc, &table)?;
    Ok(packed)
}

// The nets that show the clock of each domain, or a flip-flop or a lock-up of it.
pub(crate) fn leaves(alloc: Global, ops: &[Op], flops: &[FlipFlop]) -> Result<Table, AllocError>
    requires { length ops.now < 2 ^ 32 }
    ensures { IfOk result (λ table. IsTable (length ops.now) (length ops.now) (λ net. leaf_domains (map cell_of flops.now) net (meaning (op_at ops.now net))) table) }
{
    let mut table = empty(alloc, ops.len())?;
    for (net, op) in ops.iter().enumerate() {
        let net = net as u32;
        add_at(&mut table, leaf_domain(op, NetId(net), flops), net)?;
    }
    let packed = packed(alloc, &table)?;
    Ok(packed)
}

// What stores bits in each domain: its flip-flops and its lock-ups.
pub(crate) fn cells(alloc: Global, flops: &[FlipFlop], nets: usize) -> Result<Table, AllocError>
    requires { length flops.now < 2 ^ 32 }
    ensures { IfOk result (λ table. IsTable nets (length flops.now) (λ c. (cell_at (map cell_of flops.now) c).domain ∷ []) table) }
{
    let mut table = empty(alloc, nets)?;
    for (place, flop) in flops.iter().enumerate() {
        add(&mut table, flop.domain, place as u32)?;
    }
    let packed = packed(alloc, &table)?;
    Ok(packed)
}

// The domain of a lock-up.
fn latch_domain(latch: Option<Latch>) -> Option<NetId>
    ensures { listed result ≡ latch_domains (circuits.latch_of latch) }
{
    match latch {
        Some(latch) => Some(latch.domain),
        None => None,
    }
}

// The lock-ups of each domain.
pub(crate) fn holders(
    alloc: Global,
    latches: &[Option<Latch>],
    nets: usize,
) -> Result<Table, AllocError>
    requires { length latches.now < 2 ^ 32 }
    ensures { IfOk result (λ table. IsTable nets (length latches.now) (λ c. latch_domains (latch_at latches.now c)) table) }
{
    let mut table = empty(alloc, nets)?;
    for (place, latch) in latches.iter().enumerate() {
        add_at(&mut table, latch_domain(*latch), place as u32)?;
    }
    let packed = packed(alloc, &table)?;
    Ok(packed)
}

/// The net of a reset or set.
pub fn force_net(force: Option<Acting>) -> Option<NetId>
    ensures { listed result ≡ force_nets (circuits.force_at force) }
{
    match force {
        Some(Acting::Clear(port)) | Some(Acting::Preset(port)) => Some(port),
        None => None,
    }
}

// The flip-flops that each reset or set acts on.
pub(crate) fn followers(alloc: Global, flops: &[FlipFlop], nets: usize) -> Result<Table, AllocError>
    requires { length flops.now < 2 ^ 32 }
    ensures { IfOk result (λ table. IsTable nets (length flops.now) (λ c. force_nets (cell_at (map cell_of flops.now) c).forces) table) }
{
    let mut table = empty(alloc, nets)?;
    for (place, flop) in flops.iter().enumerate() {
        add_at(&mut table, force_net(flop.force), place as u32)?;
    }
    let packed = packed(alloc, &table)?;
    Ok(packed)
}
