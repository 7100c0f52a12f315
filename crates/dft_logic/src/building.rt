//! The circuit of a design.

ghost use Rattle.std.specs.Prelude.{◌≡◌, ℕ, ◌<◌, ◌≤◌, length, map, slice_get, IfOk};
ghost use Rattle.dft_netlist.specs.Drivers.{kind_at, pins_of};
ghost use Rattle.dft_netlist.specs.NetDrivers.{is_inverted as inverts, roles_at};
ghost use Rattle.dft_logic.specs.Circuit.{op_at};
ghost use Rattle.dft_logic.specs.Compiling.{ports_by, wired_at, wired_by, IsTraced, IsOpOf, IsFlopOf, IsLatchOf, AreFlops, AreLatches, IsCircuitOf};

use crate::circuit::{Circuit, FlipFlop, Latch, Op};
use crate::compiling::{Part, Traced, flop_at, latch_of, pin_op};
use crate::tables::{cells, followers, holders, leaves, readers, sources};
use crate::values::flag_at;
use crate::wires::{Wire, operand, wires};
use dft_behavior::find_roots;
use dft_cells::{Kind, Role};
use dft_netlist::{Design, InstanceId, NetDriver, NetId};
use std::alloc::{AllocError, Global};

// The pins of the instance of this number.
fn wires_at(alloc: Global, design: &Design, number: InstanceId) -> Result<Vec<Wire>, AllocError>
    requires { number.0 < length design.now.instances }
    ensures { IfOk result (λ wires. map wired_at wires.items ≡ map (wired_by number.0) (pins_of design.now number.0)) }
{
    let instance = &design.instances()[number.0 as usize];
    let wires = wires(alloc, design.library().cells(), number, instance)?;
    Ok(wires)
}

// Whether the pin of this number of an instance has the inverse of a flip-flop's bit.
fn is_inverted(design: &Design, number: InstanceId, pin: usize) -> bool
    requires { number.0 < length design.now.instances }
    ensures { result ≡ inverts (slice_get (roles_at design.now number.0) pin) }
{
    match design.role(number, pin) {
        Some(Role::Inverted) => true,
        _ => false,
    }
}

// What a net takes its value from.
fn net_op(alloc: Global, traced: Traced<'_>, net: NetId) -> Result<Op, AllocError>
    requires traced { IsTraced traced }
    requires live { net.0 < length traced.design.now.nets }
    ensures { IfOk result (IsOpOf traced.entry.design.now (ports_by traced.entry.flags.now) net.0) }
{
    traced.design.soundness();
    match traced.design.driver(net) {
        NetDriver::Input => Ok(if flag_at(traced.flags, net.0) {
            Op::Clock
        } else {
            Op::Input
        }),
        NetDriver::Join(number) => match traced.design.joins().get(number as usize) {
            Some(join) => Ok(Op::Joined(operand(InstanceId(0), 0, join.source))),
            None => Ok(Op::Free),
        },
        NetDriver::Pin { instance, pin } => {
            let wires = wires_at(alloc, traced.design, instance)?;
            let part = Part {
                number: instance,
                kind: traced.design.kind(instance),
                wires: &wires,
            };
            let inverted = is_inverted(traced.design, instance, pin as usize);
            let op = pin_op(alloc, traced, part, inverted)?;
            Ok(op)
        }
        NetDriver::Nothing => Ok(Op::Free),
    }
}

// What each net takes its value from.
fn net_ops(alloc: Global, traced: Traced<'_>) -> Result<Vec<Op>, AllocError>
    requires { IsTraced traced }
    ensures count { IfOk result (λ ops. length ops.items ≡ length traced.entry.design.now.nets) }
    ensures each { IfOk result (λ ops. (net : ℕ) → net < length traced.entry.design.now.nets → IsOpOf traced.entry.design.now (ports_by traced.entry.flags.now) net (op_at ops.items net)) }
{
    let mut ops = Vec::new(alloc);
    for net in 0..traced.design.net_count() {
        ops.push(net_op(alloc, traced, NetId(net))?)?;
    }
    Ok(ops)
}

// What an instance stores a bit in.
fn instance_flop(
    alloc: Global,
    traced: Traced<'_>,
    number: InstanceId,
) -> Result<FlipFlop, AllocError>
    requires traced { IsTraced traced }
    requires live { number.0 < length traced.design.now.instances }
    ensures { IfOk result (IsFlopOf traced.entry.design.now (ports_by traced.entry.flags.now) number.0) }
{
    traced.design.soundness();
    let wires = wires_at(alloc, traced.design, number)?;
    let part = Part {
        number,
        kind: traced.design.kind(number),
        wires: &wires,
    };
    let flop = flop_at(traced, part);
    Ok(flop)
}

// The lock-up of an instance, if it is one.
fn instance_latch(
    alloc: Global,
    traced: Traced<'_>,
    number: InstanceId,
) -> Result<Option<Latch>, AllocError>
    requires traced { IsTraced traced }
    requires live { number.0 < length traced.design.now.instances }
    ensures { IfOk result (IsLatchOf traced.entry.design.now (ports_by traced.entry.flags.now) number.0) }
{
    let wires = wires_at(alloc, traced.design, number)?;
    let part = Part {
        number,
        kind: traced.design.kind(number),
        wires: &wires,
    };
    match part.kind {
        Kind::Lockup => {
            let latch = latch_of(traced, part);
            Ok(latch)
        }
        _ => Ok(None),
    }
}

// What all instances store their bits in.
fn flops(alloc: Global, traced: Traced<'_>) -> Result<Vec<FlipFlop>, AllocError>
    requires { IsTraced traced }
    ensures { IfOk result (λ flops. AreFlops traced.entry.design.now (ports_by traced.entry.flags.now) (length traced.entry.design.now.instances) flops.items) }
{
    let mut flops = Vec::new(alloc);
    for number in 0..traced.design.instances().len() {
        flops.push(instance_flop(alloc, traced, InstanceId(number as u32))?)?;
    }
    Ok(flops)
}

// The lock-ups of all instances.
fn latches(alloc: Global, traced: Traced<'_>) -> Result<Vec<Option<Latch>>, AllocError>
    requires { IsTraced traced }
    ensures { IfOk result (λ latches. AreLatches traced.entry.design.now (ports_by traced.entry.flags.now) (length traced.entry.design.now.instances) latches.items) }
{
    let mut latches = Vec::new(alloc);
    for number in 0..traced.design.instances().len() {
        latches.push(instance_latch(alloc, traced, InstanceId(number as u32))?)?;
    }
    Ok(latches)
}

/// The circuit of a design whose clocks are flagged.
pub fn compile(alloc: Global, design: &Design, flags: &[bool]) -> Result<Circuit, AllocError>
    ensures { IfOk result (IsCircuitOf design.now (ports_by flags.now)) }
{
    let order = Vec::from_slice(alloc, design.order())?;
    let roots = find_roots(alloc, design)?;
    let traced = Traced {
        design,
        flags,
        roots: &roots,
    };
    let ops = net_ops(alloc, traced)?;
    let flops = flops(alloc, traced)?;
    let latches = latches(alloc, traced)?;
    design.soundness();
    let nets = ops.len();
    let readers = readers(alloc, &ops)?;
    let sources = sources(alloc, &ops)?;
    let leaves = leaves(alloc, &ops, &flops)?;
    let cells = cells(alloc, &flops, nets)?;
    let holders = holders(alloc, &latches, nets)?;
    let followers = followers(alloc, &flops, nets)?;
    Ok(Circuit {
        order,
        ops,
        flops,
        latches,
        readers,
        sources,
        leaves,
        cells,
        holders,
        followers,
    })
}
