//! From which nets walks go on to each net.

ghost use Rattle.std.specs.Prelude.{◌≡◌, ◌∷◌, ◌++◌, [], ℕ, ◌<◌, length, map, IfOk, OnOk};
ghost use Rattle.dft_cells.specs.FlipFlops as flip_flops;
ghost use Rattle.dft_netlist.specs.Drivers.{driver, nets_of};
ghost use Rattle.dft_netlist.specs.Orders.{numbers_of};
ghost use Rattle.dft_logic.specs.Circuit.{op_at, source_at};
ghost use Rattle.dft_seek.specs.Marks.{steps_at};
ghost use Rattle.dft_seek.specs.Pins as pins_spec;
ghost use Rattle.dft_seek.specs.Pins.{pins_at, taken_by};
ghost use Rattle.dft_seek.specs.Rigs.{shows_at, shows_in};
ghost use Rattle.dft_seek.specs.Steps as spec;
ghost use Rattle.dft_seek.specs.Walks.{is_output_of};

use crate::pins::Pins;
use dft_base::Listed;
use dft_cells::Kind;
use dft_logic::{Op, Operand, flag_at};
use dft_netlist::{Design, InstanceId, NetDriver, NetId, Signal};
use std::alloc::{AllocError, Global};

// Whether a kind is a flip-flop.
fn is_flip_flop(kind: Kind) -> bool
    ensures { result ≡ flip_flops.is_flip_flop kind }
{
    matches!(kind, Kind::Flop(_))
}

// The flip-flop whose bit, or the inverse of it, a net has, if it has one.
fn shown_cell(design: &Design, net: NetId) -> Option<InstanceId>
    requires { net.0 < length design.now.nets }
    ensures { (c : ℕ) → shows_in result c ≡ is_output_of c (driver design.now net.0) }
{
    match design.driver(net) {
        NetDriver::Pin { instance, .. } => {
            if is_flip_flop(design.kind(instance)) {
                Some(instance)
            } else {
                None
            }
        }
        NetDriver::Input | NetDriver::Join(_) | NetDriver::Nothing => None,
    }
}

// The flip-flops that nets show.
pub(crate) fn shown_cells(
    alloc: Global,
    design: &Design,
) -> Result<Vec<Option<InstanceId>>, AllocError>
    ensures size { IfOk result (λ shows. length shows.items ≡ length design.now.nets) }
    ensures each { IfOk result (λ shows. (net c : ℕ) → net < length design.now.nets → shows_at shows.items net c ≡ is_output_of c (driver design.now net)) }
{
    let mut shows = Vec::new(alloc);
    for net in 0..design.net_count() {
        shows.push(shown_cell(design, NetId(net)))?;
    }
    Ok(shows)
}

// Adds the net of an operand, if it is one.
#[tactic(auto, using(dft_netlist::proofs::StandLemmas::numbers_push))]
fn add_operand(nets: &mut Vec<NetId>, input: &Operand) -> Result<(), AllocError>
    ensures { OnOk result (numbers_of nets.new.items ≡ numbers_of nets.old.items ++ nets_of (source_at input.now ∷ [])) }
{
    match input {
        Operand::Net(net) => {
            nets.push(*net)?;
            Ok(())
        }
        Operand::Tied(_) | Operand::Loose(_, _) => Ok(()),
    }
}

// The nets of operands, in order.
fn operand_nets(alloc: Global, inputs: &[Operand]) -> Result<Vec<NetId>, AllocError>
    ensures { IfOk result (λ nets. numbers_of nets.items ≡ nets_of (map source_at inputs.now)) }
{
    let mut nets = Vec::new(alloc);
    for input in inputs {
        add_operand(&mut nets, input)?;
    }
    Ok(nets)
}

// Adds the net of a pin, if it is joined to one.
#[tactic(auto, using(dft_netlist::proofs::StandLemmas::numbers_push))]
fn add_pin(nets: &mut Vec<NetId>, pin: Option<Signal>) -> Result<(), AllocError>
    ensures { OnOk result (numbers_of nets.new.items ≡ numbers_of nets.old.items ++ pins_spec.pin_nets pin) }
{
    match pin {
        Some(Signal::Net(net)) => {
            nets.push(net)?;
            Ok(())
        }
        _ => Ok(()),
    }
}

// Adds the nets at the data, reset and set pins, in order.
pub(crate) fn add_pins(nets: &mut Vec<NetId>, pins: &Pins) -> Result<(), AllocError>
    ensures { OnOk result (numbers_of nets.new.items ≡ numbers_of nets.old.items ++ taken_by pins.now) }
{
    add_pin(nets, pins.input)?;
    add_pin(nets, pins.reset)?;
    add_pin(nets, pins.preset)?;
    Ok(())
}

// The nets at the data, reset and set pins, in order.
fn pin_nets(alloc: Global, pins: &Pins) -> Result<Vec<NetId>, AllocError>
    ensures { IfOk result (λ nets. numbers_of nets.items ≡ taken_by pins.now) }
{
    let mut nets = Vec::new(alloc);
    add_pins(&mut nets, pins)?;
    Ok(nets)
}

// The nets at the pins of an instance.
fn instance_nets(alloc: Global, pins: &[Pins], cell: InstanceId) -> Result<Vec<NetId>, AllocError>
    ensures { IfOk result (λ nets. numbers_of nets.items ≡ taken_by (pins_at pins.now cell.0)) }
{
    match pins.get(cell.0 as usize) {
        Some(pins) => pin_nets(alloc, pins),
        None => Ok(Vec::new(alloc)),
    }
}

// The nets at the pins of the flip-flop that a net shows, if a walk passes it.
fn cell_nets(
    alloc: Global,
    shown: Option<InstanceId>,
    pins: &[Pins],
    passed: &[bool],
) -> Result<Vec<NetId>, AllocError>
    ensures { IfOk result (λ nets. numbers_of nets.items ≡ spec.cell_steps shown pins.now passed.now) }
{
    match shown {
        Some(cell) => if flag_at(passed, cell.0) {
            instance_nets(alloc, pins, cell)
        } else {
            Ok(Vec::new(alloc))
        },
        None => Ok(Vec::new(alloc)),
    }
}

// The nets from which walks go on to a net.
fn net_steps(
    alloc: Global,
    op: &Op,
    shown: Option<InstanceId>,
    pins: &[Pins],
    passed: &[bool],
) -> Result<Vec<NetId>, AllocError>
    ensures { IfOk result (λ nets. numbers_of nets.items ≡ spec.op_steps op.now shown pins.now passed.now) }
{
    match op {
        Op::Gate(_, inputs) => operand_nets(alloc, inputs.as_slice()),
        Op::Joined(source) => operand_nets(alloc, &[*source]),
        _ => cell_nets(alloc, shown, pins, passed),
    }
}

// The nets from which walks go on to each net.
pub(crate) fn steps(
    alloc: Global,
    ops: &[Op],
    shows: &[Option<InstanceId>],
    pins: &[Pins],
    passed: &[bool],
) -> Result<Vec<Listed<NetId>>, AllocError>
    requires { length shows.now ≡ length ops.now }
    ensures size { IfOk result (λ steps. length steps.items ≡ length ops.now) }
    ensures each { IfOk result (λ steps. (net : ℕ) → net < length ops.now → steps_at steps.items net ≡ spec.op_steps (op_at ops.now net) (spec.shown_at shows.now net) pins.now passed.now) }
{
    let mut steps = Vec::new(alloc);
    for net in 0..ops.len() {
        let nets = net_steps(alloc, &ops[net], shows[net], pins, passed)?;
        steps.push(Listed::from_vec(nets))?;
    }
    Ok(steps)
}
