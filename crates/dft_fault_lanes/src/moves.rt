//! Registers that move as clocks rise.

ghost use Rattle.std.specs.Prelude.{◌≡◌, ◌<◌, ◌⊎◌, ◌&&◌, nat_lt, ℕ, length, slice_index_or, true, false, None, Some, if◌then◌else◌};
ghost use Rattle.dft_netlist.specs.Drivers.{Net};
ghost use Rattle.dft_registers.specs.Cells.{course_from};
ghost use Rattle.dft_cells.specs.FlipFlops.{no_forces};
ghost use Rattle.dft_logic.specs.Circuit.{cell_of, flag_at as is_up, force_at, op_at, source_at};
ghost use Rattle.dft_base.specs.declared.tri.Tri.{Tri as ATri};
ghost use Rattle.dft_fault_lanes.specs.Lanes.{clamp_at};
ghost use Rattle.dft_fault_lanes.specs.Seen as seen;
ghost use Rattle.dft_fault_lanes.specs.Moves.{AreMoves, IsMoved, MovesAt, ShowsCell, TakesFrom};

use crate::clamps::Clamp;
use crate::comparing::is_one;
use crate::marking::{Steer, enable_value};
use dft_lanes::Wide;
use dft_logic::{Acting, Circuit, FlipFlop, Op, Operand, ScanPins, flag_at};
use dft_netlist::NetId;
use dft_registers::{Cells, Place};

// A circuit with stuck nets, and what is known of the net that scan enables come by.
#[derive(Clone, Copy)]
pub(crate) struct Wiring<'a> {
    pub circuit: &'a Circuit,
    pub clamps: &'a [Option<Clamp>],
    pub steer: Steer,
}

// Whether these are bounds.
fn has_bounds(clamp: &Option<Clamp>) -> bool
    ensures { result ≡ false → clamp.now ≡ None }
{
    match clamp {
        Some(_) => true,
        None => false,
    }
}

// Whether a net has bounds; past the end none has.
pub(crate) fn is_bound(clamps: &[Option<Clamp>], net: NetId) -> bool
    ensures { result ≡ false → clamp_at clamps.now net.0 ≡ None }
{
    match clamps.get(net.0 as usize) {
        Some(clamp) => has_bounds(clamp),
        None => false,
    }
}

// Whether a flip-flop's output, or its inverse, is the bit of a cell.
fn is_plain(inverted: bool, instance: u32, cell: usize) -> bool
    ensures { result ≡ true → (if inverted then None else Some instance) ≡ Some cell }
{
    if inverted {
        return false;
    }
    instance as usize == cell
}

// Whether a net's driver is a cell.
fn is_flop(op: &Op, cell: usize) -> bool
    ensures { result ≡ true → seen.flop_shown op.now ≡ Some cell }
{
    match op {
        Op::Flop(instance, inverted) => is_plain(*inverted, instance.0, cell),
        Op::Input | Op::Clock | Op::Free => false,
        Op::Gate(_, _) | Op::Joined(_) => false,
        Op::Lockup(_, _, _, _) => false,
    }
}

// Whether a net's driver is a cell; past the end none is.
fn is_driver(ops: &[Op], net: NetId, cell: usize) -> bool
    ensures { result ≡ true → seen.flop_shown (op_at ops.now net.0) ≡ Some cell }
{
    match ops.get(net.0 as usize) {
        Some(op) => is_flop(op, cell),
        None => false,
    }
}

// Whether a net's bit is that of a cell: it has no bounds.
fn is_cell(wiring: Wiring<'_>, net: NetId, cell: usize) -> bool
    ensures { result ≡ true → seen.cell_shown wiring.entry.circuit.now.ops wiring.entry.clamps.now net.0 ≡ Some cell }
{
    if is_bound(wiring.clamps, net) {
        return false;
    }
    let circuit = wiring.circuit;
    is_driver(&circuit.ops, net, cell)
}

// Whether what is read at a pin is the bit of a cell.
fn shows_cell(wiring: Wiring<'_>, source: &Operand, cell: usize) -> bool
    ensures { result ≡ true → ShowsCell wiring.entry.circuit.now.ops wiring.entry.clamps.now (source_at source.now) cell }
{
    match source {
        Operand::Net(net) => is_cell(wiring, *net, cell),
        Operand::Tied(_) => false,
        Operand::Loose(_, _) => false,
    }
}

// Whether a scan enable is the steer's net, and that is 1.
fn is_steered(steer: Steer, enable: &Operand) -> bool
    ensures value { result ≡ true → steer.value ≡ ATri.One }
    ensures net { result ≡ true → source_at enable.now ≡ Net steer.net.0 }
{
    is_one(enable_value(steer, enable))
}

// Whether scan pins let the value of a cell through.
fn pins_take(wiring: Wiring<'_>, scan: ScanPins, cell: usize) -> bool
    ensures value { result ≡ true → wiring.entry.steer.value ≡ ATri.One }
    ensures net { result ≡ true → source_at scan.enable ≡ Net wiring.entry.steer.net.0 }
    ensures input { result ≡ true → ShowsCell wiring.entry.circuit.now.ops wiring.entry.clamps.now (source_at scan.input) cell }
{
    if !is_steered(wiring.steer, &scan.enable) {
        return false;
    }
    shows_cell(wiring, &scan.input, cell)
}

// Whether there is no reset or set, or none acts.
fn is_loose(steer: Steer, force: Option<Acting>) -> bool
    ensures { result ≡ true → (force_at force ≡ no_forces) ⊎ (steer.free ≡ true) }
{
    match force {
        None => true,
        Some(_) => steer.free,
    }
}

// Whether a cell takes the value of another one.
fn takes_from(wiring: Wiring<'_>, flop: &FlipFlop, other: usize) -> bool
    ensures { result ≡ true → TakesFrom wiring.entry.circuit.now.ops wiring.entry.clamps.now wiring.entry.steer (cell_of flop.now) other }
{
    if !is_loose(wiring.steer, flop.force) {
        return false;
    }
    match flop.scan {
        Some(scan) => pins_take(wiring, scan, other),
        None => false,
    }
}

// The cell at a place of a register, and 0 past its end.
fn cell_in(register: &[usize], index: usize) -> usize
    ensures { result ≡ slice_index_or register.now index 0 }
{
    match register.get(index) {
        Some(cell) => *cell,
        None => 0,
    }
}

// Whether a cell takes the value of the one before it in a register, if it is not the first.
fn is_moved(wiring: Wiring<'_>, flop: &FlipFlop, register: &[usize], index: usize) -> bool
    ensures { result ≡ true → IsMoved wiring.entry.circuit.now.ops wiring.entry.clamps.now wiring.entry.steer (cell_of flop.now) (course_from register.now index) }
{
    if index == 0 {
        return true;
    }
    let other = cell_in(register, index - 1);
    takes_from(wiring, flop, other)
}

// Whether a cell may move with its register as these clocks rise.
fn may_move(
    wiring: Wiring<'_>,
    pulsed: &[bool],
    cells: &Cells<Wide>,
    flop: &FlipFlop,
    cell: usize,
) -> bool
    requires { cell < length cells.now.values }
    ensures { result ≡ true → MovesAt wiring.entry.circuit.now.ops wiring.entry.clamps.now wiring.entry.steer pulsed.now cells.now.layout (cell_of flop.now) cell }
{
    if !flop.changes(true, pulsed) {
        return false;
    }
    let place = cells.place(cell);
    is_moved(
        wiring,
        flop,
        cells.register(place.register as usize),
        place.index as usize,
    )
}

// All registers but the first, in which cells rest.
fn raise(moves: &mut [bool])
    ensures { is_up moves.new 0 ≡ false }
{
    for number in 0..moves.len() {
        moves[number] = number > 0;
    }
}

// Leaves a register out; past the end there is none.
fn leave_out(register: u32, moves: &mut [bool])
    ensures out { is_up moves.new register ≡ false }
    ensures fewer { (r : ℕ) → is_up moves.new r ≡ true → is_up moves.old r ≡ true }
{
    if (register as usize) < moves.len() {
        moves[register as usize] = false;
    }
}

// Leaves out the registers of cells that may not move with them as these clocks rise.
fn leave_moving(
    wiring: Wiring<'_>,
    flops: &[FlipFlop],
    pulsed: &[bool],
    cells: &Cells<Wide>,
    moves: &mut [bool],
)
    requires cells { length cells.now.values ≡ length flops.now }
    requires rests { is_up moves.old 0 ≡ false }
    ensures rests { is_up moves.new 0 ≡ false }
    ensures moving { AreMoves wiring.entry.circuit.now.ops wiring.entry.clamps.now flops.now wiring.entry.steer pulsed.now cells.now.layout moves.new }
{
    for (cell, flop) in flops.iter().enumerate() {
        if !may_move(wiring, pulsed, cells, flop, cell) {
            leave_out(cells.place(cell).register, moves);
        }
    }
}

// Finds the registers that move as these clocks rise: each cell takes a value there, and but for the first it is that of the one before
// it.
pub(crate) fn find_moves(
    wiring: Wiring<'_>,
    pulsed: &[bool],
    cells: &Cells<Wide>,
    moves: &mut [bool],
)
    requires { length cells.now.values ≡ length wiring.circuit.now.flops }
    ensures rests { is_up moves.new 0 ≡ false }
    ensures moving { AreMoves wiring.entry.circuit.now.ops wiring.entry.clamps.now wiring.entry.circuit.now.flops wiring.entry.steer pulsed.now cells.now.layout moves.new }
{
    raise(moves);
    let circuit = wiring.circuit;
    leave_moving(wiring, &circuit.flops, pulsed, cells, moves);
}

// Whether a cell at a place is moved with its register, so that it has the value of the one before it.
pub(crate) fn is_carried(place: Place, moves: &[bool]) -> bool
    ensures { result ≡ (is_up moves.now place.register && nat_lt 0 place.index) }
{
    flag_at(moves, place.register) && place.index > 0
}
