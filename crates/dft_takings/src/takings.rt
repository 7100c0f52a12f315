//! What a pulse does: registers that move, and in a list the other flip-flops that change, with what they take.

ghost use Rattle.std.specs.Prelude.{◌≡◌, ℕ, suc, ◌<◌, ◌≤◌, ◌+◌, ◌-◌, length, map, true, None, slice_index_or};
ghost use Rattle.std.specs.Vec.{vec_capacity};
ghost use Rattle.dft_logic.specs.Values as machine;
ghost use Rattle.dft_registers.specs.Layout.{cells_at};
ghost use Rattle.dft_registers.specs.Cells.{move_at, course, CanMove};
ghost use Rattle.dft_registers.specs.declared.moves.Move.TheVariants.{Stays};
ghost use Rattle.dft_logic.specs.Circuit.{force_at, cell_of, cell_at};
ghost use Rattle.dft_takings.specs.Views.{pulse_at};
ghost use Rattle.dft_takings.specs.EntryTables.{entry_of, entry_at};
ghost use Rattle.dft_takings.specs.Takings as spec;
ghost use Rattle.dft_takings.specs.Entries.{Follows};
ghost use Rattle.dft_takings.specs.Takings.{taking_at, taken_by, TakeFrom, TakesAlong, TakesFromUnled, IsMove, AreMoves, AreTakings, ArePut};

use crate::entries::Entry;
use crate::settling::Pulse;
use dft_base::Tri;
use dft_logic::{Acting, FlipFlop, Operand};
use dft_registers::{Cells, Move, Place};

/// A flip-flop, by its place, and what it takes.
#[derive(Clone, Copy)]
pub struct Taking {
    pub place: usize,
    pub entry: Entry,
}

/// Whether there is neither a reset nor a set.
pub fn is_unforced(force: Option<Acting>) -> bool
    ensures { result ≡ spec.is_unforced (force_at force) }
{
    match force {
        None => true,
        Some(Acting::Clear(_)) | Some(Acting::Preset(_)) => false,
    }
}

// Whether a flip-flop takes `Unknown` in every pulse: its data input is joined to no net, and it has no scan pins,
// reset or set. So it is with what stands for an instance that is no flip-flop.
fn is_loose(flop: &FlipFlop) -> bool
    ensures { result ≡ spec.is_loose (cell_of flop.now) }
{
    match (flop.input, flop.scan) {
        (Operand::Loose(_, _), None) => is_unforced(flop.force),
        _ => false,
    }
}

// Whether a flip-flop with this entry has the same value after a pulse, if it is `Unknown` where it is loose.
fn is_idle(flop: &FlipFlop, entry: Entry) -> bool
    ensures { result ≡ spec.is_idle (cell_of flop.now) (entry_of entry) }
{
    match entry {
        Entry::Keeps => true,
        Entry::Takes(Tri::Unknown) => is_loose(flop),
        _ => false,
    }
}

// Whether a cell is left out of the list: where its register moves all are but the first, and else those that are idle.
fn is_left(place: Place, moves: &[Move], idle: bool) -> bool
    ensures { result ≡ spec.is_left (move_at moves.now place.register) place.index idle }
{
    match moves.get(place.register as usize) {
        None | Some(Move::Stays) => idle,
        Some(_) => place.index > 0,
    }
}

// Whether a cell takes the value of another one.
fn takes_from(entries: &[Entry], cell: usize, other: usize) -> bool
    ensures { result ≡ true → entry_at entries.now cell ≡ Follows other }
{
    match entries.get(cell) {
        Some(Entry::Follows(found)) => found.0 as usize == other,
        _ => false,
    }
}

// Whether each of these cells but the first takes the value of another one, from the first or the second of those on.
fn all_take(cells: &[usize], others: &[usize], start: usize, entries: &[Entry]) -> bool
    requires { start ≤ 1 }
    ensures fit { result ≡ true → length cells.now ≤ start + length others.now }
    ensures each { result ≡ true → TakeFrom (entry_at entries.now) cells.now others.now start }
{
    if cells.len() > start + others.len() {
        return false;
    }
    for index in 1..cells.len() {
        if !takes_from(entries, cells[index], others[index - start]) {
            return false;
        }
    }
    true
}

// The cell whose value the second of these takes, if it takes one's: so it is where a register moves.
fn leader(cells: &[usize], entries: &[Entry]) -> Option<usize>
    ensures { result ≡ spec.leader (entry_at entries.now) cells.now }
{
    match cells.get(1) {
        Some(cell) => match entries.get(*cell) {
            Some(Entry::Follows(other)) => Some(other.0 as usize),
            _ => None,
        },
        None => None,
    }
}

// How a register moves whose second cell takes the value of one of this register.
fn move_from(cells: &Cells<Tri>, entries: &[Entry], register: usize, from: u32) -> Move
    ensures each { TakesAlong (entry_at entries.now) cells.now.layout.registers register result }
    ensures sound { TakesFromUnled (entry_at entries.now) cells.now.layout.registers register result }
{
    let own = cells.register(register);
    let others = cells.register(from as usize);
    if from as usize == register {
        return if all_take(own, own, 1, entries) {
            Move::Shifts
        } else {
            Move::Stays
        };
    }
    if leader(others, entries).is_some() {
        return Move::Stays;
    }
    if all_take(own, others, 0, entries) {
        return Move::Copies(from);
    }
    if all_take(own, others, 1, entries) {
        Move::Trails(from)
    } else {
        Move::Stays
    }
}

// How a register moves, where its cells take what these entries tell. In the first one cells rest.
fn find_move(cells: &Cells<Tri>, entries: &[Entry], register: usize) -> Move
    ensures rest { register ≡ 0 → result ≡ Stays }
    ensures is { IsMove (entry_at entries.now) cells.now.layout.registers register result }
{
    if register == 0 {
        return Move::Stays;
    }
    match leader(cells.register(register), entries) {
        Some(other) => if other < cells.len() {
            move_from(cells, entries, register, cells.place(other).register)
        } else {
            Move::Stays
        },
        None => Move::Stays,
    }
}

/// Finds the registers that move in a pulse: each of their cells but the first takes the value of the one before it, or of
/// one of another register that stays. The first register, in which cells rest, is none of them.
pub fn find_moves(cells: &Cells<Tri>, entries: &[Entry], moves: &mut [Move])
    ensures can { CanMove cells.now.layout moves.new }
    ensures each { AreMoves (entry_at entries.now) cells.now.layout moves.new }
{
    for register in 0..moves.len() {
        moves[register] = find_move(cells, entries, register);
    }
}

/// Lists the flip-flops whose values a pulse may change beyond what the moves of registers do, where loose ones are
/// `Unknown`.
pub fn list_takings(
    flops: &[FlipFlop],
    entries: &[Entry],
    cells: &Cells<Tri>,
    moves: &[Move],
    takings: &mut Vec<Taking>,
)
    requires flops { length entries.now ≡ length flops.now }
    requires cells { length cells.now.values ≡ length flops.now }
    requires moves { AreMoves (entry_at entries.now) cells.now.layout moves.now }
    requires room { length entries.now ≤ vec_capacity takings.old }
    ensures listed { AreTakings (cell_at (map cell_of flops.now)) (entry_at entries.now) (length entries.now) (course cells.now.layout moves.now) takings.new.items }
    ensures room { vec_capacity takings.new ≡ vec_capacity takings.old }
{
    takings.clear();
    for (place, entry) in entries.iter().enumerate() {
        let idle = is_idle(&flops[place], *entry);
        if !is_left(cells.place(place), moves, idle) {
            takings.push_reserved(Taking {
                place,
                entry: *entry,
            });
        }
    }
}

/// Finds what the flip-flops of the list take, in its order.
#[inline(never)]
pub fn find_values(
    flops: &[FlipFlop],
    takings: &[Taking],
    pulse: Pulse<'_>,
    values: &[Tri],
    row: &mut [Tri],
)
    requires live { (j : ℕ) → j < length takings.now → (taking_at takings.now j).place < length flops.now }
    requires row { length takings.now ≤ length row.old }
    ensures { (j : ℕ) → j < length takings.now → machine.value_at row.new j ≡ taken_by (cell_at (map cell_of flops.now)) (pulse_at pulse.entry) (machine.value_at values.now) (taking_at takings.now j) }
{
    for (at, taking) in takings.iter().enumerate() {
        row[at] = taking.entry.value(taking.place, flops, pulse, values);
    }
}

/// The values of flip-flops after a pulse: registers move, those of the list take what the row tells, and the others keep
/// theirs.
#[inline(never)]
pub fn put_all(takings: &[Taking], row: &[Tri], moves: &[Move], cells: &mut Cells<Tri>)
    requires live { (j : ℕ) → j < length takings.now → (taking_at takings.now j).place < length cells.old.values }
    requires row { length takings.now ≤ length row.now }
    requires can { CanMove cells.old.layout moves.now }
    ensures layout { cells.new.layout ≡ cells.old.layout }
    ensures count { length cells.new.values ≡ length cells.old.values }
    ensures put { ArePut takings.now (length takings.now) (machine.value_at row.now) (course cells.old.layout moves.now) cells.old.values cells.new.values }
{
    cells.shift(moves);
    for (at, taking) in takings.iter().enumerate() {
        cells.set(taking.place, row[at]);
    }
}
