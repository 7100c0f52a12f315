//! What the vectors need that pulse the same clocks at the same value of a scan enable.

ghost use Rattle.std.specs.Prelude.{◌≡◌, ◌≤◌, [], ℕ, false, length, map, take, true, IfOk};
ghost use Rattle.std.specs.Vec.{vec_capacity};
ghost use Rattle.dft_netlist.specs.Orders.{Has, numbers_of};
ghost use Rattle.dft_logic.specs.Circuit.{AreOrdered, cell_of, flag_at as is_up, logic_at};
ghost use Rattle.dft_takings.specs.Needs.{HasAll, IsStrobeClosed};
ghost use Rattle.dft_replay.specs.Rows as rows;
ghost use Rattle.dft_replay.specs.Vectors.{AreSignals};
ghost use Rattle.dft_fault_lanes.specs.Lanes.{flop_at, is_changed};
ghost use Rattle.dft_fault_lanes.specs.Plans.{AreCovered, ArePlaces, HasReadsOf, needs_of};
ghost use Rattle.dft_fault_lanes.specs.Moves as spec;
ghost use Rattle.dft_fault_lanes.specs.Idle as idle;
ghost use Rattle.dft_fault_lanes.specs.Moves.{enable_needs};
ghost use Rattle.dft_fault_lanes.specs.Made.{HasRoom, IsPlan};

use crate::clamps::Clamp;
use crate::forces::list_forces;
use crate::idling::is_left;
use crate::marking::{
    Steer, covers, mark_compared, mark_net, mark_takers, read_pulses, same_pulses,
};
use crate::moves::{Wiring, find_moves};
use crate::steady::are_steady;
use crate::vectors::{flag_pulses, lower};
use dft_base::Tri;
use dft_lanes::Wide;
use dft_logic::{Circuit, FlipFlop, differ, value_at};
use dft_netlist::NetId;
use dft_patterns::Act;
use dft_registers::Cells;
use dft_takings::{Shown, list_marked, mark_needed, show_all};
use std::alloc::{AllocError, Global};

/// What vectors need that pulse the same clocks, by signal and by net, at the same value of a net that scan enables come by: what nets
/// show as the clocks rise and as they fall; the registers that move at rises; the nets that are settled, marked and at the front of a
/// list in their order; the other cells that take a value at rises and at falls, but for idle ones; and whether at rises all read what is still in every
/// lane. Then whether lanes were seen to differ at that net, so that no value is asked for; and the ports of all resets and sets.
pub struct Plan {
    pub made: bool,
    pub torn: bool,
    pub steer: Steer,
    pub pulses: Vec<bool>,
    pub pulsed: Vec<bool>,
    pub rises: Vec<Shown>,
    pub falls: Vec<Shown>,
    pub moves: Vec<bool>,
    pub marked: Vec<bool>,
    pub list: Vec<NetId>,
    pub count: usize,
    pub taking: Vec<usize>,
    pub falling: Vec<usize>,
    pub steady: bool,
    pub forces: Vec<NetId>,
}

// One call for all fields, so that the proof of what owns a value stays short.
impl Drop for Plan {
    fn drop(self) {
        let Plan {
            made: _,
            torn: _,
            steer: _,
            pulses: _,
            pulsed: _,
            rises: _,
            falls: _,
            moves: _,
            marked: _,
            list: _,
            count: _,
            taking: _,
            falling: _,
            steady: _,
            forces: _,
        } = self;
    }
}

// Whether a cell takes a value where these clocks rise, or fall, and is not left out.
fn is_taker(flop: &FlipFlop, rising: bool, pulsed: &[bool], left: bool) -> bool
    ensures up { result ≡ true → (is_changed (cell_of flop.now) rising pulsed.now ≡ true) × (left ≡ false) }
    ensures down { result ≡ false → left ≡ false → is_changed (cell_of flop.now) rising pulsed.now ≡ false }
{
    if left {
        return false;
    }
    flop.changes(rising, pulsed)
}

// Lists the cells that take a value where these clocks rise, or fall, but for those that are carried or idle.
fn list_places(
    flops: &[FlipFlop],
    rising: bool,
    pulsed: &[bool],
    cells: &Cells<Wide>,
    moves: &[bool],
    list: &mut Vec<usize>,
)
    requires cells { length cells.now.values ≡ length flops.now }
    requires room { length flops.now ≤ vec_capacity list.old }
    ensures places { ArePlaces flops.now rising pulsed.now (idle.is_left cells.now.layout moves.now flops.now) list.new.items }
    ensures room { vec_capacity list.new ≡ vec_capacity list.old }
{
    list.clear();
    for (place, flop) in flops.iter().enumerate() {
        let left = is_left(flop, cells.place(place), moves);
        if is_taker(flop, rising, pulsed, left) {
            list.push_reserved(place);
        }
    }
}

// Lowers all marks, unless they are to stay.
fn lower_unless(stay: bool, marked: &mut [bool]) {
    if !stay {
        lower(marked);
    }
}

// Whether two flags are the same.
fn is_like(one: bool, other: bool) -> bool
    ensures { result ≡ true → one ≡ other }
{
    if one { other } else { !other }
}

// What a vector reads: the steer, the cells and where they lie, the registers that move, and the compared signals.
#[derive(Clone, Copy)]
struct Reading<'a> {
    steer: Steer,
    cells: &'a Cells<Wide>,
    moves: &'a [bool],
    nets: &'a [NetId],
    acts: &'a [Act],
}

// Marks what is settled for a vector, in addition to what is marked.
fn mark_reading(circuit: &Circuit, reading: Reading<'_>, marked: &mut [bool])
    requires cells { length reading.cells.now.values ≡ length circuit.now.flops }
    requires nets { AreSignals (length circuit.now.ops) reading.nets.now }
    requires acts { length reading.acts.now ≡ length reading.nets.now }
    requires marked { length marked.old ≡ length circuit.now.ops }
    ensures steered { needs_of (length circuit.now.ops) marked.new reading.entry.steer.net.0 ≡ true }
    ensures enables { (c : ℕ) → HasAll (needs_of (length circuit.now.ops) marked.new) (enable_needs (flop_at circuit.now.flops c)) }
    ensures reads { (c : ℕ) → spec.is_carried reading.entry.cells.now.layout reading.entry.moves.now c ≡ false → HasReadsOf (needs_of (length circuit.now.ops) marked.new) reading.entry.steer (flop_at circuit.now.flops c) }
    ensures covered { AreCovered reading.entry.nets.now reading.entry.acts.now marked.new }
{
    mark_net(reading.steer.net, marked);
    mark_takers(
        reading.steer,
        &circuit.flops,
        reading.cells,
        reading.moves,
        marked,
    );
    mark_compared(reading.nets, reading.acts, marked);
}

// Marks what is settled for a vector, in addition to what is marked, and lists it at the front of a list: how many.
fn list_needs(
    circuit: &Circuit,
    reading: Reading<'_>,
    marked: &mut [bool],
    list: &mut [NetId],
) -> usize
    requires cells { length reading.cells.now.values ≡ length circuit.now.flops }
    requires nets { AreSignals (length circuit.now.ops) reading.nets.now }
    requires acts { length reading.acts.now ≡ length reading.nets.now }
    requires marked { length marked.old ≡ length circuit.now.ops }
    requires list { length list.old ≡ length circuit.now.ops }
    ensures room { result ≤ length list.new }
    ensures closed { IsStrobeClosed (logic_at circuit.now) (is_up marked.new) }
    ensures ordered { AreOrdered circuit.now.ops [] (numbers_of (take result list.new)) }
    ensures listed { (k : ℕ) → is_up marked.new k ≡ true → Has (numbers_of (take result list.new)) k }
    ensures steered { needs_of (length circuit.now.ops) marked.new reading.entry.steer.net.0 ≡ true }
    ensures enables { (c : ℕ) → HasAll (needs_of (length circuit.now.ops) marked.new) (enable_needs (flop_at circuit.now.flops c)) }
    ensures reads { (c : ℕ) → spec.is_carried reading.entry.cells.now.layout reading.entry.moves.now c ≡ false → HasReadsOf (needs_of (length circuit.now.ops) marked.new) reading.entry.steer (flop_at circuit.now.flops c) }
    ensures covered { AreCovered reading.entry.nets.now reading.entry.acts.now marked.new }
{
    mark_reading(circuit, reading, marked);
    mark_needed(circuit, marked);
    list_marked(circuit, marked, list)
}

impl Plan {
    // No plan yet, with room for a circuit's nets, cells and registers and for signals.
    pub(crate) fn prepare(
        alloc: Global,
        circuit: &Circuit,
        registers: usize,
        signals: usize,
        net: NetId,
    ) -> Result<Plan, AllocError>
        ensures room { IfOk result (HasRoom circuit.now signals) }
        ensures fresh { IfOk result (λ plan. plan.made ≡ false) }
    {
        let size = circuit.ops.len();
        let pulses = vec![in alloc; false; signals]?;
        let pulsed = vec![in alloc; false; size]?;
        let rises = vec![in alloc; Shown::Nothing; size]?;
        let falls = vec![in alloc; Shown::Nothing; size]?;
        let moves = vec![in alloc; false; registers]?;
        let marked = vec![in alloc; false; size]?;
        let list = vec![in alloc; NetId(0); size]?;
        let taking = Vec::with_capacity(alloc, circuit.flops.len())?;
        let falling = Vec::with_capacity(alloc, circuit.flops.len())?;
        let mut forces = Vec::with_capacity(alloc, circuit.flops.len())?;
        list_forces(&circuit.flops, &mut forces);
        let value = Tri::Unknown;
        let free = false;
        Ok(Plan {
            made: false,
            torn: false,
            steer: Steer { net, value, free },
            pulses,
            pulsed,
            rises,
            falls,
            moves,
            marked,
            list,
            count: 0,
            taking,
            falling,
            steady: false,
            forces,
        })
    }

    // The value that the net of scan enables is asked for: its port's, and none once lanes were seen to differ.
    pub(crate) fn aim(&self, ports: &[Tri]) -> Tri {
        if self.torn {
            return Tri::Unknown;
        }
        value_at(ports, self.steer.net.0)
    }

    // Whether lanes were seen to differ at the net of scan enables: where it had a value, none is asked for.
    fn is_torn(&self, value: Tri) -> bool {
        self.torn || (differ(self.steer.value, Tri::Unknown) && !differ(value, Tri::Unknown))
    }

    // Whether it is for clocks that pulse so, where the net of scan enables has this value and no reset or set acts, or one may.
    fn is_of(&self, acts: &[Act], value: Tri, free: bool) -> bool
        ensures pulses { result ≡ true → self.now.pulses.items ≡ map rows.is_pulse acts.now }
        ensures free { result ≡ true → self.now.steer.free ≡ free }
    {
        if differ(self.steer.value, value) {
            return false;
        }
        if !is_like(self.steer.free, free) {
            return false;
        }
        same_pulses(acts, &self.pulses)
    }

    // Whether it is for a vector that does this.
    pub(crate) fn fits(&self, nets: &[NetId], acts: &[Act], value: Tri, free: bool) -> bool
        requires { length acts.now ≡ length nets.now }
        ensures made { result ≡ true → self.now.made ≡ true }
        ensures pulses { result ≡ true → self.now.pulses.items ≡ map rows.is_pulse acts.now }
        ensures free { result ≡ true → self.now.steer.free ≡ free }
        ensures covered { result ≡ true → AreCovered nets.now acts.now self.now.marked.items }
    {
        if !self.made {
            return false;
        }
        if !self.is_of(acts, value, free) {
            return false;
        }
        covers(nets, acts, &self.marked)
    }

    // Makes it for vectors that do this, at this value of a net that scan enables come by, where cells lie so. Where it is told that no
    // reset or set acts it is for vectors in which none does.
    pub(crate) fn make(
        &mut self,
        circuit: &Circuit,
        clamps: &[Option<Clamp>],
        cells: &Cells<Wide>,
        nets: &[NetId],
        acts: &[Act],
        value: Tri,
        free: bool,
    )
        requires cells { length cells.now.values ≡ length circuit.now.flops }
        requires room { HasRoom circuit.now (length nets.now) self.old }
        requires nets { AreSignals (length circuit.now.ops) nets.now }
        requires acts { length acts.now ≡ length nets.now }
        ensures room { HasRoom circuit.now (length nets.now) self.new }
        ensures plan { IsPlan circuit.now clamps.now cells.now.layout nets.now self.new }
        ensures pulses { self.new.pulses.items ≡ map rows.is_pulse acts.now }
        ensures covered { AreCovered nets.now acts.now self.new.marked.items }
        ensures made { self.new.made ≡ true }
        ensures steer { self.new.steer.value ≡ value }
        ensures free { self.new.steer.free ≡ free }
    {
        let same = self.is_of(acts, value, free);
        let torn = self.is_torn(value);
        lower_unless(same, &mut self.marked);
        self.made = true;
        self.torn = torn;
        self.steer.value = value;
        self.steer.free = free;
        read_pulses(acts, &mut self.pulses);
        flag_pulses(nets, acts, &mut self.pulsed);
        show_all(circuit, true, &self.pulsed, &mut self.rises);
        show_all(circuit, false, &self.pulsed, &mut self.falls);
        let steer = self.steer;
        let wiring = Wiring {
            circuit,
            clamps,
            steer,
        };
        find_moves(wiring, &self.pulsed, cells, &mut self.moves);
        let reading = Reading {
            steer,
            cells,
            moves: &self.moves,
            nets,
            acts,
        };
        self.count = list_needs(circuit, reading, &mut self.marked, &mut self.list);
        list_places(
            &circuit.flops,
            true,
            &self.pulsed,
            cells,
            &self.moves,
            &mut self.taking,
        );
        list_places(
            &circuit.flops,
            false,
            &self.pulsed,
            cells,
            &[],
            &mut self.falling,
        );
        self.steady = are_steady(&circuit.flops, &self.pulsed, steer, &self.rises);
    }
}
