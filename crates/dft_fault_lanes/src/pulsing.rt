//! A vector's strobe and its pulse in each lane.

ghost use Rattle.std.specs.Prelude.{◌≡◌, ◌<◌, ◌≤◌, ℕ, List, [], false, true, length, slice_index_or, take as first};
ghost use Rattle.dft_netlist.specs.declared.ids.NetId.{NetId as ANetId};
ghost use Rattle.dft_netlist.specs.Orders.{Has, numbers_of};
ghost use Rattle.dft_logic.specs.Circuit.{AreOrdered, flag_at as is_up};
ghost use Rattle.dft_evaluator.specs.Wides.{AreWides, IsWide, value_in};
ghost use Rattle.dft_fault_lanes.specs.Lanes.{AreClamps, AreSettledOn, AreTaken, KeepsSteady};
ghost use Rattle.dft_fault_lanes.specs.Plans.{SteersAll, needs_of};
ghost use Rattle.dft_fault_lanes.specs.Seen.{knows, seen};
ghost use Rattle.dft_fault_lanes.specs.Moves.{NoneActs};
ghost use Rattle.dft_fault_lanes.specs.Idle.{AreIdleUnknown};
ghost use Rattle.dft_fault_lanes.specs.Made.{IsPlan};
ghost use Rattle.dft_fault_lanes.specs.Pulses.{ArePulsed, IsFall, IsPhase, at_levels};

use crate::cells::take;
use crate::clamps::Clamp;
use crate::marking::Steer;
use crate::plans::Plan;
use crate::steady::{keep_steady, live_where};
use crate::sweeping::{Setting, settle};
use dft_base::Tri;
use dft_evaluator::{all, wide_at};
use dft_lanes::Wide;
use dft_logic::Circuit;
use dft_netlist::NetId;
use dft_registers::Cells;

/// A vector on a circuit with stuck nets: the values of input ports, by net, and what is settled and taken as its clocks pulse.
#[derive(Clone, Copy)]
pub struct Play<'a> {
    pub circuit: &'a Circuit,
    pub clamps: &'a [Option<Clamp>],
    pub ports: &'a [Tri],
    pub plan: &'a Plan,
}

// Whether two words are the same.
fn same_word(one: u64, other: u64) -> bool
    ensures { result ≡ true → one ≡ other }
{
    one == other
}

// Whether two nets have the same words at a place.
fn same_at(one: &Wide, other: &Wide, word: usize) -> bool
    requires { word < 8 }
    ensures zeros { result ≡ true → slice_index_or one.now.can_zero word 0 ≡ slice_index_or other.now.can_zero word 0 }
    ensures ones { result ≡ true → slice_index_or one.now.can_one word 0 ≡ slice_index_or other.now.can_one word 0 }
{
    if !same_word(one.can_zero[word], other.can_zero[word]) {
        return false;
    }
    same_word(one.can_one[word], other.can_one[word])
}

// Whether two nets have the same values in each lane.
fn are_same(one: &Wide, other: &Wide) -> bool
    ensures { result ≡ true → (lane : ℕ) → lane < 512 → value_in one.now lane ≡ value_in other.now lane }
{
    for word in 0..8 {
        if !same_at(one, other, word) {
            return false;
        }
    }
    true
}

// Whether a value is the same in each lane.
fn is_all(wide: &Wide, value: Tri) -> bool
    ensures { result ≡ true → (lane : ℕ) → lane < 512 → value_in wide.now lane ≡ value }
{
    are_same(wide, &all(value))
}

// Whether a net has its value in each lane, where that is known.
fn holds(steer: Steer, wides: &[Wide]) -> bool
    ensures { result ≡ true → SteersAll steer wides.now }
{
    match steer.value {
        Tri::Unknown => true,
        Tri::Zero => is_all(&wide_at(wides, steer.net.0), Tri::Zero),
        Tri::One => is_all(&wide_at(wides, steer.net.0), Tri::One),
    }
}

// The first so many nets of a list.
fn front(list: &[NetId], count: usize) -> &[NetId]
    requires { count ≤ length list.now }
    ensures { result.now ≡ first count list.now }
{
    &list[..count]
}

/// Settles the nets that a plan needs while clocks have these levels. Whether the net of scan enables has its value in each lane.
pub fn settle_plan(play: Play<'_>, levels: &[bool], cells: &Cells<Wide>, wides: &mut [Wide]) -> bool
    requires clamped { length play.clamps.now ≡ length play.circuit.now.ops }
    requires clamps { AreClamps play.clamps.now }
    requires nets { length wides.old ≡ length play.circuit.now.ops }
    requires wides { AreWides wides.old }
    requires cells { AreWides cells.now.values }
    requires room { play.plan.now.count ≤ length play.plan.now.list.items }
    requires ordered { AreOrdered play.circuit.now.ops [] (numbers_of (first play.plan.now.count play.plan.now.list.items)) }
    requires listed { (k : ℕ) → is_up play.plan.now.marked.items k ≡ true → Has (numbers_of (first play.plan.now.count play.plan.now.list.items)) k }
    ensures wides { AreWides wides.new }
    ensures settled { AreSettledOn play.entry.circuit.now.ops (at_levels play.entry.ports.now levels.now cells.now.values play.entry.clamps.now) (needs_of (length play.entry.circuit.now.ops) play.entry.plan.now.marked.items) wides.new }
    ensures steers { result ≡ true → SteersAll play.entry.plan.now.steer wides.new }
{
    let setting = Setting {
        ports: play.ports,
        levels,
        cells,
        clamps: play.clamps,
    };
    let plan = play.plan;
    settle(play.circuit, setting, front(&plan.list, plan.count), wides);
    holds(plan.steer, wides)
}

// Leaves those lanes live in which each cell reads what is still as the clocks rise.
fn keep_rises(play: Play<'_>, held: &Cells<Wide>, wides: &[Wide], live: &mut Wide)
    requires plan { (signals : List ANetId) × IsPlan play.circuit.now play.clamps.now held.now.layout signals play.plan.now }
    requires nets { length wides.now ≡ length play.circuit.now.ops }
    requires wides { AreWides wides.now }
    requires steers { SteersAll play.plan.now.steer wides.now }
    requires live { IsWide live.old (value_in live.old) }
    ensures steady { KeepsSteady play.entry.circuit.now.flops true play.entry.plan.now.pulsed.items (knows play.entry.circuit.now.ops play.entry.clamps.now play.entry.plan.now.marked.items) play.entry.plan.now.rises.items (seen play.entry.circuit.now.ops play.entry.clamps.now play.entry.plan.now.marked.items held.now.values wides.now) live.old live.new }
    ensures wide { IsWide live.new (value_in live.new) }
{
    let plan = play.plan;
    let circuit = play.circuit;
    if !plan.steady {
        keep_steady(&circuit.flops, true, &plan.pulsed, &plan.rises, wides, live);
    }
}

// Leaves those lanes live in which each cell reads what is still as the clocks fall.
fn keep_falls(play: Play<'_>, known: bool, held: &Cells<Wide>, wides: &[Wide], live: &mut Wide)
    requires plan { (signals : List ANetId) × IsPlan play.circuit.now play.clamps.now held.now.layout signals play.plan.now }
    requires wides { AreWides wides.now }
    requires steers { known ≡ true → SteersAll play.plan.now.steer wides.now }
    requires live { IsWide live.old (value_in live.old) }
    ensures steady { KeepsSteady play.entry.circuit.now.flops false play.entry.plan.now.pulsed.items (needs_of (length play.entry.circuit.now.ops) play.entry.plan.now.marked.items) play.entry.plan.now.falls.items wides.now live.old live.new }
    ensures wide { IsWide live.new (value_in live.new) }
{
    let plan = play.plan;
    let circuit = play.circuit;
    live_where(known, live);
    keep_steady(
        &circuit.flops,
        false,
        &plan.pulsed,
        &plan.falls,
        wides,
        live,
    );
}

// The cells take their values as the clocks rise: registers move, and the others take theirs.
fn take_rises(play: Play<'_>, wides: &[Wide], cells: &mut Cells<Wide>)
    requires plan { (signals : List ANetId) × IsPlan play.circuit.now play.clamps.now cells.old.layout signals play.plan.now }
    requires nets { length wides.now ≡ length play.circuit.now.ops }
    requires count { length cells.old.values ≡ length play.circuit.now.flops }
    requires free { play.plan.now.steer.free ≡ true → NoneActs play.circuit.now.flops play.ports.now }
    requires idle { AreIdleUnknown play.circuit.now.flops cells.old.values }
    requires steers { SteersAll play.plan.now.steer wides.now }
    requires wides { AreWides wides.now }
    requires cells { AreWides cells.old.values }
    ensures cells { AreWides cells.new.values }
    ensures layout { cells.new.layout ≡ cells.old.layout }
    ensures count { length cells.new.values ≡ length cells.old.values }
    ensures taken { AreSettledOn play.entry.circuit.now.ops (at_levels play.entry.ports.now [] cells.old.values play.entry.clamps.now) (needs_of (length play.entry.circuit.now.ops) play.entry.plan.now.marked.items) wides.now → AreTaken play.entry.circuit.now.flops true play.entry.plan.now.pulsed.items play.entry.ports.now (seen play.entry.circuit.now.ops play.entry.clamps.now play.entry.plan.now.marked.items cells.old.values wides.now) cells.old.values cells.new.values }
{
    let plan = play.plan;
    let circuit = play.circuit;
    cells.shift(&plan.moves);
    take(&circuit.flops, &plan.taking, play.ports, wides, cells);
}

// The clocks rise, after a strobe with these values of nets.
fn rise(play: Play<'_>, wides: &[Wide], cells: &mut Cells<Wide>, live: &mut Wide)
    requires plan { (signals : List ANetId) × IsPlan play.circuit.now play.clamps.now cells.old.layout signals play.plan.now }
    requires nets { length wides.now ≡ length play.circuit.now.ops }
    requires count { length cells.old.values ≡ length play.circuit.now.flops }
    requires free { play.plan.now.steer.free ≡ true → NoneActs play.circuit.now.flops play.ports.now }
    requires idle { AreIdleUnknown play.circuit.now.flops cells.old.values }
    requires steers { SteersAll play.plan.now.steer wides.now }
    requires wides { AreWides wides.now }
    requires cells { AreWides cells.old.values }
    requires live { IsWide live.old (value_in live.old) }
    ensures cells { AreWides cells.new.values }
    ensures layout { cells.new.layout ≡ cells.old.layout }
    ensures count { length cells.new.values ≡ length cells.old.values }
    ensures live { IsWide live.new (value_in live.new) }
    ensures phase { AreSettledOn play.entry.circuit.now.ops (at_levels play.entry.ports.now [] cells.old.values play.entry.clamps.now) (needs_of (length play.entry.circuit.now.ops) play.entry.plan.now.marked.items) wides.now → IsPhase play.entry.circuit.now (knows play.entry.circuit.now.ops play.entry.clamps.now play.entry.plan.now.marked.items) true play.entry.ports.now play.entry.plan.now.pulsed.items (seen play.entry.circuit.now.ops play.entry.clamps.now play.entry.plan.now.marked.items cells.old.values wides.now) cells.old.values cells.new.values live.old live.new }
{
    keep_rises(play, cells, wides, live);
    take_rises(play, wides, cells);
}

// The clocks fall, and cells take their values.
fn fall_with(play: Play<'_>, known: bool, wides: &[Wide], cells: &mut Cells<Wide>, live: &mut Wide)
    requires plan { (signals : List ANetId) × IsPlan play.circuit.now play.clamps.now cells.old.layout signals play.plan.now }
    requires steers { known ≡ true → SteersAll play.plan.now.steer wides.now }
    requires count { length cells.old.values ≡ length play.circuit.now.flops }
    requires wides { AreWides wides.now }
    requires cells { AreWides cells.old.values }
    requires live { IsWide live.old (value_in live.old) }
    ensures cells { AreWides cells.new.values }
    ensures layout { cells.new.layout ≡ cells.old.layout }
    ensures count { length cells.new.values ≡ length cells.old.values }
    ensures live { IsWide live.new (value_in live.new) }
    ensures phase { IsPhase play.entry.circuit.now (needs_of (length play.entry.circuit.now.ops) play.entry.plan.now.marked.items) false play.entry.ports.now play.entry.plan.now.pulsed.items wides.now cells.old.values cells.new.values live.old live.new }
{
    let circuit = play.circuit;
    keep_falls(play, known, cells, wides, live);
    take(&circuit.flops, &play.plan.falling, play.ports, wides, cells);
}

// The falls of a pulse.
fn fall(play: Play<'_>, later: &mut [Wide], cells: &mut Cells<Wide>, live: &mut Wide)
    requires plan { (signals : List ANetId) × IsPlan play.circuit.now play.clamps.now cells.old.layout signals play.plan.now }
    requires clamped { length play.clamps.now ≡ length play.circuit.now.ops }
    requires clamps { AreClamps play.clamps.now }
    requires nets { length later.old ≡ length play.circuit.now.ops }
    requires count { length cells.old.values ≡ length play.circuit.now.flops }
    requires later { AreWides later.old }
    requires cells { AreWides cells.old.values }
    requires live { IsWide live.old (value_in live.old) }
    ensures later { AreWides later.new }
    ensures cells { AreWides cells.new.values }
    ensures layout { cells.new.layout ≡ cells.old.layout }
    ensures count { length cells.new.values ≡ length cells.old.values }
    ensures live { IsWide live.new (value_in live.new) }
    ensures fall { IsFall play.entry.circuit.now (needs_of (length play.entry.circuit.now.ops) play.entry.plan.now.marked.items) play.entry.ports.now play.entry.plan.now.pulsed.items play.entry.clamps.now cells.old.values cells.new.values live.old live.new }
{
    if !play.plan.falling.is_empty() {
        let known = settle_plan(play, &play.plan.pulsed, cells, later);
        fall_with(play, known, later, cells, live);
    }
}

/// Pulses clocks after a strobe with these values of nets. Lanes stay live in which each cell that takes a value reads what is still.
/// Nets are settled anew in another table where a cell takes a value at a fall.
pub fn pulse(
    play: Play<'_>,
    wides: &[Wide],
    later: &mut [Wide],
    cells: &mut Cells<Wide>,
    live: &mut Wide,
)
    requires plan { (signals : List ANetId) × IsPlan play.circuit.now play.clamps.now cells.old.layout signals play.plan.now }
    requires free { play.plan.now.steer.free ≡ true → NoneActs play.circuit.now.flops play.ports.now }
    requires idle { AreIdleUnknown play.circuit.now.flops cells.old.values }
    requires steers { SteersAll play.plan.now.steer wides.now }
    requires clamped { length play.clamps.now ≡ length play.circuit.now.ops }
    requires clamps { AreClamps play.clamps.now }
    requires strobe { length wides.now ≡ length play.circuit.now.ops }
    requires nets { length later.old ≡ length play.circuit.now.ops }
    requires count { length cells.old.values ≡ length play.circuit.now.flops }
    requires wides { AreWides wides.now }
    requires later { AreWides later.old }
    requires cells { AreWides cells.old.values }
    requires live { IsWide live.old (value_in live.old) }
    ensures later { AreWides later.new }
    ensures cells { AreWides cells.new.values }
    ensures layout { cells.new.layout ≡ cells.old.layout }
    ensures count { length cells.new.values ≡ length cells.old.values }
    ensures live { IsWide live.new (value_in live.new) }
    ensures idle { AreSettledOn play.entry.circuit.now.ops (at_levels play.entry.ports.now [] cells.old.values play.entry.clamps.now) (needs_of (length play.entry.circuit.now.ops) play.entry.plan.now.marked.items) wides.now → AreIdleUnknown play.entry.circuit.now.flops cells.new.values }
    ensures pulsed { ArePulsed play.entry.circuit.now (needs_of (length play.entry.circuit.now.ops) play.entry.plan.now.marked.items) play.entry.ports.now play.entry.plan.now.pulsed.items play.entry.clamps.now wides.now cells.old.values cells.new.values live.old live.new }
{
    play.circuit.soundness();
    rise(play, wides, cells, live);
    fall(play, later, cells, live);
}
