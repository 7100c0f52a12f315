//! A vector on the machine: its inputs are set, its bits are compared at a strobe, its clocks pulse.

ghost use Rattle.std.specs.Prelude.{◌≡◌, ◌<◌, ◌^◌, ℕ, count_by, length, IfOk, IfSome};
ghost use Rattle.dft_netlist.specs.Orders.{numbers_of};
ghost use Rattle.dft_cycle.specs.Machine.{value_at};
ghost use Rattle.dft_cycle.specs.MachineLaws.{IsForced, StandsSince};
ghost use Rattle.dft_replay.specs.Rows as rows;
ghost use Rattle.dft_replay.specs.Looks.{HasRanks, HasRoom};
ghost use Rattle.dft_replay.specs.Rows.{act_on, row_of};
ghost use Rattle.dft_replay.specs.Vectors.{AreSignals, AreClocks, IsPlayed, is_compared};
ghost use Rattle.dft_replay.specs.Verdicts.{IsPlaced};

use crate::acts::{act_at, differ, mark, set_by};
use crate::comparing::{Asked, compare, list_compared};
use crate::verdict::{Unknowns, Verdict};
use dft_base::Tri;
use dft_cycle::AbstractMachine;
use dft_netlist::NetId;
use dft_patterns::Act;
use std::alloc::{AllocError, Global};

// Sets the inputs that a vector sets.
fn set_inputs(machine: &mut AbstractMachine<'_>, nets: &[NetId], acts: &[Act])
    requires forced { IsForced machine.old }
    requires nets { AreSignals (length machine.old.netlist.nets) nets.now }
    requires acts { length acts.now ≡ length nets.now }
    ensures stands { StandsSince machine.old machine.new }
    ensures inputs { (net : ℕ) → value_at machine.new.inputs net ≡ rows.set_by (act_on (numbers_of nets.now) acts.now net) (value_at machine.old.inputs net) }
{
    for (signal, net) in nets.iter().enumerate() {
        let before = machine.input(*net);
        let value = set_by(act_at(acts, signal), before);
        if differ(value, before) {
            machine.set(*net, value);
        }
    }
}

// What the vectors of a replay use again and again, made once.
pub(crate) struct Room {
    pub pulsed: Vec<bool>,
    pub wanted: Vec<NetId>,
    pub asked: Vec<Asked>,
    pub seen: Vec<Tri>,
}

// One call for all fields, so that the proof of what owns a value stays short.
impl Drop for Room {
    fn drop(self) {
        let Room {
            pulsed: _,
            wanted: _,
            asked: _,
            seen: _,
        } = self;
    }
}

impl Room {
    /// Room for so many clocks and signals.
    pub fn new(alloc: Global, clocks: usize, signals: usize) -> Result<Room, AllocError>
        ensures { IfOk result (HasRoom clocks signals) }
    {
        Ok(Room {
            pulsed: vec![in alloc; false; clocks]?,
            wanted: Vec::with_capacity(alloc, signals)?,
            asked: Vec::with_capacity(alloc, signals)?,
            seen: vec![in alloc; Tri::Unknown; signals]?,
        })
    }
}

// Plays a vector: sets its inputs, compares at a strobe and pulses.
pub(crate) fn play(
    machine: &mut AbstractMachine<'_>,
    nets: &[NetId],
    clocks: &[usize],
    room: &mut Room,
    unknowns: Unknowns,
    vector: u32,
    acts: &[Act],
) -> Option<Verdict>
    requires ordered { HasRanks machine.old.netlist }
    requires forced { IsForced machine.old }
    requires nets { AreSignals (length machine.old.netlist.nets) nets.now }
    requires few { length nets.now < 2 ^ 32 }
    requires acts { length acts.now ≡ length nets.now }
    requires clocks { AreClocks machine.old nets.now clocks.now acts.now }
    requires room { HasRoom (length clocks.now) (length nets.now) room.old }
    ensures played { IsPlayed unknowns machine.old (row_of (numbers_of nets.now) (value_at machine.old.inputs) acts.now) vector result machine.new }
    ensures placed { (vectors : ℕ) → vector < vectors → IfSome result (IsPlaced vectors (length nets.now)) }
    ensures room { HasRoom (length clocks.now) (length nets.now) room.new }
    ensures counted { length room.new.asked.items ≡ count_by is_compared acts.now }
{
    set_inputs(machine, nets, acts);
    list_compared(nets, acts, &mut room.wanted, &mut room.asked);
    let decision = compare(
        machine,
        unknowns,
        vector,
        &room.wanted,
        &room.asked,
        &mut room.seen,
    );
    mark(clocks, acts, &mut room.pulsed);
    machine.pulse(&room.pulsed);
    decision
}
