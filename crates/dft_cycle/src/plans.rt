//! Plans: pulses that are found in one pass, kept for when they come again.

ghost use Rattle.std.specs.Prelude.{◌≡◌, ℕ, ◌<◌, ◌≤◌, [], length, map, take, true, false, IfSome};
ghost use Rattle.std.specs.Vec.{vec_capacity};
ghost use Rattle.dft_netlist.specs.Orders.{Has, numbers_of};
ghost use Rattle.dft_logic.specs.Values as spec;
ghost use Rattle.dft_logic.specs.Circuit.{logic_at, cell_of, cell_at, flag_at as is_up};
ghost use Rattle.dft_takings.specs.Views.{pulse_at};
ghost use Rattle.dft_takings.specs.Shows.{IsShownOn};
ghost use Rattle.dft_abstract.specs.Cycle.{level_before};
ghost use Rattle.dft_takings.specs.Takes.{AreOrigins};
ghost use Rattle.dft_takings.specs.ShownTables.{shown_at, edges_of};
ghost use Rattle.dft_takings.specs.EntryTables.{origin_at, entry_for, entry_needs, entry_at};
ghost use Rattle.dft_cycle.specs.declared.plans.Stage.TheVariants.{Noted, Made};
ghost use Rattle.dft_cycle.specs.Views.{PulsesAmong};
ghost use Rattle.dft_cycle.specs.Plans.{row_of, flags_of, IsPins, IsSketch, IsNeedList, IsPlan, IsNoted, IsFilled, LooseAreUnknown, IsFound};

use crate::phases::Phase;
use crate::steps::{Step, list_steps, settle_steps};
use dft_base::Tri;
use dft_logic::{Circuit, flag_at};
use dft_netlist::{InstanceId, NetId};
use dft_registers::{Cells, Move};
use dft_takings::{
    Entry, Pulse, Shown, Sights, Taking, find_entries, find_moves, find_origins, find_values,
    has_row, list_marked, list_takings, lower, mark_entries, mark_needed, read_list, settle_list,
    show_all,
};

// How far a plan got.
#[derive(Clone, Copy)]
pub(crate) enum Stage {
    // It has a key, and is made when its pulse comes again.
    Noted,
    Made,
    // There is none for its pulse: something that a flip-flop needs may move.
    Barred,
}

// What plans are told apart by, beside the clocks that pulse: the ports of resets and sets and the nets of scan
// enables. Then the nets that scan enables are settled from, at the front of a list.
pub(crate) struct Pins {
    pub ports: Vec<NetId>,
    pub enables: Vec<NetId>,
    pub list: Vec<NetId>,
    pub count: usize,
}

// One call for all fields, so that the proof of what owns a value stays short.
impl Drop for Pins {
    fn drop(self) {
        let Pins {
            ports: _,
            enables: _,
            list: _,
            count: _,
        } = self;
    }
}

// A phase that is found in one pass: whether its clocks rise, those that pulse, and the values of ports and of scan enables, in the order
// of the pins; then how the nets to settle get their values, the registers that move, and what other flip-flops take.
pub(crate) struct Plan {
    pub stage: Stage,
    pub rising: bool,
    pub pulsed: Vec<bool>,
    pub ports: Vec<Tri>,
    pub enables: Vec<Tri>,
    pub steps: Vec<Step>,
    pub moves: Vec<Move>,
    pub takings: Vec<Taking>,
}

// One call for all fields, so that the proof of what owns a value stays short.
impl Drop for Plan {
    fn drop(self) {
        let Plan {
            stage: _,
            rising: _,
            pulsed: _,
            ports: _,
            enables: _,
            steps: _,
            moves: _,
            takings: _,
        } = self;
    }
}

// Whether nets have the flags of a row, in their order, and it has no more.
fn has_flags(nets: &[NetId], row: &[bool], flags: &[bool]) -> bool
    ensures { result ≡ true → row.now ≡ flags_of (is_up flags.now) nets.now }
{
    if row.len() != nets.len() {
        return false;
    }
    for (place, net) in nets.iter().enumerate() {
        if row[place] != flag_at(flags, net.0) {
            return false;
        }
    }
    true
}

// Reads the flags of nets, in their order.
fn read_flags(nets: &[NetId], flags: &[bool], row: &mut [bool])
    requires { length row.old ≡ length nets.now }
    ensures { row.new ≡ flags_of (is_up flags.now) nets.now }
{
    for (place, net) in nets.iter().enumerate() {
        row[place] = flag_at(flags, net.0);
    }
}

// Whether two flags are the same.
fn agree(one: bool, other: bool) -> bool
    ensures { result ≡ true → one ≡ other }
{
    if one { other } else { !other }
}

impl Plan {
    // Whether it is for this phase, where nets have these values.
    pub(crate) fn fits(
        &self,
        clocks: &[NetId],
        pins: &Pins,
        pulse: Pulse<'_>,
        values: &[Tri],
    ) -> bool
        ensures edge { result ≡ true → self.now.rising ≡ pulse.entry.rising }
        ensures pulsed { result ≡ true → self.now.pulsed.items ≡ flags_of (pulse_at pulse.entry).pulsed clocks.now }
        ensures ports { result ≡ true → self.now.ports.items ≡ row_of (pulse_at pulse.entry).ports pins.now.ports.items }
        ensures enables { result ≡ true → self.now.enables.items ≡ row_of (spec.value_at values.now) pins.now.enables.items }
    {
        if !agree(self.rising, pulse.rising) {
            return false;
        }
        if !has_flags(clocks, &self.pulsed, pulse.pulsed) {
            return false;
        }
        if !has_row(&pins.ports, &self.ports, pulse.ports) {
            return false;
        }
        has_row(&pins.enables, &self.enables, values)
    }

    // Whether it is made.
    fn is_made(&self) -> bool
        ensures { result ≡ true → self.now.stage ≡ Made }
    {
        match self.stage {
            Stage::Made => true,
            _ => false,
        }
    }

    // Whether it has a key and no more.
    pub(crate) fn is_noted(&self) -> bool
        ensures { result ≡ true → self.now.stage ≡ Noted }
    {
        match self.stage {
            Stage::Noted => true,
            _ => false,
        }
    }
}

// What plans are made from: room for the flip-flop that each net shows, for what else nets show, and for entries.
pub(crate) struct Sketch {
    pub origins: Vec<Option<InstanceId>>,
    pub shown: Vec<Shown>,
    pub entries: Vec<Entry>,
}

// One call for all fields, so that the proof of what owns a value stays short.
impl Drop for Sketch {
    fn drop(self) {
        let Sketch {
            origins: _,
            shown: _,
            entries: _,
        } = self;
    }
}

// Settles all nets before the edges of a phase, and finds what flip-flops take. Whether all take what is still.
pub(crate) fn draw(phase: Phase<'_>, sketch: &mut Sketch, values: &mut [Tri]) -> bool
    requires sketch { IsSketch phase.circuit.now sketch.old }
    requires values { length values.old ≡ length phase.circuit.now.ops }
    ensures sketch { IsSketch phase.entry.circuit.now sketch.new }
    ensures origins { AreOrigins (logic_at phase.entry.circuit.now) (level_before (pulse_at phase.entry.pulse)) (origin_at sketch.new.origins.items) }
    ensures shows { IsShownOn (logic_at phase.entry.circuit.now) (edges_of phase.entry.pulse.rising (is_up phase.entry.pulse.pulsed.now)) (λ net. true) (shown_at sketch.new.shown.items) }
    ensures entries { result ≡ true → (c : ℕ) → c < length phase.entry.circuit.now.flops → entry_for (cell_at (map cell_of phase.entry.circuit.now.flops) c) (pulse_at phase.entry.pulse) (origin_at sketch.new.origins.items) (shown_at sketch.new.shown.items) (spec.value_at values.new) ≡ Some (entry_at sketch.new.entries.items c) }
{
    let circuit = phase.circuit;
    let pulse = phase.pulse;
    settle_list(circuit, pulse, &circuit.order, values);
    find_origins(circuit, pulse, &mut sketch.origins);
    show_all(circuit, pulse.rising, pulse.pulsed, &mut sketch.shown);
    let sights = Sights {
        origins: &sketch.origins,
        shown: &sketch.shown,
    };
    find_entries(&circuit.flops, pulse, &sights, values, &mut sketch.entries)
}

// Lists the nets that are settled for flip-flops to take what they take, at the front of a list: how many.
fn list_needs(
    circuit: &Circuit,
    entries: &[Entry],
    marked: &mut [bool],
    list: &mut [NetId],
) -> usize
    requires entries { length entries.now ≡ length circuit.now.flops }
    requires marked { length marked.old ≡ length circuit.now.ops }
    requires list { length list.old ≡ length circuit.now.ops }
    ensures room { result ≤ length list.new }
    ensures list { IsNeedList circuit.now marked.new (take result list.new) }
    ensures needed { (c : ℕ) → c < length circuit.now.flops → (k : ℕ) → k < length circuit.now.ops → Has (entry_needs (cell_at (map cell_of circuit.now.flops) c) (entry_at entries.now c)) k → is_up marked.new k ≡ true }
{
    mark_entries(&circuit.flops, entries, marked);
    mark_needed(circuit, marked);
    list_marked(circuit, marked, list)
}

impl Plan {
    // Notes for which pulse it is.
    pub(crate) fn note(&mut self, phase: Phase<'_>, pins: &Pins, values: &[Tri], stage: Stage)
        requires pulsed { length self.old.pulsed.items ≡ length phase.clocks.now }
        requires ports { length self.old.ports.items ≡ length pins.now.ports.items }
        requires enables { length self.old.enables.items ≡ length pins.now.enables.items }
        ensures { IsNoted phase.entry.clocks.now pins.now (pulse_at phase.entry.pulse) (spec.value_at values.now) stage self.old self.new }
    {
        self.stage = stage;
        self.rising = phase.pulse.rising;
        read_flags(phase.clocks, phase.pulse.pulsed, &mut self.pulsed);
        read_list(&pins.ports, phase.pulse.ports, &mut self.ports);
        read_list(&pins.enables, values, &mut self.enables);
    }

    // Lists what is settled, moved and taken where flip-flops have these entries, and lie where these cells do. All marks are
    // lowered after it.
    pub(crate) fn fill(
        &mut self,
        circuit: &Circuit,
        cells: &Cells<Tri>,
        entries: &[Entry],
        marked: &mut [bool],
        list: &mut [NetId],
    )
        requires cells { length cells.now.values ≡ length circuit.now.flops }
        requires entries { length entries.now ≡ length circuit.now.flops }
        requires marked { length marked.old ≡ length circuit.now.ops }
        requires list { length list.old ≡ length circuit.now.ops }
        requires steps { length circuit.now.ops ≤ vec_capacity self.old.steps }
        requires room { length circuit.now.flops ≤ vec_capacity self.old.takings }
        ensures filled { IsFilled circuit.now cells.now.layout (entry_at entries.now) self.old self.new }
        ensures clear { (k : ℕ) → is_up marked.new k ≡ false }
    {
        let count = list_needs(circuit, entries, marked, list);
        list_steps(circuit, &list[..count], &mut self.steps);
        find_moves(cells, entries, &mut self.moves);
        list_takings(
            &circuit.flops,
            entries,
            cells,
            &self.moves,
            &mut self.takings,
        );
        lower(marked);
    }

    // Finds what flip-flops take in a phase by it, if it is made and the phase is the one that it is for. Whether it was
    // found.
    pub(crate) fn find(
        &self,
        phase: Phase<'_>,
        pins: &Pins,
        values: &mut [Tri],
        row: &mut [Tri],
    ) -> bool
        requires pins { IsPins phase.circuit.now pins.now }
        requires plan { IsPlan phase.circuit.now phase.clocks.now phase.pulse.old.now.layout pins.now self.now }
        requires among { PulsesAmong phase.pulse.pulsed.now phase.clocks.now }
        requires ports { length phase.pulse.ports.now ≡ length phase.circuit.now.ops }
        requires values { length values.old ≡ length phase.circuit.now.ops }
        requires row { length row.old ≡ length phase.circuit.now.flops }
        requires cells { length phase.pulse.old.now.values ≡ length phase.circuit.now.flops }
        requires loose { LooseAreUnknown phase.circuit.now (spec.value_at phase.pulse.old.now.values) }
        ensures { result ≡ true → IsFound phase.entry.circuit.now (pulse_at phase.entry.pulse) phase.entry.pulse.old.now self.now row.new }
    {
        if !self.is_made() {
            return false;
        }
        let circuit = phase.circuit;
        settle_steps(circuit, phase.pulse, &self.steps, values);
        if !self.fits(phase.clocks, pins, phase.pulse, values) {
            return false;
        }
        find_values(&circuit.flops, &self.takings, phase.pulse, values, row);
        true
    }
}
