//! The abstract machine of replay.

ghost use Rattle.std.specs.Prelude.{◌≡◌, ◌&&◌, ℕ, ◌<◌, length, map, replicate, true, false, Some, None, slice_get, IfOk, if◌then◌else◌};
ghost use Rattle.dft_cycle.specs.Machine.{logic, AreNets, is_one_of, IsStart, IsSet, IsStrobed, IsPhase, IsPulsed, pulses, acted};
ghost use Rattle.dft_cycle.specs.Machine as spec;
ghost use Rattle.dft_cycle.specs.Views.{AreFalling, Rises, IsRoom};
ghost use Rattle.dft_cycle.specs.Looks.{AreLooks};
ghost use Rattle.dft_cycle.specs.Plans.{ArePlans};
ghost use Rattle.dft_registers.specs.Layout.{Layout};
ghost use Rattle.dft_behavior.specs.Runs.{takes};
ghost use Rattle.dft_takings.specs.Needs.{AreSeen};
ghost use Rattle.dft_logic.specs.Circuit.{cell_of, cell_at, force_at, flag_at as is_up};

use crate::laying::lay_out;
use crate::looking::Looks;
use crate::phases::{Phase, Room, Strobe};
use crate::planning::Plans;
use crate::rounds::find_least;
use crate::sweeping::settle_again;
use dft_base::Tri;
use dft_logic::{Acting, Circuit, FlipFlop, compile, forced, list_of, value_at};
use dft_netlist::{Design, NetId};
use dft_registers::Cells;
use dft_takings::{Pulse, put_all, read_list, settle, strobe_view};
use std::alloc::{AllocError, Global};
use std::marker::Model;

/// What is known of a design over test vectors: three-valued bits that stand above those of every run, whatever the
/// order of the clocks' edges in a vector and the free bits. A clause sees it as a record of lists.
pub struct AbstractMachine<'a> {
    design: &'a Design,
    clocks: Vec<NetId>,
    circuit: Circuit,
    // For each clock whether a cell of its domain takes its bit at a fall.
    falls: Vec<bool>,
    inputs: Vec<Tri>,
    cells: Cells<Tri>,
    shown: Vec<Tri>,
    pulsed: Vec<bool>,
    room: Room,
    plans: Plans,
    looks: Looks,
}

// One call for all fields, so that the proof of what owns a value stays short.
impl Drop for AbstractMachine<'_> {
    fn drop(self) {
        let AbstractMachine {
            design: _,
            clocks: _,
            circuit: _,
            falls: _,
            inputs: _,
            cells: _,
            shown: _,
            pulsed: _,
            room: _,
            plans: _,
            looks: _,
        } = self;
    }
}

impl<'a> Model for AbstractMachine<'a> {
    ghost use Rattle.dft_cycle.specs.Machine.{Machine};

    ghost Value = { Machine };

    ghost use Rattle.dft_cycle.specs.MachineShown.{machine_of, IsMachine};

    ghost view = { machine_of };

    ghost invariant = { IsMachine };
}

impl<'a> AbstractMachine<'a> {
    /// The machine of a design whose clocks are these bits of input ports; every other input may be a reset or a set.
    /// Nothing is known yet. The other calls take no memory.
    pub fn prepare(
        alloc: Global,
        design: &'a Design,
        clocks: &[NetId],
    ) -> Result<AbstractMachine<'a>, AllocError>
        requires { AreNets (length design.now.nets) clocks.now }
        ensures { IfOk result (IsStart design.entry.now clocks.now) }
    {
        let nets = design.net_count() as usize;
        let mut pulsed = lowered(alloc, nets)?;
        flag_clocks(clocks, &mut pulsed);
        let circuit = compile(alloc, design, &pulsed)?;
        let clocks = Vec::from_slice(alloc, clocks)?;
        let lists = make_lists(alloc, &circuit, &clocks, nets)?;
        Ok(AbstractMachine {
            design,
            clocks,
            circuit,
            falls: lists.falls,
            inputs: lists.inputs,
            cells: lists.cells,
            shown: lists.shown,
            pulsed,
            room: lists.room,
            plans: lists.plans,
            looks: lists.looks,
        })
    }

    /// Sets the bit of an input port; flip-flops that have it as their reset or set follow at once. No call looks at what a
    /// clock is set to.
    pub fn set(&mut self, net: NetId, value: Tri)
        requires { net.0 < length self.old.netlist.nets }
        ensures { IsSet (logic self.old) self.old net.0 value self.new }
    {
        self.inputs[net.0 as usize] = value;
        act(&self.circuit, net, value, &mut self.cells);
    }

    /// The value of this input port's bit, and `Unknown` before it is set.
    pub fn input(&self, net: NetId) -> Tri
        ensures { result ≡ spec.value_at self.now.inputs net.0 }
    {
        value_at(&self.inputs, net.0)
    }

    /// Settles all nets for a strobe: all clocks are 0.
    pub fn strobe(&mut self)
        ensures { IsStrobed (logic self.old) self.old self.new }
    {
        let pulse = Pulse {
            rising: false,
            ports: &self.inputs,
            pulsed: &[],
            old: &self.cells,
        };
        settle_again(
            &self.circuit,
            &strobe_view(pulse),
            &mut self.room.values,
            &mut self.room.marked,
        );
        self.shown.as_mut_slice().copy_from_slice(&self.room.values);
    }

    /// The value of this net at the last strobe, and `Unknown` before the first.
    pub fn value(&self, net: NetId) -> Tri
        ensures { result ≡ spec.value_at self.now.shown net.0 }
    {
        value_at(&self.shown, net.0)
    }

    /// The values of nets at a strobe of the machine as it stands, which is seen unchanged.
    pub fn look(&mut self, nets: &[NetId], values: &mut [Tri])
        requires { length values.old ≡ length nets.now }
        ensures same { self.new ≡ self.old }
        ensures seen { AreSeen (logic self.old) (spec.value_at self.old.inputs) (spec.value_at self.old.cells) nets.now values.new }
    {
        let strobe = Strobe {
            circuit: &self.circuit,
            ports: &self.inputs,
            cells: &self.cells,
            nets,
        };
        let read = self.looks.read(strobe, &mut self.room.quick, &mut self.room.marked, values);
        if !read {
            self.look_at_all(nets, values);
        }
    }

    // The same where all nets are settled.
    fn look_at_all(&mut self, nets: &[NetId], values: &mut [Tri])
        requires { length values.old ≡ length nets.now }
        ensures same { self.new ≡ self.old }
        ensures seen { AreSeen (logic self.old) (spec.value_at self.old.inputs) (spec.value_at self.old.cells) nets.now values.new }
    {
        let pulse = Pulse {
            rising: false,
            ports: &self.inputs,
            pulsed: &[],
            old: &self.cells,
        };
        let circuit = &self.circuit;
        circuit.soundness();
        settle_again(
            circuit,
            &strobe_view(pulse),
            &mut self.room.values,
            &mut self.room.marked,
        );
        read_list(nets, &self.room.values, values);
    }

    /// Pulses some clocks, with an entry for each in their order: they rise, then they fall, and the flip-flops of their
    /// domains take what they may take in any order of the edges.
    pub fn pulse(&mut self, pulsed: &[bool])
        requires { length pulsed.now ≡ length self.old.clocks }
        ensures { IsPulsed (logic self.old) self.old pulsed.now self.new }
    {
        self.phase(true, pulsed);
        self.fall(pulsed);
    }

    // A phase of a pulse, by a plan or by the views.
    fn phase(&mut self, rising: bool, pulsed: &[bool])
        requires { length pulsed.now ≡ length self.old.clocks }
        ensures { IsPhase (logic self.old) self.old rising pulsed.now self.new }
    {
        mark(&self.clocks, pulsed, &mut self.pulsed);
        let pulse = Pulse {
            rising,
            ports: &self.inputs,
            pulsed: &self.pulsed,
            old: &self.cells,
        };
        let phase = Phase {
            circuit: &self.circuit,
            clocks: &self.clocks,
            pulse,
        };
        let found = self.plans.find(
            phase,
            &mut self.room.quick,
            &mut self.room.marked,
            &mut self.room.search.next,
        );
        match found {
            Some(place) => {
                let plan = &self.plans.plans[place];
                put_all(
                    &plan.takings,
                    &self.room.search.next,
                    &plan.moves,
                    &mut self.cells,
                );
            }
            None => self.phase_by_views(rising, pulsed),
        }
    }

    // The falls of a pulse. Nothing changes where all cells of the domains that pulse take their bits at rises.
    fn fall(&mut self, pulsed: &[bool])
        requires { length pulsed.now ≡ length self.old.clocks }
        ensures { IsPhase (logic self.old) self.old false pulsed.now self.new }
    {
        let circuit = &self.circuit;
        circuit.soundness();
        if some_fall(&self.falls, pulsed) {
            self.phase(false, pulsed);
        }
    }

    // A phase by the views of all domains and the least map.
    fn phase_by_views(&mut self, rising: bool, pulsed: &[bool])
        requires { length pulsed.now ≡ length self.old.clocks }
        ensures { IsPhase (logic self.old) self.old rising pulsed.now self.new }
    {
        mark(&self.clocks, pulsed, &mut self.pulsed);
        self.cells.read(&mut self.room.search.poss);
        let pulse = Pulse {
            rising,
            ports: &self.inputs,
            pulsed: &self.pulsed,
            old: &self.cells,
        };
        let circuit = &self.circuit;
        let phase = Phase {
            circuit,
            clocks: &self.clocks,
            pulse,
        };
        find_least(
            phase,
            &mut self.room.search,
            &mut self.room.values,
            &mut self.room.marked,
        );
        take(
            &circuit.flops,
            rising,
            &self.pulsed,
            &self.room.search.next,
            &mut self.cells,
        );
    }
}

// What an input that gets a value leaves in a flip-flop with this reset or set.
fn acted_on(force: Option<Acting>, net: NetId, value: Tri, bit: Tri) -> Tri
    ensures { result ≡ acted (force_at force) net.0 value bit }
{
    match force {
        Some(Acting::Clear(port)) => if port.0 == net.0 {
            forced(false, value, bit)
        } else {
            bit
        },
        Some(Acting::Preset(port)) => if port.0 == net.0 {
            forced(true, value, bit)
        } else {
            bit
        },
        None => bit,
    }
}

// An input that gets a value acts on the flip-flops that have it as their reset or set.
fn act(circuit: &Circuit, net: NetId, value: Tri, cells: &mut Cells<Tri>)
    requires live { net.0 < length circuit.now.ops }
    requires cells { length cells.old.values ≡ length circuit.now.flops }
    ensures layout { cells.new.layout ≡ cells.old.layout }
    ensures count { length cells.new.values ≡ length cells.old.values }
    ensures each { (c : ℕ) → c < length circuit.now.flops → spec.value_at cells.new.values c ≡ acted (cell_at (map cell_of circuit.now.flops) c).forces net.0 value (spec.value_at cells.old.values c) }
{
    for cell in list_of(&circuit.followers, net) {
        let place = *cell as usize;
        let bit = cells.at(place);
        cells.set(place, acted_on(circuit.flops[place].force, net, value, bit));
    }
}

// Lowers the flags of these nets, where no others are up.
fn lower_flags(nets: &[NetId], flags: &mut [bool])
    requires live { (place : ℕ) (net : NetId) → slice_get nets.now place ≡ Some net → net.0 < length flags.old }
    requires others { (e : ℕ) → is_up flags.old e ≡ true → is_one_of nets.now e ≡ true }
    ensures { (e : ℕ) → is_up flags.new e ≡ false }
{
    for net in nets {
        flags[net.0 as usize] = false;
    }
}

// Flags the clocks that pulse, where no net but clocks was flagged.
fn mark(clocks: &[NetId], pulsed: &[bool], flags: &mut [bool])
    requires live { (place : ℕ) (clock : NetId) → slice_get clocks.now place ≡ Some clock → clock.0 < length flags.old }
    requires entries { length pulsed.now ≡ length clocks.now }
    requires others { (e : ℕ) → is_up flags.old e ≡ true → is_one_of clocks.now e ≡ true }
    ensures { (e : ℕ) → is_up flags.new e ≡ pulses clocks.now pulsed.now e }
{
    lower_flags(clocks, flags);
    for (place, up) in pulsed.iter().enumerate() {
        if *up {
            flags[clocks[place].0 as usize] = true;
        }
    }
}

// How many instances it has cells for.
fn cell_count(circuit: &Circuit) -> usize
    ensures { result ≡ length circuit.now.flops }
{
    circuit.flops.len()
}

// Whether the cell of an instance takes its bit at a fall.
fn is_falling(flops: &[FlipFlop], instance: u32) -> bool
    ensures { result ≡ (cell_at (map cell_of flops.now) instance).falling }
{
    match flops.get(instance as usize) {
        Some(flop) => flop.falling,
        None => false,
    }
}

// Whether a cell of a domain does.
fn falls_in(circuit: &Circuit, domain: NetId) -> bool
    ensures { result ≡ false → Rises circuit.now domain.0 }
{
    let cells = list_of(&circuit.cells, domain);
    for cell in cells {
        if is_falling(&circuit.flops, *cell) {
            return true;
        }
    }
    false
}

// For each clock whether a cell of its domain does.
fn falling_clocks(
    alloc: Global,
    circuit: &Circuit,
    clocks: &[NetId],
) -> Result<Vec<bool>, AllocError>
    ensures { IfOk result (λ falls. AreFalling circuit.now clocks.now falls.items) }
{
    let mut falls = Vec::with_capacity(alloc, clocks.len())?;
    for clock in clocks {
        falls.push(falls_in(circuit, *clock))?;
    }
    Ok(falls)
}

// Whether one of these clocks pulses.
fn some_fall(falls: &[bool], pulsed: &[bool]) -> bool
    requires { length pulsed.now ≡ length falls.now }
    ensures { result ≡ false → (place : ℕ) → is_up pulsed.now place ≡ true → is_up falls.now place ≡ false }
{
    for (place, up) in pulsed.iter().enumerate() {
        if *up && falls[place] {
            return true;
        }
    }
    false
}

// The flip-flops that take a value in a phase take their next values.
fn take(flops: &[FlipFlop], rising: bool, pulsed: &[bool], next: &[Tri], cells: &mut Cells<Tri>)
    requires cells { length cells.old.values ≡ length flops.now }
    requires next { length next.now ≡ length flops.now }
    ensures layout { cells.new.layout ≡ cells.old.layout }
    ensures count { length cells.new.values ≡ length cells.old.values }
    ensures each { (c : ℕ) → c < length flops.now → spec.value_at cells.new.values c ≡ (if is_up pulsed.now (cell_at (map cell_of flops.now) c).domain && takes rising (cell_at (map cell_of flops.now) c).falling then spec.value_at next.now c else spec.value_at cells.old.values c) }
{
    for (place, flop) in flops.iter().enumerate() {
        let old = cells.at(place);
        cells.set(place, taken(flop.changes(rising, pulsed), next[place], old));
    }
}

// The next value where one is taken.
fn taken(up: bool, next: Tri, old: Tri) -> Tri
    ensures { result ≡ (if up then next else old) }
{
    if up { next } else { old }
}

// What a machine keeps beside its circuit: which clocks have cells that fall, the values of input ports, those of nets at the last strobe, those of cells, and what it
// works with.
#[derive(Drop)]
struct Lists {
    falls: Vec<bool>,
    inputs: Vec<Tri>,
    shown: Vec<Tri>,
    cells: Cells<Tri>,
    room: Room,
    looks: Looks,
    plans: Plans,
}

// The lists of a circuit with so many nets, of which nothing is known.
fn make_lists(
    alloc: Global,
    circuit: &Circuit,
    clocks: &[NetId],
    nets: usize,
) -> Result<Lists, AllocError>
    requires { length circuit.now.ops ≡ nets }
    ensures falls { IfOk result (λ lists. AreFalling circuit.now clocks.now lists.falls.items) }
    ensures inputs { IfOk result (λ lists. lists.inputs.items ≡ replicate nets Tri.Unknown) }
    ensures shown { IfOk result (λ lists. lists.shown.items ≡ replicate nets Tri.Unknown) }
    ensures cells { IfOk result (λ lists. lists.cells.values ≡ replicate (length circuit.now.flops) Tri.Unknown) }
    ensures room { IfOk result (λ lists. IsRoom circuit.now lists.room) }
    ensures looks { IfOk result (λ lists. AreLooks circuit.now lists.looks) }
    ensures plans { IfOk result (λ lists. (l : Layout) → ArePlans circuit.now clocks.now l lists.plans) }
{
    let falls = falling_clocks(alloc, circuit, clocks)?;
    let inputs = unknown(alloc, nets)?;
    let shown = unknown(alloc, nets)?;
    let cells = lay_out(alloc, circuit)?;
    let mut room = Room::prepare(alloc, nets, cell_count(circuit))?;
    let looks = Looks::prepare(alloc, circuit)?;
    let registers = cells.registers();
    let plans = Plans::prepare(alloc, circuit, clocks, registers, &mut room.marked)?;
    let pulse = Pulse {
        rising: false,
        ports: &inputs,
        pulsed: &[],
        old: &cells,
    };
    settle(circuit, &strobe_view(pulse), &mut room.values);
    Ok(Lists {
        falls,
        inputs,
        shown,
        cells,
        room,
        looks,
        plans,
    })
}

// So many values that nobody knows.
fn unknown(alloc: Global, count: usize) -> Result<Vec<Tri>, AllocError>
    ensures { IfOk result (λ values. values.items ≡ replicate count Tri.Unknown) }
{
    vec![in alloc; Tri::Unknown; count]
}

// So many flags that are down.
fn lowered(alloc: Global, count: usize) -> Result<Vec<bool>, AllocError>
    ensures { IfOk result (λ flags. flags.items ≡ replicate count false) }
{
    vec![in alloc; false; count]
}

// Flags the clocks.
fn flag_clocks(clocks: &[NetId], flags: &mut [bool])
    requires live { AreNets (length flags.old) clocks.now }
    requires clear { flags.old ≡ replicate (length flags.old) false }
    ensures { (e : ℕ) → is_up flags.new e ≡ is_one_of clocks.now e }
{
    for clock in clocks {
        flags[clock.0 as usize] = true;
    }
}
