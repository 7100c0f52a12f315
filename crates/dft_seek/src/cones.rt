//! Where a stuck net can be seen, and which cells and ports that can hang on.

ghost use Rattle.std.specs.Prelude.{◌≡◌, ◌++◌, ◌||◌, ◌&&◌, ℕ, ◌<◌, false, length, filter, flat_map, IfOk, OnOk};
ghost use Rattle.std.specs.List.{list_any};
ghost use Rattle.dft_netlist.specs.Orders.{numbers_of};
ghost use Rattle.dft_logic.specs.Circuit.{IsCircuit, flag_at as is_up};
ghost use Rattle.dft_faults.specs.declared.fault.Fault.{Fault as FaultOf};
ghost use Rattle.dft_seek.specs.Cones as spec;
ghost use Rattle.dft_seek.specs.Pins.{pins_at, taken_by};
ghost use Rattle.dft_seek.specs.Pins as pins_spec;
ghost use Rattle.dft_seek.specs.Rigs.{IsRig, search_in, shows_in};
ghost use Rattle.dft_seek.specs.Walks.{IsCone};

use crate::marking::{Paths, draw_all, raise_all, spread_all};
use crate::pins::Pins;
use crate::rig::Rig;
use crate::steps::add_pins;
use crate::tables::lowered;
use dft_faults::Fault;
use dft_logic::flag_at;
use dft_netlist::{InstanceId, NetId, Signal};
use std::alloc::{AllocError, Global};

// The points that are reached, bits of output ports and cells; the variables, cells and ports; and by net, whether a walk leads from
// it to a point: no other net is needed.
pub(crate) struct Cone {
    pub outputs: Vec<NetId>,
    pub responses: Vec<InstanceId>,
    pub cells: Vec<InstanceId>,
    pub ports: Vec<NetId>,
    pub needed: Vec<bool>,
}

// One call for all fields, so that the proof of what owns a value stays short.
impl Drop for Cone {
    fn drop(self) {
        let Cone {
            outputs: _,
            responses: _,
            cells: _,
            ports: _,
            needed: _,
        } = self;
    }
}

// Those of the nets that are marked.
fn marked_nets(alloc: Global, nets: &[NetId], marked: &[bool]) -> Result<Vec<NetId>, AllocError>
    ensures { IfOk result (λ left. left.items ≡ filter (λ net. is_up marked.now net.0) nets.now) }
{
    let mut left = Vec::new(alloc);
    for net in nets {
        if flag_at(marked, net.0) {
            left.push(*net)?;
        }
    }
    Ok(left)
}

// Whether the net at a pin is marked.
fn is_marked(marked: &[bool], pin: Option<Signal>) -> bool
    ensures { result ≡ list_any (is_up marked.now) (pins_spec.pin_nets pin) }
{
    match pin {
        Some(Signal::Net(net)) => flag_at(marked, net.0),
        _ => false,
    }
}

// Whether the net at the data, reset or set pin is marked.
fn any_marked_pin(marked: &[bool], pins: &Pins) -> bool
    ensures { result ≡ list_any (is_up marked.now) (taken_by pins.now) }
{
    is_marked(marked, pins.input)
        || (is_marked(marked, pins.reset) || is_marked(marked, pins.preset))
}

// The same for the pins of an instance.
fn takes_marked(marked: &[bool], pins: &[Pins], cell: InstanceId) -> bool
    ensures { result ≡ list_any (is_up marked.now) (taken_by (pins_at pins.now cell.0)) }
{
    match pins.get(cell.0 as usize) {
        Some(pins) => any_marked_pin(marked, pins),
        None => false,
    }
}

// Those of the cells that take a value from a marked net.
fn taking_cells(
    alloc: Global,
    cells: &[InstanceId],
    pins: &[Pins],
    marked: &[bool],
) -> Result<Vec<InstanceId>, AllocError>
    ensures { IfOk result (λ left. left.items ≡ filter (λ cell. list_any (is_up marked.now) (taken_by (pins_at pins.now cell.0))) cells.now) }
{
    let mut left = Vec::new(alloc);
    for cell in cells {
        if takes_marked(marked, pins, *cell) {
            left.push(*cell)?;
        }
    }
    Ok(left)
}

// Adds the nets at the pins of an instance.
fn add_taken(nets: &mut Vec<NetId>, pins: &[Pins], cell: InstanceId) -> Result<(), AllocError>
    ensures { OnOk result (numbers_of nets.new.items ≡ numbers_of nets.old.items ++ taken_by (pins_at pins.now cell.0)) }
{
    match pins.get(cell.0 as usize) {
        Some(pins) => add_pins(nets, pins),
        None => Ok(()),
    }
}

// The nets at the pins of these cells.
fn taken_nets(alloc: Global, cells: &[InstanceId], pins: &[Pins]) -> Result<Vec<NetId>, AllocError>
    ensures { IfOk result (λ nets. numbers_of nets.items ≡ flat_map (λ cell. taken_by (pins_at pins.now cell.0)) cells.now) }
{
    let mut nets = Vec::new(alloc);
    for cell in cells {
        add_taken(&mut nets, pins, *cell)?;
    }
    Ok(nets)
}

// Flags a cell, if there is one.
#[tactic(auto, using(crate::proofs::Filled::flag_raised, crate::proofs::Filled::flag_past))]
fn flag(flags: &mut [bool], cell: Option<InstanceId>)
    ensures size { length flags.new ≡ length flags.old }
    ensures each { (c : ℕ) → c < length flags.old → is_up flags.new c ≡ (is_up flags.old c || shows_in cell c) }
{
    if let Some(cell) = cell {
        if (cell.0 as usize) < flags.len() {
            flags[cell.0 as usize] = true;
        }
    }
}

// Flags the cell that a net shows, if the net is marked.
fn flag_if(flags: &mut [bool], marked: bool, cell: Option<InstanceId>)
    ensures size { length flags.new ≡ length flags.old }
    ensures each { (c : ℕ) → c < length flags.old → is_up flags.new c ≡ (is_up flags.old c || (marked && shows_in cell c)) }
{
    if marked {
        flag(flags, cell);
    }
}

// Flags the cells that marked nets show, by instance.
fn flag_shown(shows: &[Option<InstanceId>], marked: &[bool], shown: &mut [bool])
    requires { length marked.now ≡ length shows.now }
    ensures size { length shown.new ≡ length shown.old }
    ensures each { (c : ℕ) → c < length shown.old → is_up shown.new c ≡ (is_up shown.old c || spec.shown_in shows.now marked.now c) }
{
    for net in 0..shows.len() {
        flag_if(shown, marked[net], shows[net]);
    }
}

// Those of the cells that are flagged.
fn flagged(
    alloc: Global,
    cells: &[InstanceId],
    flags: &[bool],
) -> Result<Vec<InstanceId>, AllocError>
    ensures { IfOk result (λ left. left.items ≡ filter (λ cell. is_up flags.now cell.0) cells.now) }
{
    let mut left = Vec::new(alloc);
    for cell in cells {
        if flag_at(flags, cell.0) {
            left.push(*cell)?;
        }
    }
    Ok(left)
}

impl Rig<'_> {
    // What walks go along.
    fn paths(&self) -> Paths<'_>
        ensures circuit { IsCircuit self.now.circuit }
        ensures order { result.order.now ≡ self.now.circuit.order }
        ensures steps { result.steps.now ≡ self.now.steps.items }
    {
        let circuit = &self.circuit;
        Paths {
            order: &circuit.order,
            steps: &self.steps,
        }
    }

    // Marks the nets to which walks lead from a net, where none is marked.
    fn mark_behind(&self, net: NetId, marked: &mut [bool])
        requires rig { IsRig self.now }
        requires live { net.0 < length self.now.design.now.nets }
        requires size { length marked.old ≡ length self.now.design.now.nets }
        requires clear { (k : ℕ) → is_up marked.old k ≡ false }
        ensures { (f : FaultOf) → spec.AreBehind (search_in self.now f) net.0 marked.new }
    {
        let _ = raise_all(marked, &[net]);
        spread_all(&self.paths(), marked);
    }

    // The nets to which walks lead from a net.
    fn reached(&self, alloc: Global, net: NetId) -> Result<Vec<bool>, AllocError>
        requires rig { IsRig self.now }
        requires live { net.0 < length self.now.design.now.nets }
        ensures { IfOk result (λ marked. (f : FaultOf) → spec.AreBehind (search_in self.now f) net.0 marked.items) }
    {
        let circuit = &self.circuit;
        let mut marked = lowered(alloc, circuit.ops.len())?;
        self.mark_behind(net, &mut marked);
        Ok(marked)
    }

    // Marks the nets from which walks lead to these, where none is marked.
    fn mark_before(&self, outputs: &[NetId], pins: &[NetId], marked: &mut [bool])
        requires rig { IsRig self.now }
        requires size { length marked.old ≡ length self.now.design.now.nets }
        requires clear { (k : ℕ) → is_up marked.old k ≡ false }
        ensures { (f : FaultOf) → spec.AreBefore (search_in self.now f) (numbers_of outputs.now ++ numbers_of pins.now) marked.new }
    {
        let _ = raise_all(marked, outputs);
        let _ = raise_all(marked, pins);
        draw_all(&self.paths(), marked);
    }

    // The nets from which walks lead to these.
    fn leading(
        &self,
        alloc: Global,
        outputs: &[NetId],
        pins: &[NetId],
    ) -> Result<Vec<bool>, AllocError>
        requires rig { IsRig self.now }
        ensures { IfOk result (λ marked. (f : FaultOf) → spec.AreBefore (search_in self.now f) (numbers_of outputs.now ++ numbers_of pins.now) marked.items) }
    {
        let circuit = &self.circuit;
        let mut marked = lowered(alloc, circuit.ops.len())?;
        self.mark_before(outputs, pins, &mut marked);
        Ok(marked)
    }

    // The cells that marked nets show, by instance.
    fn shown(&self, alloc: Global, marked: &[bool]) -> Result<Vec<bool>, AllocError>
        requires rig { IsRig self.now }
        requires marked { length marked.now ≡ length self.now.design.now.nets }
        ensures { IfOk result (λ shown. (c : ℕ) → c < length self.now.design.now.instances → is_up shown.items c ≡ spec.shown_in self.now.shows.items marked.now c) }
    {
        let mut shown = lowered(alloc, self.holds.len())?;
        flag_shown(&self.shows, marked, &mut shown);
        Ok(shown)
    }

    // The points that a stuck net reaches, and the variables.
    pub(crate) fn cone(&self, alloc: Global, fault: Fault) -> Result<Cone, AllocError>
        requires rig { IsRig self.now }
        requires live { fault.net.0 < length self.now.design.now.nets }
        ensures cone { IfOk result (λ cone. IsCone (search_in self.now fault) (spec.cone_of cone)) }
        ensures takes { IfOk result (λ cone. spec.AreTaking self.now cone.responses.items) }
        ensures once { IfOk result (spec.AreOnce self.now) }
        ensures needs { IfOk result (spec.AreNeeded self.now fault) }
    {
        let reached = self.reached(alloc, fault.net)?;
        let outputs = marked_nets(alloc, &self.outputs, &reached)?;
        let responses = taking_cells(alloc, &self.responses, &self.pins, &reached)?;
        let taken = taken_nets(alloc, &responses, &self.pins)?;
        let leading = self.leading(alloc, &outputs, &taken)?;
        let shown = self.shown(alloc, &leading)?;
        let cells = flagged(alloc, &self.cells, &shown)?;
        let ports = marked_nets(alloc, &self.ports, &leading)?;
        Ok(Cone {
            outputs,
            responses,
            cells,
            ports,
            needed: leading,
        })
    }
}
