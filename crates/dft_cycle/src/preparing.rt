//! Room for plans and looks, before any pulse.

ghost use Rattle.std.specs.Prelude.{◌≡◌, ℕ, ◌<◌, ◌≤◌, All, length, map, replicate, take, true, false, IfOk};
ghost use Rattle.dft_netlist.specs.Orders.{Has, numbers_of};
ghost use Rattle.dft_logic.specs.Circuit.{force_nets, cell_of, cell_at, flag_at as is_up};
ghost use Rattle.dft_takings.specs.EntryTables.{scan_needs, entry_at};
ghost use Rattle.dft_takings.specs.Entries.{Keeps};
ghost use Rattle.dft_registers.specs.Layout.{Layout};
ghost use Rattle.dft_cycle.specs.Plans.{IsPins, IsPlan, ArePlans};
ghost use Rattle.dft_cycle.specs.Looks.{IsLook, AreLooks};

use crate::looking::Looks;
use crate::looks::Look;
use crate::planning::Plans;
use crate::plans::{Pins, Plan, Sketch, Stage};
use dft_base::Tri;
use dft_logic::Circuit;
use dft_netlist::NetId;
use dft_registers::Move;
use dft_takings::{Entry, Shown, list_marked, lower, mark_entries, mark_forces, mark_needed};
use std::alloc::{AllocError, Global};

// How many plans are kept: each has room for every net and every instance.
const PLANS: usize = 8;

// How many looks are kept: each has room for every net twice.
const LOOKS: usize = 4;

// Lists the ports of resets and sets, at the front of a list: how many. All marks are lowered after it.
fn list_forces(circuit: &Circuit, marked: &mut [bool], list: &mut [NetId]) -> usize
    requires marked { length marked.old ≡ length circuit.now.ops }
    requires list { length list.old ≡ length circuit.now.ops }
    ensures room { result ≤ length list.new }
    ensures all { (c k : ℕ) → c < length circuit.now.flops → k < length circuit.now.ops → Has (force_nets (cell_at (map cell_of circuit.now.flops) c).forces) k → Has (numbers_of (take result list.new)) k }
    ensures clear { (k : ℕ) → is_up marked.new k ≡ false }
{
    mark_forces(&circuit.flops, marked);
    let count = list_marked(circuit, marked, list);
    lower(marked);
    count
}

// Lists the nets of scan enables, at the front of a list: how many. They stay marked.
fn list_enables(
    circuit: &Circuit,
    entries: &[Entry],
    marked: &mut [bool],
    list: &mut [NetId],
) -> usize
    requires entries { length entries.now ≡ length circuit.now.flops }
    requires keep { (c : ℕ) → entry_at entries.now c ≡ Keeps }
    requires marked { length marked.old ≡ length circuit.now.ops }
    requires list { length list.old ≡ length circuit.now.ops }
    ensures room { result ≤ length list.new }
    ensures all { (c k : ℕ) → c < length circuit.now.flops → k < length circuit.now.ops → Has (scan_needs true (cell_at (map cell_of circuit.now.flops) c).takes.scan) k → Has (numbers_of (take result list.new)) k }
{
    mark_entries(&circuit.flops, entries, marked);
    list_marked(circuit, marked, list)
}

// The pins that plans are told apart by, where all entries keep. All marks are lowered after it.
fn pins(
    alloc: Global,
    circuit: &Circuit,
    entries: &[Entry],
    marked: &mut [bool],
) -> Result<Pins, AllocError>
    requires entries { length entries.now ≡ length circuit.now.flops }
    requires keep { (c : ℕ) → entry_at entries.now c ≡ Keeps }
    requires marked { length marked.old ≡ length circuit.now.ops }
    ensures pins { IfOk result (IsPins circuit.now) }
    ensures clear { IfOk result (λ _. (k : ℕ) → is_up marked.new k ≡ false) }
{
    let mut list = vec![in alloc; NetId(0); circuit.ops.len()]?;
    let count = list_forces(circuit, marked, &mut list);
    let ports = Vec::from_slice(alloc, &list[..count])?;
    let count = list_enables(circuit, entries, marked, &mut list);
    let enables = Vec::from_slice(alloc, &list[..count])?;
    mark_needed(circuit, marked);
    let count = list_marked(circuit, marked, &mut list);
    lower(marked);
    Ok(Pins {
        ports,
        enables,
        list,
        count,
    })
}

// A plan for no clock.
fn plan(
    alloc: Global,
    circuit: &Circuit,
    clocks: &[NetId],
    registers: usize,
    pins: &Pins,
) -> Result<Plan, AllocError>
    ensures { IfOk result (λ plan. (l : Layout) → IsPlan circuit.now clocks.now l pins.now plan) }
{
    let pulsed = vec![in alloc; false; clocks.len()]?;
    let ports = vec![in alloc; Tri::Unknown; pins.ports.len()]?;
    let enables = vec![in alloc; Tri::Unknown; pins.enables.len()]?;
    let steps = Vec::with_capacity(alloc, circuit.ops.len())?;
    let moves = vec![in alloc; Move::Stays; registers]?;
    let takings = Vec::with_capacity(alloc, circuit.flops.len())?;
    Ok(Plan {
        stage: Stage::Noted,
        rising: true,
        pulsed,
        ports,
        enables,
        steps,
        moves,
        takings,
    })
}

// All plans, for no clock.
fn plans(
    alloc: Global,
    circuit: &Circuit,
    clocks: &[NetId],
    registers: usize,
    pins: &Pins,
) -> Result<Vec<Plan>, AllocError>
    ensures all { IfOk result (λ plans. (l : Layout) → All (IsPlan circuit.now clocks.now l pins.now) plans.items) }
    ensures count { IfOk result (λ plans. length plans.items ≡ PLANS) }
{
    let mut plans = Vec::new(alloc);
    for _place in 0..PLANS {
        plans.push(plan(alloc, circuit, clocks, registers, pins)?)?;
    }
    Ok(plans)
}

impl Plans {
    // Room for plans, and what they are made from, where cells lie in so many registers. All marks are lowered after it.
    pub(crate) fn prepare(
        alloc: Global,
        circuit: &Circuit,
        clocks: &[NetId],
        registers: usize,
        marked: &mut [bool],
    ) -> Result<Plans, AllocError>
        requires marked { length marked.old ≡ length circuit.now.ops }
        ensures plans { IfOk result (λ plans. (l : Layout) → ArePlans circuit.now clocks.now l plans) }
        ensures clear { IfOk result (λ _. (k : ℕ) → is_up marked.new k ≡ false) }
    {
        let origins = vec![in alloc; None; circuit.ops.len()]?;
        let shown = vec![in alloc; Shown::Nothing; circuit.ops.len()]?;
        let entries = vec![in alloc; Entry::Keeps; circuit.flops.len()]?;
        let pins = pins(alloc, circuit, &entries, marked)?;
        let list = vec![in alloc; NetId(0); circuit.ops.len()]?;
        let plans = plans(alloc, circuit, clocks, registers, &pins)?;
        let sketch = Sketch {
            origins,
            shown,
            entries,
        };
        Ok(Plans {
            pins,
            sketch,
            list,
            plans,
            noted: 0,
            taken: 0,
        })
    }
}

// A look at no net.
fn look(alloc: Global, circuit: &Circuit) -> Result<Look, AllocError>
    ensures { IfOk result (IsLook circuit.now) }
{
    let nets = Vec::with_capacity(alloc, circuit.ops.len())?;
    let steps = Vec::with_capacity(alloc, circuit.ops.len())?;
    Ok(Look {
        made: false,
        nets,
        steps,
    })
}

impl Looks {
    // Room for looks.
    pub(crate) fn prepare(alloc: Global, circuit: &Circuit) -> Result<Looks, AllocError>
        ensures { IfOk result (AreLooks circuit.now) }
    {
        let list = vec![in alloc; NetId(0); circuit.ops.len()]?;
        let mut looks = Vec::new(alloc);
        for _place in 0..LOOKS {
            looks.push(look(alloc, circuit)?)?;
        }
        Ok(Looks {
            looks,
            list,
            noted: 0,
            taken: 0,
        })
    }
}
