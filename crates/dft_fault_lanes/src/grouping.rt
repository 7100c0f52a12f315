//! The grades of a group of faults, one in each lane.

ghost use Rattle.std.specs.Prelude.{◌≡◌, ◌<◌, ◌≤◌, ◌^◌, ℕ, All, [], length, map, replicate, slice_get, true, None, Some, IfOk};
ghost use Rattle.dft_base.specs.declared.tri.Tri.{Tri as ATri};
ghost use Rattle.dft_netlist.specs.Orders.{numbers_of};
ghost use Rattle.dft_abstract.specs.Cycle.{all_unknown};
ghost use Rattle.dft_faults.specs.declared.fault.Fault.{Fault as AFault};
ghost use Rattle.dft_logic.specs.Values as values;
ghost use Rattle.dft_replay.specs.Rows.{is_pulse, row_of, rows_from};
ghost use Rattle.dft_replay.specs.Vectors.{AreSignals};
ghost use Rattle.dft_evaluator.specs.Wides.{AreWides, IsWide, unknown_wide, value_in};
ghost use Rattle.dft_fault_lanes.specs.Groups.{AreFound, AreGraded, AreSteps, IsFresh};
ghost use Rattle.dft_fault_lanes.specs.Lanes.{AreClamps, AreSettledOn};
ghost use Rattle.dft_fault_lanes.specs.Plans.{AreCovered, SteersAll, needs_of};
ghost use Rattle.dft_fault_lanes.specs.Idle.{AreIdleUnknown};
ghost use Rattle.dft_fault_lanes.specs.Made.{HasRoom, IsPlan};
ghost use Rattle.dft_fault_lanes.specs.Pulses.{at_levels};

use crate::cells::act;
use crate::clamps::{Clamp, stick};
use crate::comparing::{compare, has_one, mark};
use crate::forces::are_ones;
use crate::moves::is_bound;
use crate::plans::Plan;
use crate::pulsing::{Play, pulse, settle_plan};
use crate::vectors::set_inputs;
use dft_base::Tri;
use dft_evaluator::{all, unknown};
use dft_faults::Fault;
use dft_grade::Grade;
use dft_lanes::Wide;
use dft_logic::{Circuit, FlipFlop, Op, Operand};
use dft_netlist::NetId;
use dft_patterns::{Act, Acts};
use dft_registers::Cells;
use std::alloc::{AllocError, Global};

// A circuit with stuck nets, and the nets of signals.
#[derive(Clone, Copy)]
pub(crate) struct Group<'a> {
    pub circuit: &'a Circuit,
    pub clamps: &'a [Option<Clamp>],
    pub nets: &'a [NetId],
}

// Settles the nets of a plan for a strobe. Whether the net of scan enables has its value in each lane.
fn settle_by(
    group: Group<'_>,
    ports: &[Tri],
    plan: &Plan,
    cells: &Cells<Wide>,
    wides: &mut [Wide],
) -> bool
    requires clamped { length group.clamps.now ≡ length group.circuit.now.ops }
    requires clamps { AreClamps group.clamps.now }
    requires plan { IsPlan group.circuit.now group.clamps.now cells.now.layout group.nets.now plan.now }
    requires wides { length wides.old ≡ length group.circuit.now.ops }
    requires each_wide { AreWides wides.old }
    requires each_cell { AreWides cells.now.values }
    ensures each_wide { AreWides wides.new }
    ensures settled { AreSettledOn group.entry.circuit.now.ops (at_levels ports.now [] cells.now.values group.entry.clamps.now) (needs_of (length group.entry.circuit.now.ops) plan.now.marked.items) wides.new }
    ensures steers { result ≡ true → SteersAll plan.now.steer wides.new }
    ensures unknown { plan.now.steer.value ≡ ATri.Unknown → SteersAll plan.now.steer wides.new }
{
    let play = Play {
        circuit: group.circuit,
        clamps: group.clamps,
        ports,
        plan,
    };
    settle_plan(play, &[], cells, wides)
}

// Makes the plan for a vector, unless it is for it.
fn ready(
    group: Group<'_>,
    acts: &[Act],
    value: Tri,
    free: bool,
    cells: &Cells<Wide>,
    plan: &mut Plan,
)
    requires nets { AreSignals (length group.circuit.now.ops) group.nets.now }
    requires acts { length acts.now ≡ length group.nets.now }
    requires count { length cells.now.values ≡ length group.circuit.now.flops }
    requires room { HasRoom group.circuit.now (length group.nets.now) plan.old }
    requires plan { plan.old.made ≡ true → IsPlan group.circuit.now group.clamps.now cells.now.layout group.nets.now plan.old }
    ensures room { HasRoom group.entry.circuit.now (length group.entry.nets.now) plan.new }
    ensures plan { IsPlan group.entry.circuit.now group.entry.clamps.now cells.now.layout group.entry.nets.now plan.new }
    ensures pulses { plan.new.pulses.items ≡ map is_pulse acts.now }
    ensures free { plan.new.steer.free ≡ free }
    ensures covered { AreCovered group.entry.nets.now acts.now plan.new.marked.items }
{
    if !plan.fits(group.nets, acts, value, free) {
        plan.make(
            group.circuit,
            group.clamps,
            cells,
            group.nets,
            acts,
            value,
            free,
        );
    }
}

// Settles the nets that a vector needs for its strobe, by a plan for it; by another one where the net of scan enables has another
// value in some lane.
fn strobe(
    group: Group<'_>,
    acts: &[Act],
    ports: &[Tri],
    free: bool,
    plan: &mut Plan,
    cells: &Cells<Wide>,
    wides: &mut [Wide],
)
    requires clamped { length group.clamps.now ≡ length group.circuit.now.ops }
    requires clamps { AreClamps group.clamps.now }
    requires nets { AreSignals (length group.circuit.now.ops) group.nets.now }
    requires acts { length acts.now ≡ length group.nets.now }
    requires count { length cells.now.values ≡ length group.circuit.now.flops }
    requires room { HasRoom group.circuit.now (length group.nets.now) plan.old }
    requires plan { plan.old.made ≡ true → IsPlan group.circuit.now group.clamps.now cells.now.layout group.nets.now plan.old }
    requires wides { length wides.old ≡ length group.circuit.now.ops }
    requires each_wide { AreWides wides.old }
    requires each_cell { AreWides cells.now.values }
    ensures each_wide { AreWides wides.new }
    ensures room { HasRoom group.entry.circuit.now (length group.entry.nets.now) plan.new }
    ensures plan { IsPlan group.entry.circuit.now group.entry.clamps.now cells.now.layout group.entry.nets.now plan.new }
    ensures pulses { plan.new.pulses.items ≡ map is_pulse acts.now }
    ensures free { plan.new.steer.free ≡ free }
    ensures covered { AreCovered group.entry.nets.now acts.now plan.new.marked.items }
    ensures settled { AreSettledOn group.entry.circuit.now.ops (at_levels ports.now [] cells.now.values group.entry.clamps.now) (needs_of (length group.entry.circuit.now.ops) plan.new.marked.items) wides.new }
    ensures steers { SteersAll plan.new.steer wides.new }
{
    let value = plan.aim(ports);
    ready(group, acts, value, free, cells, plan);
    if !settle_by(group, ports, plan, cells, wides) {
        plan.make(
            group.circuit,
            group.clamps,
            cells,
            group.nets,
            acts,
            Tri::Unknown,
            free,
        );
        settle_by(group, ports, plan, cells, wides);
    }
}

// Plays a vector in each lane: sets its inputs, settles a strobe, pulses its clocks, compares its bits.
fn play(
    group: Group<'_>,
    vector: u32,
    acts: &[Act],
    ports: &mut [Tri],
    plan: &mut Plan,
    wides: &mut [Wide],
    later: &mut [Wide],
    cells: &mut Cells<Wide>,
    live: &mut Wide,
    found: &mut [Option<Grade>],
)
    requires clamped { length group.clamps.now ≡ length group.circuit.now.ops }
    requires clamps { AreClamps group.clamps.now }
    requires nets { AreSignals (length group.circuit.now.ops) group.nets.now }
    requires few { length group.nets.now < 2 ^ 32 }
    requires acts { length acts.now ≡ length group.nets.now }
    requires ports { length ports.old ≡ length group.circuit.now.ops }
    requires room { HasRoom group.circuit.now (length group.nets.now) plan.old }
    requires plan { plan.old.made ≡ true → IsPlan group.circuit.now group.clamps.now cells.old.layout group.nets.now plan.old }
    requires wides { length wides.old ≡ length group.circuit.now.ops }
    requires later { length later.old ≡ length group.circuit.now.ops }
    requires cells { length cells.old.values ≡ length group.circuit.now.flops }
    requires idle { AreIdleUnknown group.circuit.now.flops cells.old.values }
    requires found { length found.old ≡ 512 }
    requires each_wide { AreWides wides.old }
    requires each_later { AreWides later.old }
    requires each_cell { AreWides cells.old.values }
    requires live { IsWide live.old (value_in live.old) }
    ensures each_wide { AreWides wides.new }
    ensures each_later { AreWides later.new }
    ensures each_cell { AreWides cells.new.values }
    ensures cells { length cells.new.values ≡ length cells.old.values }
    ensures idle { AreIdleUnknown group.entry.circuit.now.flops cells.new.values }
    ensures room { HasRoom group.entry.circuit.now (length group.entry.nets.now) plan.new }
    ensures plan { IsPlan group.entry.circuit.now group.entry.clamps.now cells.new.layout group.entry.nets.now plan.new }
    ensures live { IsWide live.new (value_in live.new) }
    ensures inputs { (net : ℕ) → values.value_at ports.new net ≡ (row_of (numbers_of group.entry.nets.now) (values.value_at ports.old) acts.now).vector.ports net }
    ensures steps { AreSteps group.entry.circuit.now group.entry.clamps.now (row_of (numbers_of group.entry.nets.now) (values.value_at ports.old) acts.now) vector cells.old.values cells.new.values live.old live.new found.old found.new }
{
    set_inputs(group.nets, acts, ports);
    let free = are_ones(&plan.forces, ports);
    let circuit = group.circuit;
    act(&circuit.flops, free, ports, cells);
    strobe(group, acts, ports, free, plan, cells, wides);
    let play = Play {
        circuit,
        clamps: group.clamps,
        ports,
        plan,
    };
    pulse(play, wides, later, cells, live);
    compare(vector, group.nets, acts, wides, live, found);
}

// Plays the first so many vectors in each lane, until none is live. After all vectors the lanes that are live yet are Undetected.
fn run(
    group: Group<'_>,
    vectors: &[Acts],
    count: usize,
    ports: &mut [Tri],
    plan: &mut Plan,
    wides: &mut [Wide],
    later: &mut [Wide],
    cells: &mut Cells<Wide>,
    live: &mut Wide,
    found: &mut [Option<Grade>],
)
    requires clamped { length group.clamps.now ≡ length group.circuit.now.ops }
    requires clamps { AreClamps group.clamps.now }
    requires nets { AreSignals (length group.circuit.now.ops) group.nets.now }
    requires few { length group.nets.now < 2 ^ 32 }
    requires vectors { length vectors.now < 2 ^ 32 }
    requires acts { All (λ acts. length acts ≡ length group.nets.now) vectors.now }
    requires ports { length ports.old ≡ length group.circuit.now.ops }
    requires room { HasRoom group.circuit.now (length group.nets.now) plan.old }
    requires plan { plan.old.made ≡ true → IsPlan group.circuit.now group.clamps.now cells.old.layout group.nets.now plan.old }
    requires wides { length wides.old ≡ length group.circuit.now.ops }
    requires later { length later.old ≡ length group.circuit.now.ops }
    requires cells { length cells.old.values ≡ length group.circuit.now.flops }
    requires idle { AreIdleUnknown group.circuit.now.flops cells.old.values }
    requires found { length found.old ≡ 512 }
    requires each_wide { AreWides wides.old }
    requires each_later { AreWides later.old }
    requires each_cell { AreWides cells.old.values }
    requires live { IsWide live.old (value_in live.old) }
    requires fresh { IsFresh ports.old cells.old.values live.old found.old }
    ensures { AreGraded group.entry.circuit.now group.entry.clamps.now (rows_from (numbers_of group.entry.nets.now) all_unknown vectors.now) found.new }
{
    for (vector, acts) in vectors.iter().enumerate() {
        if vector >= count || !has_one(live) {
            return;
        }
        play(
            group,
            vector as u32,
            acts.as_slice(),
            ports,
            plan,
            wides,
            later,
            cells,
            live,
            found,
        );
    }
    let hit = *live;
    mark(Grade::Undetected, &hit, live, found);
}

// So many nets that can be anything in each lane.
fn blank(alloc: Global, count: usize) -> Result<Vec<Wide>, AllocError>
    ensures { IfOk result (λ wides. wides.items ≡ replicate count unknown_wide) }
{
    vec![in alloc; unknown(); count]
}

// Ports that nothing has set yet.
fn unset(alloc: Global, count: usize) -> Result<Vec<Tri>, AllocError>
    ensures { IfOk result (λ ports. ports.items ≡ replicate count ATri.Unknown) }
{
    vec![in alloc; Tri::Unknown; count]
}

// So many lanes without a grade.
fn none_found(alloc: Global, count: usize) -> Result<Vec<Option<Grade>>, AllocError>
    ensures { IfOk result (λ found. found.items ≡ replicate count None) }
{
    vec![in alloc; None; count]
}

// The flip-flop whose bit a net is, if it is one's.
fn flop_behind(op: &Op) -> Option<u32> {
    match op {
        Op::Flop(instance, inverted) => if *inverted { None } else { Some(instance.0) },
        _ => None,
    }
}

// The cell whose bit comes by a net, if that is so and the net has no bounds.
fn cell_behind(circuit: &Circuit, clamps: &[Option<Clamp>], net: NetId) -> Option<u32> {
    if is_bound(clamps, net) {
        return None;
    }
    match circuit.ops.get(net.0 as usize) {
        Some(op) => flop_behind(op),
        None => None,
    }
}

// The cell before one in its chain, if there is one.
fn cell_before(circuit: &Circuit, clamps: &[Option<Clamp>], flop: &FlipFlop) -> Option<u32> {
    match flop.scan {
        Some(scan) => match scan.input {
            Operand::Net(net) => cell_behind(circuit, clamps, net),
            _ => None,
        },
        None => None,
    }
}

// Finds the cell before each in its chain.
fn find_before(
    circuit: &Circuit,
    clamps: &[Option<Clamp>],
    flops: &[FlipFlop],
    before: &mut [Option<u32>],
)
    requires { length before.old ≡ length flops.now }
{
    for (place, flop) in flops.iter().enumerate() {
        before[place] = cell_before(circuit, clamps, flop);
    }
}

// The cell before each in its chain, if there is one.
fn cells_before(
    alloc: Global,
    circuit: &Circuit,
    clamps: &[Option<Clamp>],
    flops: &[FlipFlop],
) -> Result<Vec<Option<u32>>, AllocError>
    ensures { IfOk result (λ before. length before.items ≡ length flops.now) }
{
    let mut before = vec![in alloc; None; flops.len()]?;
    find_before(circuit, clamps, flops, &mut before);
    Ok(before)
}

// The net by which the first scan cell's enable comes, if there is one.
fn steer_net(flops: &[FlipFlop]) -> NetId {
    for flop in flops {
        if let Some(scan) = flop.scan {
            if let Operand::Net(net) = scan.enable {
                return net;
            }
        }
    }
    NetId(0)
}

/// The grades of at most 512 faults as far as the first so many vectors tell, in a lane for each: a grade that is told is that of the
/// design's logic with the fault's net stuck. None is told where a cell may take what moves, or where the vectors end too early.
pub fn grade_group(
    alloc: Global,
    circuit: &Circuit,
    nets: &[NetId],
    vectors: &[Acts],
    count: usize,
    faults: &[Fault],
) -> Result<Vec<Option<Grade>>, AllocError>
    requires nets { AreSignals (length circuit.now.ops) nets.now }
    requires few { length nets.now < 2 ^ 32 }
    requires vectors { length vectors.now < 2 ^ 32 }
    requires acts { All (λ acts. length acts ≡ length nets.now) vectors.now }
    requires faults { length faults.now ≤ 512 }
    requires live { (place : ℕ) (fault : AFault) → slice_get faults.now place ≡ Some fault → fault.net.0 < length circuit.now.ops }
    ensures size { IfOk result (λ found. length found.items ≡ 512) }
    ensures found { IfOk result (λ found. AreFound circuit.now (rows_from (numbers_of nets.now) all_unknown vectors.now) faults.now found.items) }
{
    let size = circuit.ops.len();
    let mut clamps = vec![in alloc; None; size]?;
    stick(faults, &mut clamps);
    let mut ports = unset(alloc, size)?;
    let before = cells_before(alloc, circuit, &clamps, &circuit.flops)?;
    let mut cells = Cells::new(alloc, &before)?;
    let mut plan = Plan::prepare(
        alloc,
        circuit,
        cells.registers(),
        nets.len(),
        steer_net(&circuit.flops),
    )?;
    let mut wides = blank(alloc, size)?;
    let mut later = blank(alloc, size)?;
    let mut live = all(Tri::One);
    let mut found = none_found(alloc, 512)?;
    let group = Group {
        circuit,
        clamps: &clamps,
        nets,
    };
    run(
        group, vectors, count, &mut ports, &mut plan, &mut wides, &mut later, &mut cells,
        &mut live, &mut found,
    );
    Ok(found)
}
