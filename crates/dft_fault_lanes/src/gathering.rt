//! Groups of those faults of which nothing is told yet.

ghost use Rattle.std.specs.Prelude.{◌≡◌, ◌<◌, ◌≤◌, ◌^◌, ℕ, All, length, slice_get, Some, IfOk, OnOk};
ghost use Rattle.dft_logic.specs.Circuit as circuits;
ghost use Rattle.dft_logic.specs.Compiling.{IsCircuitOf};
ghost use Rattle.dft_netlist.specs.Orders.{numbers_of};
ghost use Rattle.dft_replay.specs.Rows as rows;
ghost use Rattle.dft_replay.specs.Rows.{ports_of};
ghost use Rattle.dft_replay.specs.Vectors.{AreSignals};
ghost use Rattle.dft_fault_laws.specs.Stuck.{IsControl};
ghost use Rattle.dft_fault_lanes.specs.Compares.{found_at};
ghost use Rattle.dft_fault_lanes.specs.Gathers.{AreFaults, AreOf, AreTold, AreWritten};

use crate::telling::tell_grades;
use dft_faults::Fault;
use dft_grade::Grade;
use dft_logic::{Circuit, flag_at};
use dft_netlist::{Design, NetId};
use dft_patterns::PatternSet;
use std::alloc::{AllocError, Global};

// Some of the faults with their places, and the place after the last that was looked at.
#[derive(Drop)]
pub(crate) struct Gathered {
    pub places: Vec<usize>,
    pub faults: Vec<Fault>,
    pub next: usize,
}

// The grade that is told at a place, and none past the end.
pub(crate) fn grade_in(found: &[Option<Grade>], place: usize) -> Option<Grade>
    ensures { result ≡ found_at found.now place }
{
    if place < found.len() {
        found[place]
    } else {
        None
    }
}

// The next faults, at most 512, of which nothing is told and something may be.
fn gather(
    alloc: Global,
    faults: &[Fault],
    control: &[bool],
    found: &[Option<Grade>],
    from: usize,
) -> Result<Gathered, AllocError>
    ensures few { IfOk result (λ gathered. length gathered.faults.items ≤ 512) }
    ensures places { IfOk result (λ gathered. AreOf faults.now gathered.places.items gathered.faults.items) }
{
    let mut places = Vec::new(alloc);
    let mut group = Vec::new(alloc);
    for place in from..faults.len() {
        if group.len() >= 512 {
            return Ok(Gathered {
                places,
                faults: group,
                next: place,
            });
        }
        let fault = faults[place];
        if grade_in(found, place).is_none() && !flag_at(control, fault.net.0) {
            places.push(place)?;
            group.push(fault)?;
        }
    }
    Ok(Gathered {
        places,
        faults: group,
        next: faults.len(),
    })
}

// Writes what the lanes tell at the places of their faults.
fn write_back(places: &[usize], told: &[Option<Grade>], found: &mut [Option<Grade>])
    ensures { AreWritten places.now told.now found.old found.new }
{
    for (lane, place) in places.iter().enumerate() {
        if *place < found.len() {
            found[*place] = grade_in(told, lane);
        }
    }
}

// Tells what it can of the next faults by the first so many vectors, and returns the place after them.
fn tell_next(
    alloc: Global,
    design: &Design,
    patterns: &PatternSet,
    circuit: &Circuit,
    nets: &[NetId],
    control: &[bool],
    count: usize,
    faults: &[Fault],
    from: usize,
    found: &mut [Option<Grade>],
) -> Result<usize, AllocError>
    requires circuit { IsCircuitOf design.now (ports_of design.now patterns.now) circuit.now }
    requires control { IsControl design.now (circuits.flag_at control.now) }
    requires named { numbers_of nets.now ≡ rows.nets_of design.now patterns.now.signals }
    requires nets { AreSignals (length circuit.now.ops) nets.now }
    requires few { length nets.now < 2 ^ 32 }
    requires vectors { length patterns.now.vectors < 2 ^ 32 }
    requires acts { All (λ acts. length acts ≡ length nets.now) patterns.now.vectors }
    requires each { AreFaults design.now faults.now }
    requires told { AreTold design.now patterns.now faults.now found.old }
    ensures { OnOk result (AreTold design.now patterns.now faults.now found.new) }
{
    let gathered = gather(alloc, faults, control, found, from)?;
    let told = tell_grades(
        alloc,
        design,
        patterns,
        circuit,
        nets,
        control,
        count,
        &gathered.faults,
    )?;
    write_back(&gathered.places, &told, found);
    Ok(gathered.next)
}

// Tells what it can of all faults by the first so many vectors.
pub(crate) fn tell_all(
    alloc: Global,
    design: &Design,
    patterns: &PatternSet,
    circuit: &Circuit,
    nets: &[NetId],
    control: &[bool],
    count: usize,
    faults: &[Fault],
    found: &mut [Option<Grade>],
) -> Result<(), AllocError>
    requires circuit { IsCircuitOf design.now (ports_of design.now patterns.now) circuit.now }
    requires control { IsControl design.now (circuits.flag_at control.now) }
    requires named { numbers_of nets.now ≡ rows.nets_of design.now patterns.now.signals }
    requires nets { AreSignals (length circuit.now.ops) nets.now }
    requires few { length nets.now < 2 ^ 32 }
    requires vectors { length patterns.now.vectors < 2 ^ 32 }
    requires acts { All (λ acts. length acts ≡ length nets.now) patterns.now.vectors }
    requires each { AreFaults design.now faults.now }
    requires told { AreTold design.now patterns.now faults.now found.old }
    ensures { OnOk result (AreTold design.now patterns.now faults.now found.new) }
{
    let mut from = 0;
    for _group in 0..faults.len() / 512 + 1 {
        if from >= faults.len() {
            return Ok(());
        }
        from = tell_next(
            alloc, design, patterns, circuit, nets, control, count, faults, from, found,
        )?;
    }
    Ok(())
}
