//! The grades of all faults: lanes tell what they can, and the others are graded one by one.

ghost use Rattle.std.specs.Prelude.{◌≡◌, ◌<◌, ◌^◌, ℕ, All, None, Some, false, length, replicate, IfErr, IfOk};
ghost use Rattle.dft_cycle.specs.Machine.{AreNets, is_one_of};
ghost use Rattle.dft_faults.specs.Faulty.{IsFault};
ghost use Rattle.dft_grade.specs.declared.found.Grade.{Grade as AGrade};
ghost use Rattle.dft_grade.specs.Grades.{IsGraded};
ghost use Rattle.dft_grade.specs.AllGrades.{AllFail, AllGraded, AreGrades, faults_in};
ghost use Rattle.dft_logic.specs.Circuit as circuits;
ghost use Rattle.dft_logic.specs.Compiling.{IsCircuitOf};
ghost use Rattle.dft_netlist.specs.Orders.{numbers_of};
ghost use Rattle.dft_patterns.specs.Patterns.{IsWellFormed};
ghost use Rattle.dft_replay.specs.Fits.{first_misfit, TellsMisfit};
ghost use Rattle.dft_replay.specs.Rows as rows;
ghost use Rattle.dft_replay.specs.Rows.{ports_of};
ghost use Rattle.dft_replay.specs.Vectors.{AreSignals};
ghost use Rattle.dft_fault_laws.specs.Stuck.{IsControl};
ghost use Rattle.dft_fault_lanes.specs.Gathers.{AreFaults, AreTold};

use crate::controls::control;
use crate::gathering::{grade_in, tell_all};
use dft_faults::Fault;
use dft_grade::{Grade, Graded, faults, grade};
use dft_logic::{Circuit, compile};
use dft_netlist::{Design, NetId};
use dft_patterns::PatternSet;
use dft_replay::{ReplayError, clocks, nets_of};
use std::alloc::{AllocError, Global};

// Flags the clocks.
fn flag_clocks(clocks: &[NetId], flags: &mut [bool])
    requires live { AreNets (length flags.old) clocks.now }
    requires clear { flags.old ≡ replicate (length flags.old) false }
    ensures { (e : ℕ) → circuits.flag_at flags.new e ≡ is_one_of clocks.now e }
{
    for clock in clocks {
        flags[clock.0 as usize] = true;
    }
}

// So many flags that are down.
fn lowered(alloc: Global, count: usize) -> Result<Vec<bool>, AllocError>
    ensures { IfOk result (λ flags. flags.items ≡ replicate count false) }
{
    vec![in alloc; false; count]
}

// So many faults of which nothing is told.
fn untold(alloc: Global, count: usize) -> Result<Vec<Option<Grade>>, AllocError>
    ensures { IfOk result (λ found. found.items ≡ replicate count None) }
{
    vec![in alloc; None; count]
}

// The circuit of a design with the clocks of the patterns.
fn circuit_of(alloc: Global, design: &Design, patterns: &PatternSet) -> Result<Circuit, ReplayError>
    requires { IsWellFormed patterns.now }
    ensures circuit { IfOk result (IsCircuitOf design.now (ports_of design.now patterns.now)) }
    ensures misfit { IfErr result (TellsMisfit design.now patterns.now.signals) }
{
    let clocks = clocks(alloc, design, patterns)?;
    let mut flags = lowered(alloc, design.net_count() as usize)?;
    flag_clocks(&clocks, &mut flags);
    let circuit = compile(alloc, design, &flags)?;
    Ok(circuit)
}

// What lanes tell of the faults: by a tenth, by a third and by all of the vectors.
fn tell_in_passes(
    alloc: Global,
    design: &Design,
    patterns: &PatternSet,
    circuit: &Circuit,
    nets: &[NetId],
    control: &[bool],
    faults: &[Fault],
) -> Result<Vec<Option<Grade>>, AllocError>
    requires circuit { IsCircuitOf design.now (ports_of design.now patterns.now) circuit.now }
    requires control { IsControl design.now (circuits.flag_at control.now) }
    requires named { numbers_of nets.now ≡ rows.nets_of design.now patterns.now.signals }
    requires nets { AreSignals (length circuit.now.ops) nets.now }
    requires few { length nets.now < 2 ^ 32 }
    requires vectors { length patterns.now.vectors < 2 ^ 32 }
    requires acts { All (λ acts. length acts ≡ length nets.now) patterns.now.vectors }
    requires each { AreFaults design.now faults.now }
    ensures { IfOk result (λ found. AreTold design.now patterns.now faults.now found.items) }
{
    let mut found = untold(alloc, faults.len())?;
    let count = patterns.vectors().len();
    for part in [10, 3, 1] {
        tell_all(
            alloc,
            design,
            patterns,
            circuit,
            nets,
            control,
            count / part,
            faults,
            &mut found,
        )?;
    }
    Ok(found)
}

// What lanes tell of the faults. P7 tells the first signal that is no bit of a port with its direction.
fn told_of(
    alloc: Global,
    design: &Design,
    patterns: &PatternSet,
    faults: &[Fault],
) -> Result<Vec<Option<Grade>>, ReplayError>
    requires patterns { IsWellFormed patterns.now }
    requires each { AreFaults design.now faults.now }
    ensures told { IfOk result (λ found. AreTold design.now patterns.now faults.now found.items) }
    ensures misfit { IfErr result (TellsMisfit design.now patterns.now.signals) }
{
    design.soundness();
    let nets = nets_of(alloc, design, patterns.signals())?;
    let circuit = circuit_of(alloc, design, patterns)?;
    let control = control(alloc, design, &circuit)?;
    let found = tell_in_passes(alloc, design, patterns, &circuit, &nets, &control, faults)?;
    Ok(found)
}

// The grade of a fault: what is told of it, or what a replay with the fault comes to.
fn grade_with(
    alloc: Global,
    design: &Design,
    patterns: &PatternSet,
    fault: Fault,
    told: Option<Grade>,
) -> Result<Grade, ReplayError>
    requires patterns { IsWellFormed patterns.now }
    requires fault { IsFault design.now fault }
    requires told { (found : AGrade) → told ≡ Some found → IsGraded design.now patterns.now fault found }
    ensures graded { IfOk result (IsGraded design.now patterns.now fault) }
    ensures misfit { IfErr result (TellsMisfit design.now patterns.now.signals) }
{
    match told {
        Some(found) => Ok(found),
        None => grade(alloc, design, patterns, fault),
    }
}

// The grades of these faults, in their order.
fn grades_of(
    alloc: Global,
    design: &Design,
    patterns: &PatternSet,
    faults: &[Fault],
    told: &[Option<Grade>],
) -> Result<Vec<Graded>, ReplayError>
    requires patterns { IsWellFormed patterns.now }
    requires faults { AreFaults design.now faults.now }
    requires told { AreTold design.now patterns.now faults.now told.now }
    ensures faults { IfOk result (λ graded. faults_in graded.items ≡ faults.now) }
    ensures each { IfOk result (λ graded. AllGraded design.now patterns.now graded.items) }
    ensures misfit { IfErr result (TellsMisfit design.now patterns.now.signals) }
{
    let mut graded = Vec::new(alloc);
    for (place, fault) in faults.iter().enumerate() {
        let found = grade_with(alloc, design, patterns, *fault, grade_in(told, place))?;
        graded.push(Graded {
            fault: *fault,
            grade: found,
        })?;
    }
    Ok(graded)
}

/// Every fault of a design under patterns, in order, with its grade, as `dft_grade::grades` tells them. P7 tells the first signal that
/// is no bit of a port with its direction.
pub fn grades(
    alloc: Global,
    design: &Design,
    patterns: &PatternSet,
) -> Result<Vec<Graded>, ReplayError>
    requires { IsWellFormed patterns.now }
    ensures fit { IfOk result (λ graded. first_misfit design.now patterns.now.signals ≡ None) }
    ensures grades { IfOk result (λ graded. AreGrades design.now patterns.now graded.items) }
    ensures runs { IfOk result (λ graded. AllFail design.now patterns.now graded.items) }
    ensures few { IfOk result (λ graded. length graded.items < 2 ^ 32) }
    ensures misfit { IfErr result (TellsMisfit design.now patterns.now.signals) }
{
    design.soundness();
    let faults = faults(alloc, design, patterns)?;
    let told = told_of(alloc, design, patterns, &faults)?;
    let graded = grades_of(alloc, design, patterns, &faults, &told)?;
    Ok(graded)
}
