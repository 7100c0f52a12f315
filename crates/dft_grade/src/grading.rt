//! The faults of a design under patterns, and their grades.

ghost use Rattle.std.specs.Prelude.{ℕ, ◌≡◌, ◌<◌, ◌^◌, None, Some, length, slice_get, IfErr, IfOk};
ghost use Rattle.dft_faults.specs.declared.fault.Fault.{Fault as AFault};
ghost use Rattle.dft_faults.specs.Faulty.{IsFault};
ghost use Rattle.dft_grade.specs.AllGrades.{AllFail, AllGraded, AreGrades, faults_in};
ghost use Rattle.dft_grade.specs.Grades as spec;
ghost use Rattle.dft_grade.specs.Grades.{IsGraded, IsPlaced};
ghost use Rattle.dft_grade.specs.Laws.{FailsInRuns};
ghost use Rattle.dft_patterns.specs.Patterns.{IsWellFormed};
ghost use Rattle.dft_replay.specs.Fits.{first_misfit, TellsMisfit};

use crate::found::{Grade, Graded};
use dft_faults::{Fault, faulty};
use dft_netlist::Design;
use dft_patterns::PatternSet;
use dft_replay::{ReplayError, Unknowns, Verdict, clocks, replay_past};
use std::alloc::Global;

// The grade that a replay comes to that passes over unknown bits.
fn grade_of(verdict: Verdict) -> Grade
    ensures { result ≡ spec.grade_of verdict }
{
    match verdict {
        Verdict::Mismatch { vector, signal } => Grade::Detected { vector, signal },
        Verdict::Pass { .. } | Verdict::Undetermined { .. } => Grade::Undetected,
    }
}

/// The faults of a design under patterns: for each net in order that has a driver, is no bit of an input port and shows none of the
/// patterns' clocks, value 0 and then 1. P7 tells the first signal that is no bit of a port with its direction.
pub fn faults(
    alloc: Global,
    design: &Design,
    patterns: &PatternSet,
) -> Result<Vec<Fault>, ReplayError>
    requires { IsWellFormed patterns.now }
    ensures fit { IfOk result (λ faults. first_misfit design.now patterns.now.signals ≡ None) }
    ensures faults { IfOk result (λ faults. faults.items ≡ spec.faults_of design.now patterns.now) }
    ensures each { IfOk result (λ faults. (place : ℕ) (fault : AFault) → slice_get faults.items place ≡ Some fault → IsFault design.now fault) }
    ensures misfit { IfErr result (TellsMisfit design.now patterns.now.signals) }
{
    let clocks = clocks(alloc, design, patterns)?;
    let faults = dft_faults::faults(alloc, design, &clocks)?;
    Ok(faults)
}

/// Whether the patterns find a fault: the first compared bit of the design with the fault, by vectors and then by signals, that is
/// known to be the opposite of what is printed; unknown bits are passed over. P7 tells the first signal that is no bit of a port with
/// its direction.
pub fn grade(
    alloc: Global,
    design: &Design,
    patterns: &PatternSet,
    fault: Fault,
) -> Result<Grade, ReplayError>
    requires patterns { IsWellFormed patterns.now }
    requires fault { IsFault design.now fault }
    ensures fit { IfOk result (λ grade. first_misfit design.now patterns.now.signals ≡ None) }
    ensures graded { IfOk result (IsGraded design.now patterns.now fault) }
    ensures runs { IfOk result (FailsInRuns design.now patterns.now fault) }
    ensures placed { IfOk result (IsPlaced (length patterns.now.vectors) (length patterns.now.signals)) }
    ensures misfit { IfErr result (TellsMisfit design.now patterns.now.signals) }
{
    let faulty = faulty(alloc, design, fault)?;
    faulty.soundness();
    let verdict = replay_past(alloc, &faulty, patterns, Unknowns::Skip)?;
    Ok(grade_of(verdict))
}

// The grades of these faults, in their order.
fn grades_of(
    alloc: Global,
    design: &Design,
    patterns: &PatternSet,
    faults: &[Fault],
) -> Result<Vec<Graded>, ReplayError>
    requires patterns { IsWellFormed patterns.now }
    requires faults { (place : ℕ) (fault : AFault) → slice_get faults.now place ≡ Some fault → IsFault design.now fault }
    ensures faults { IfOk result (λ graded. faults_in graded.items ≡ faults.now) }
    ensures each { IfOk result (λ graded. AllGraded design.now patterns.now graded.items) }
    ensures misfit { IfErr result (TellsMisfit design.now patterns.now.signals) }
{
    let mut graded = Vec::new(alloc);
    for fault in faults {
        let found = grade(alloc, design, patterns, *fault)?;
        graded.push(Graded {
            fault: *fault,
            grade: found,
        })?;
    }
    Ok(graded)
}

/// Every fault of a design under patterns, in order, with its grade. P7 tells the first signal that is no bit of a port with its
/// direction.
pub fn grades(
    alloc: Global,
    design: &Design,
    patterns: &PatternSet,
) -> Result<Vec<Graded>, ReplayError>
    requires { IsWellFormed patterns.now }
    ensures fit { IfOk result (λ graded. first_misfit design.now patterns.now.signals ≡ None) }
    ensures grades { IfOk result (λ graded. AreGrades design.now patterns.now graded.items) }
    ensures runs { IfOk result (λ graded. AllFail design.now patterns.now graded.items) }
    ensures few { IfOk result (λ graded. length graded.items < 2 ^ 32) }
    ensures misfit { IfErr result (TellsMisfit design.now patterns.now.signals) }
{
    design.soundness();
    let faults = faults(alloc, design, patterns)?;
    let graded = grades_of(alloc, design, patterns, &faults)?;
    Ok(graded)
}
