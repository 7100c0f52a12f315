//! The outcome of a grading: which single stuck-at faults of a netlist patterns find.

ghost use Rattle.std.specs.Prelude.{◌≡◌, ◌<◌, ◌^◌, Err, length};
ghost use Rattle.dft_compile.specs.Refusals.{too_long};
ghost use Rattle.dft_replay.specs.Fits.{first_misfit};
ghost use Rattle.dft_patterns.specs.Patterns.{IsWellFormed};
ghost use Rattle.dft_grade_report.specs.Written.{report_text};
ghost use Rattle.dft_command_line.specs.Named.{grade_files_of};
ghost use Rattle.dft_answers.specs.declared.outcome.Work.TheVariants as work;
ghost use Rattle.dft_answers.specs.Steps.{seen_files};
ghost use Rattle.dft_top.specs.Outcomes as spec;
ghost use Rattle.dft_top.specs.Outcomes.{IsOutcomeOfFaults, IsOutcomeOfGraded, IsOutcomeOfGrading, course_of_grade};
ghost use Rattle.dft_top.specs.Follows.{ComesTo, Follows};

use crate::loading::{load_library, load_netlist, load_patterns};
use crate::replaying::outcome_on;
use dft_answers::{Code, Outcome, Refusal, Replayed, Stop, Work, report_refusal};
use dft_base::Listed;
use dft_command_line::GradeFiles;
use dft_fault_lanes::grades;
use dft_files::Files;
use dft_grade::Graded;
use dft_grade_report::{Counts, counts_of, write};
use dft_netlist::Design;
use dft_patterns::PatternSet;
use dft_replay::ReplayError;
use std::alloc::Global;

/// What a grading of the named files comes to: the library comes first, where one is named, then the netlist, then the patterns, then
/// their verdict, and where they pass the grades of all faults.
pub fn outcome_of_grade<F: Files>(
    alloc: Global,
    names: GradeFiles<'_>,
    files: &mut F,
) -> Result<Outcome, Stop>
    ensures { Follows (course_of_grade (grade_files_of names.entry))
        (seen_files (F.held files.old) (F.failed files.old) (F.read_faults files.old) (F.write_faults files.old) (F.short_saves files.old))
        (seen_files (F.held files.new) (F.failed files.new) (F.read_faults files.new) (F.write_faults files.new) (F.short_saves files.new)) result }
{
    let library = load_library(alloc, files, names.library)?;
    let design = load_netlist(alloc, files, names.netlist, library)?;
    let patterns = load_patterns(alloc, files, names.patterns)?;
    outcome_of_patterns(alloc, &design, &patterns)
}

// The outcome of patterns on the design: where they pass, the faults are graded.
fn outcome_of_patterns(
    alloc: Global,
    design: &Design,
    patterns: &PatternSet,
) -> Result<Outcome, Stop>
    requires { IsWellFormed patterns.now }
    ensures outcome { ComesTo (IsOutcomeOfGrading design.now patterns.now (first_misfit design.now patterns.now.signals)) result }
    ensures quiet { result ≡ Err Stop.ReadFault → ⊥ }
{
    let outcome = outcome_on(alloc, design, patterns)?;
    if is_pass(&outcome) {
        outcome_of_faults(alloc, design, patterns)
    } else {
        Ok(outcome)
    }
}

// Whether a replay passed.
fn is_pass(outcome: &Outcome) -> bool
    ensures { result ≡ spec.is_pass outcome.now }
{
    matches!(
        outcome,
        Outcome::Finished(Work::Replayed(Replayed::Passed { .. }))
    )
}

// The outcome of the faults under patterns.
fn outcome_of_faults(alloc: Global, design: &Design, patterns: &PatternSet) -> Result<Outcome, Stop>
    requires { IsWellFormed patterns.now }
    ensures outcome { ComesTo (IsOutcomeOfFaults design.now patterns.now (first_misfit design.now patterns.now.signals)) result }
    ensures quiet { result ≡ Err Stop.ReadFault → ⊥ }
{
    match grades(alloc, design, patterns) {
        Ok(graded) => outcome_of_graded(alloc, design, patterns, graded.as_slice()),
        Err(ReplayError::P7 { name }) => Err(Stop::Refused(Refusal::named(Code::P7, name))),
        Err(ReplayError::Memory(_)) => Err(Stop::OutOfMemory),
    }
}

// The outcome of these grades: their report is written.
fn outcome_of_graded(
    alloc: Global,
    design: &Design,
    patterns: &PatternSet,
    graded: &[Graded],
) -> Result<Outcome, Stop>
    requires { length graded.now < 2 ^ 32 }
    ensures outcome { ComesTo (IsOutcomeOfGraded design.now patterns.now graded.now (too_long (report_text design.now patterns.now graded.now))) result }
    ensures quiet { result ≡ Err Stop.ReadFault → ⊥ }
{
    match write(alloc, design, patterns, graded) {
        Ok(report) => Ok(graded_as(counts_of(graded), report)),
        Err(error) => Err(Stop::Refused(report_refusal(error)?)),
    }
}

// The outcome with these counts and this report.
fn graded_as(counts: Counts, report: Vec<u8>) -> Outcome
    ensures { result ≡ Outcome.Finished (work.Graded counts.faults counts.detected counts.undetected report.items) }
{
    Outcome::Finished(Work::Graded {
        faults: counts.faults,
        detected: counts.detected,
        undetected: counts.undetected,
        report: Listed::from_vec(report),
    })
}
