//! The outcome of a test of certificates: whether the sums that a report prints for cubes show that no channel bits load them.

ghost use Rattle.std.specs.Prelude.{◌≡◌, Err, None, IfErr, IfOk};
ghost use Rattle.dft_stitch.specs.Chains.{plan_of};
ghost use Rattle.dft_scan_frame.specs.Statements.{IsReady};
ghost use Rattle.dft_compile.specs.Refusals.{IsRefusal};
ghost use Rattle.dft_command_line.specs.Named.{certify_files_of};
ghost use Rattle.dft_answers.specs.Steps.{IsGiven, seen_files};
ghost use Rattle.dft_top.specs.Checks.{IsPlanned, PlanGives, plan_refusal};
ghost use Rattle.dft_top.specs.Outcomes.{IsOutcomeOfReport, course_of_certified, course_of_certify, course_of_planned, course_of_report};
ghost use Rattle.dft_top.specs.Follows.{ComesTo, Follows};

use crate::loading::{load_config, load_cubes, load_library, load_netlist, load_report};
use dft_answers::{Outcome, Stop, Work, certify_refusal, compile_refusal};
use dft_certify::certify;
use dft_command_line::CertifyFiles;
use dft_compile::CompileError;
use dft_config::Config;
use dft_cubes::Cube;
use dft_files::Files;
use dft_merge::Loads;
use dft_netlist::Design;
use dft_report::Report;
use dft_stitch::Planned;
use std::alloc::Global;

/// What a test of the certificates of the named files comes to: the library comes first, where one is named, then the configuration,
/// then the netlist with the scan rules and the plan, then the cubes, then the report, and then the tests of its sums.
pub fn outcome_of_certify<F: Files>(
    alloc: Global,
    names: CertifyFiles<'_>,
    files: &mut F,
) -> Result<Outcome, Stop>
    ensures { Follows (course_of_certify (certify_files_of names.entry))
        (seen_files (F.held files.old) (F.failed files.old) (F.read_faults files.old) (F.write_faults files.old) (F.short_saves files.old))
        (seen_files (F.held files.new) (F.failed files.new) (F.read_faults files.new) (F.write_faults files.new) (F.short_saves files.new)) result }
{
    let library = load_library(alloc, files, names.library)?;
    let config = load_config(alloc, files, names.config)?;
    let design = load_netlist(alloc, files, names.netlist, library)?;
    outcome_of_design(alloc, &design, &config, names.cubes, names.report, files)
}

// The outcome of a test over the design: its chains are planned, and then the named cubes and the named report are loaded.
fn outcome_of_design<F: Files>(
    alloc: Global,
    design: &Design,
    config: &Config,
    cubes: &str,
    report: &str,
    files: &mut F,
) -> Result<Outcome, Stop>
    ensures { Follows (course_of_planned design.now config.now cubes.now report.now)
        (seen_files (F.held files.old) (F.failed files.old) (F.read_faults files.old) (F.write_faults files.old) (F.short_saves files.old))
        (seen_files (F.held files.new) (F.failed files.new) (F.read_faults files.new) (F.write_faults files.new) (F.short_saves files.new)) result }
{
    let loads = planned(alloc, design, config)?;
    outcome_with(alloc, &loads, cubes, report, files)
}

// The design with its chains and their load equations, where no check refuses it.
fn planned<'a>(alloc: Global, design: &'a Design, config: &'a Config) -> Result<Loads<'a>, Stop>
    ensures design { IfOk result (λ l. l.design ≡ design.entry.now) }
    ensures config { IfOk result (λ l. l.config ≡ config.entry.now) }
    ensures given { IfOk result (λ l. IsPlanned design.entry.now config.entry.now (plan_of design.entry.now config.entry.now)) }
    ensures refused { IfErr result (λ stop. IsGiven (PlanGives design.entry.now config.entry.now) (Err stop)) }
{
    match loads_of(alloc, design, config) {
        Ok(loads) => Ok(loads),
        Err(error) => Err(Stop::Refused(compile_refusal(alloc, error)?)),
    }
}

// The design with its chains and their load equations. It is refused by the first check that fails: of the scan rules, then of the plan.
fn loads_of<'a>(
    alloc: Global,
    design: &'a Design,
    config: &'a Config,
) -> Result<Loads<'a>, CompileError>
    ensures design { IfOk result (λ l. l.design ≡ design.entry.now) }
    ensures config { IfOk result (λ l. l.config ≡ config.entry.now) }
    ensures ready { IfOk result (λ l. IsReady design.entry.now config.entry.now) }
    ensures accepted { IfOk result (λ l. plan_refusal design.entry.now config.entry.now ≡ None) }
    ensures refused { IfErr result (IsRefusal (plan_refusal design.entry.now config.entry.now)) }
{
    design.soundness();
    let planned = Planned::prepare(alloc, design, config)?;
    planned.soundness();
    let loads = Loads::prepare(alloc, planned)?;
    Ok(loads)
}

// The outcome of a test over planned chains: the named cubes are loaded, and then the named report.
fn outcome_with<F: Files>(
    alloc: Global,
    loads: &Loads<'_>,
    cubes: &str,
    report: &str,
    files: &mut F,
) -> Result<Outcome, Stop>
    ensures { Follows (course_of_certified loads.now.design loads.now.config cubes.now report.now)
        (seen_files (F.held files.old) (F.failed files.old) (F.read_faults files.old) (F.write_faults files.old) (F.short_saves files.old))
        (seen_files (F.held files.new) (F.failed files.new) (F.read_faults files.new) (F.write_faults files.new) (F.short_saves files.new)) result }
{
    let cubes = load_cubes(alloc, files, cubes, loads.design(), loads.config())?;
    outcome_over(alloc, loads, cubes.as_slice(), report, files)
}

// The outcome of a test over these cubes: the named report is loaded.
fn outcome_over<F: Files>(
    alloc: Global,
    loads: &Loads<'_>,
    cubes: &[Cube],
    report: &str,
    files: &mut F,
) -> Result<Outcome, Stop>
    ensures { Follows (course_of_report loads.now.design loads.now.config cubes.now report.now)
        (seen_files (F.held files.old) (F.failed files.old) (F.read_faults files.old) (F.write_faults files.old) (F.short_saves files.old))
        (seen_files (F.held files.new) (F.failed files.new) (F.read_faults files.new) (F.write_faults files.new) (F.short_saves files.new)) result }
{
    let report = load_report(alloc, files, report)?;
    outcome_of_report(alloc, loads, cubes, &report)
}

// The outcome of a report's tests.
fn outcome_of_report(
    alloc: Global,
    loads: &Loads<'_>,
    cubes: &[Cube],
    report: &Report,
) -> Result<Outcome, Stop>
    ensures outcome { ComesTo (IsOutcomeOfReport loads.now.design loads.now.config cubes.now report.now) result }
    ensures quiet { result ≡ Err Stop.ReadFault → ⊥ }
{
    loads.soundness();
    match certify(alloc, loads, cubes, report) {
        Ok(unsolvable) => Ok(Outcome::Finished(Work::Certified { unsolvable })),
        Err(error) => Err(Stop::Refused(certify_refusal(error)?)),
    }
}
