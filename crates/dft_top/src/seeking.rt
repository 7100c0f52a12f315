//! The outcome of a search of test cubes: a cube file and a report.

ghost use Rattle.std.specs.Prelude.{◌≡◌, ◌≤◌, ◌<◌, Err, IfErr, IfOk, IfSome, None, length};
ghost use Rattle.dft_cubes.specs.Cubes.{domain_named};
ghost use Rattle.dft_stitch.specs.Chains.{plan_of};
ghost use Rattle.dft_scan_frame.specs.Statements.{IsReady};
ghost use Rattle.dft_compile.specs.Refusals.{IsRefusal};
ghost use Rattle.dft_command_line.specs.Named.{seek_files_of};
ghost use Rattle.dft_answers.specs.declared.outcome.Work.TheVariants as work;
ghost use Rattle.dft_answers.specs.Steps.{IsGiven, SeenFiles, seen_files};
ghost use Rattle.dft_top.specs.Checks.{IsPlanned, PlanGives, plan_refusal};
ghost use Rattle.dft_top.specs.Outcomes.{IsOutcomeOfSearch, IsOutcomeOfSeek, course_of_search, course_of_seek};
ghost use Rattle.dft_top.specs.Follows.{ComesTo, Follows};

use crate::loading::{load_config, load_library, load_netlist};
use dft_answers::{Code, Outcome, Refusal, Stop, Work, compile_refusal, seek_refusal};
use dft_base::{Listed, printable};
use dft_command_line::SeekFiles;
use dft_compile::CompileError;
use dft_config::Config;
use dft_files::Files;
use dft_netlist::Design;
use dft_seeking::{Sought, seek};
use dft_stitch::Planned;
use std::alloc::Global;

/// What a search of test cubes over the named files comes to: the library comes first, where one is named, then the configuration, then the
/// netlist with the scan rules and the plan, then the clock, and then the search of each fault.
pub fn outcome_of_seek<F: Files>(
    alloc: Global,
    names: SeekFiles<'_>,
    files: &mut F,
) -> Result<Outcome, Stop>
    ensures { Follows (course_of_seek (seek_files_of names.entry))
        (seen_files (F.held files.old) (F.failed files.old) (F.read_faults files.old) (F.write_faults files.old) (F.short_saves files.old))
        (seen_files (F.held files.new) (F.failed files.new) (F.read_faults files.new) (F.write_faults files.new) (F.short_saves files.new)) result }
{
    let library = load_library(alloc, files, names.library)?;
    let config = load_config(alloc, files, names.config)?;
    let design = load_netlist(alloc, files, names.netlist, library)?;
    outcome_of_design(alloc, &design, &config, names.clock, names.limit)
}

// The outcome of the design: its chains are planned, and then the clock is looked up.
fn outcome_of_design(
    alloc: Global,
    design: &Design,
    config: &Config,
    clock: &str,
    limit: u32,
) -> Result<Outcome, Stop>
    ensures { (seen : SeenFiles) → Follows (course_of_search design.now config.now clock.now limit) seen seen result }
{
    match planned(alloc, design, config) {
        Ok(planned) => outcome_of_clock(alloc, &planned, clock, limit),
        Err(stop) => Err(stop),
    }
}

// The design with its chains, where no check refuses it.
fn planned<'a>(alloc: Global, design: &'a Design, config: &'a Config) -> Result<Planned<'a>, Stop>
    ensures planned { IfOk result (λ p. p ≡ record { design = design.entry.now; config = config.entry.now }) }
    ensures given { IfOk result (λ p. IsPlanned design.entry.now config.entry.now (plan_of design.entry.now config.entry.now)) }
    ensures refused { IfErr result (λ stop. IsGiven (PlanGives design.entry.now config.entry.now) (Err stop)) }
{
    match plan_of_design(alloc, design, config) {
        Ok(planned) => Ok(planned),
        Err(error) => Err(Stop::Refused(compile_refusal(alloc, error)?)),
    }
}

// The design with its chains. It is refused by the first check that fails: of the scan rules, then of the plan.
fn plan_of_design<'a>(
    alloc: Global,
    design: &'a Design,
    config: &'a Config,
) -> Result<Planned<'a>, CompileError>
    ensures planned { IfOk result (λ p. p ≡ record { design = design.entry.now; config = config.entry.now }) }
    ensures ready { IfOk result (λ p. IsReady design.entry.now config.entry.now) }
    ensures accepted { IfOk result (λ p. plan_refusal design.entry.now config.entry.now ≡ None) }
    ensures refused { IfErr result (IsRefusal (plan_refusal design.entry.now config.entry.now)) }
{
    design.soundness();
    let planned = Planned::prepare(alloc, design, config)?;
    planned.soundness();
    Ok(planned)
}

// The outcome of a planned design and a clock.
fn outcome_of_clock(
    alloc: Global,
    planned: &Planned<'_>,
    clock: &str,
    limit: u32,
) -> Result<Outcome, Stop>
    ensures outcome { ComesTo (IsOutcomeOfSeek planned.now.design planned.now.config clock.now limit (domain_named planned.now.config clock.now)) result }
    ensures quiet { result ≡ Err Stop.ReadFault → ⊥ }
{
    planned.soundness();
    match domain_of(planned.config(), clock) {
        Some(domain) => outcome_of_domain(alloc, planned, domain, limit),
        None => {
            let name = printable(alloc, clock.as_bytes())?;
            Err(Stop::Refused(Refusal::named(Code::X1, name)))
        }
    }
}

// The domain with this clock.
fn domain_of(config: &Config, clock: &str) -> Option<u8>
    requires { length config.now.domains ≤ 16 }
    ensures { result ≡ domain_named config.now clock.now }
{
    match place_of(config, clock.as_bytes()) {
        Some(place) => Some(place as u8),
        None => None,
    }
}

// The place of a clock among the domains.
fn place_of(config: &Config, clock: &[u8]) -> Option<usize>
    ensures place { result ≡ domain_named config.now clock.now }
    ensures within { IfSome result (λ place. place < length config.now.domains) }
{
    config
        .domains()
        .iter()
        .position(|name| name.as_slice() == clock)
}

// The outcome of the searches in a domain.
fn outcome_of_domain(
    alloc: Global,
    planned: &Planned<'_>,
    domain: u8,
    limit: u32,
) -> Result<Outcome, Stop>
    ensures outcome { ComesTo (IsOutcomeOfSearch planned.now.design planned.now.config domain limit) result }
    ensures quiet { result ≡ Err Stop.ReadFault → ⊥ }
{
    match seek(alloc, planned, domain, limit) {
        Ok(sought) => Ok(sought_as(sought)),
        Err(error) => Err(Stop::Refused(seek_refusal(alloc, error)?)),
    }
}

// The outcome with these texts and counts.
fn sought_as(sought: Sought) -> Outcome
    ensures { result ≡ Outcome.Finished (work.Sought sought.counts sought.cubes.items sought.report.items) }
{
    Outcome::Finished(Work::Sought {
        counts: sought.counts,
        cubes: Listed::from_vec(sought.cubes),
        report: Listed::from_vec(sought.report),
    })
}
