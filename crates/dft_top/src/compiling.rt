//! The outcome of a compilation: the texts of a scanned netlist behind compression hardware, of its patterns and of its report.

ghost use Rattle.std.specs.Prelude.{◌≡◌, Err};
ghost use Rattle.dft_compile.specs.Prepared.{IsPrepared};
ghost use Rattle.dft_verilog_out.specs.Named.{GatesAreJoined};
ghost use Rattle.dft_command_line.specs.Named.{compile_files_of};
ghost use Rattle.dft_answers.specs.declared.outcome.Work.TheVariants.{Compiled};
ghost use Rattle.dft_answers.specs.Steps.{IsGiven, seen_files};
ghost use Rattle.dft_top.specs.Checks.{AreFew, DesignGives};
ghost use Rattle.dft_top.specs.Outcomes.{course_of_compile, course_of_cubes, course_of_design, IsOutcomeOfCubes};
ghost use Rattle.dft_top.specs.Follows.{ComesTo, Follows};

use crate::loading::{load_config, load_cubes, load_library, load_netlist};
use dft_answers::{Outcome, Stop, Work, compile_refusal};
use dft_command_line::CompileFiles;
use dft_compile::{CompileTexts, Prepared, compile, prepare};
use dft_config::{Config, Listed};
use dft_cubes::Cube;
use dft_files::Files;
use dft_netlist::Design;
use std::alloc::Global;

/// What a compilation of the named files comes to: the library comes first, where one is named, then the configuration, then the
/// netlist with the checks of its design, then the cubes, and then the checks of what is made of them.
pub fn outcome_of_compile<F: Files>(
    alloc: Global,
    names: CompileFiles<'_>,
    files: &mut F,
) -> Result<Outcome, Stop>
    ensures { Follows (course_of_compile (compile_files_of names.entry))
        (seen_files (F.held files.old) (F.failed files.old) (F.read_faults files.old) (F.write_faults files.old) (F.short_saves files.old))
        (seen_files (F.held files.new) (F.failed files.new) (F.read_faults files.new) (F.write_faults files.new) (F.short_saves files.new)) result }
{
    let library = load_library(alloc, files, names.library)?;
    let config = load_config(alloc, files, names.config)?;
    let design = load_netlist(alloc, files, names.netlist, library)?;
    outcome_of_design(alloc, &design, &config, names.cubes, files)
}

// The outcome of a compilation of the design: it is prepared, and then the named cubes are loaded.
fn outcome_of_design<F: Files>(
    alloc: Global,
    design: &Design,
    config: &Config,
    cubes: &str,
    files: &mut F,
) -> Result<Outcome, Stop>
    requires joined { GatesAreJoined design.now }
    ensures { Follows (course_of_design design.now config.now cubes.now)
        (seen_files (F.held files.old) (F.failed files.old) (F.read_faults files.old) (F.write_faults files.old) (F.short_saves files.old))
        (seen_files (F.held files.new) (F.failed files.new) (F.read_faults files.new) (F.write_faults files.new) (F.short_saves files.new)) result }
{
    let prepared = prepared(alloc, design, config)?;
    outcome_with(alloc, design, config, &prepared, cubes, files)
}

/// The design with its chains, behind compression hardware, where no check refuses it.
pub fn prepared<'a>(
    alloc: Global,
    design: &'a Design,
    config: &'a Config,
) -> Result<Prepared<'a>, Stop>
    ensures { IsGiven (DesignGives design.entry.now config.entry.now) result }
{
    match prepare(alloc, design, config) {
        Ok(prepared) => {
            prepared.scanned().soundness();
            Ok(prepared)
        }
        Err(error) => Err(Stop::Refused(compile_refusal(alloc, error)?)),
    }
}

// The outcome of a compilation of the named cubes, for a design that is prepared.
fn outcome_with<F: Files>(
    alloc: Global,
    design: &Design,
    config: &Config,
    prepared: &Prepared<'_>,
    cubes: &str,
    files: &mut F,
) -> Result<Outcome, Stop>
    requires joined { GatesAreJoined design.now }
    requires prepared { IsPrepared design.now config.now prepared.now }
    ensures { Follows (course_of_cubes design.now config.now cubes.now)
        (seen_files (F.held files.old) (F.failed files.old) (F.read_faults files.old) (F.write_faults files.old) (F.short_saves files.old))
        (seen_files (F.held files.new) (F.failed files.new) (F.read_faults files.new) (F.write_faults files.new) (F.short_saves files.new)) result }
{
    let cubes = load_cubes(alloc, files, cubes, design, config)?;
    outcome_of_cubes(alloc, design, config, prepared, cubes.as_slice())
}

/// The outcome of a compilation of cubes.
pub fn outcome_of_cubes(
    alloc: Global,
    design: &Design,
    config: &Config,
    prepared: &Prepared<'_>,
    cubes: &[Cube],
) -> Result<Outcome, Stop>
    requires joined { GatesAreJoined design.now }
    requires prepared { IsPrepared design.now config.now prepared.now }
    requires few { AreFew cubes.now }
    ensures outcome { ComesTo (IsOutcomeOfCubes design.now config.now cubes.now) result }
    ensures quiet { result ≡ Err Stop.ReadFault → ⊥ }
{
    design.soundness();
    config.soundness();
    match compile(alloc, prepared, cubes) {
        Ok(texts) => Ok(outcome_of(texts)),
        Err(error) => Err(Stop::Refused(compile_refusal(alloc, error)?)),
    }
}

// The outcome with these texts and counts.
fn outcome_of(texts: CompileTexts) -> Outcome
    ensures { result ≡ Outcome.Finished (Compiled texts.counts texts.netlist.items texts.patterns.items texts.report.items) }
{
    Outcome::Finished(Work::Compiled {
        counts: texts.counts,
        netlist: Listed::from_vec(texts.netlist),
        patterns: Listed::from_vec(texts.patterns),
        report: Listed::from_vec(texts.report),
    })
}
