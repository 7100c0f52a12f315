//! The outcome of a generated job: its texts are compiled, and what comes of them is replayed.

ghost use Rattle.std.specs.Prelude.{◌≡◌, ℕ, List, Err};
ghost use Rattle.dft_compile.specs.Prepared.{IsPrepared};
ghost use Rattle.dft_generate.specs.Jobs.{IsSize};
ghost use Rattle.dft_verilog_out.specs.Named.{GatesAreJoined};
ghost use Rattle.dft_command_line.specs.Named.{numbers_of};
ghost use Rattle.dft_command_line.specs.Words.{Compile};
ghost use Rattle.dft_top.specs.Outcomes as spec;
ghost use Rattle.dft_top.specs.Outcomes.{IsOutcomeOfJob, IsReplayedOf, course_of_compile, course_of_cubes, course_of_design, course_of_replay, job_files, job_held, made_files, made_held, texts_held};
ghost use Rattle.dft_top.specs.Follows.{ComesTo, Follows, still};
ghost use Rattle.dft_top.specs.Run.{IsOf};

use crate::compiling::{outcome_of_cubes, prepared};
use crate::given::{given_config, given_cubes, given_netlist, given_patterns};
use crate::replaying::outcome_on;
use dft_answers::{Outcome, Stop, Work};
use dft_cells::Library;
use dft_command_line::JobNumbers;
use dft_compile::{Counts, Prepared};
use dft_config::Config;
use dft_generate::generate;
use dft_netlist::Design;
use std::alloc::Global;

/// What the generated job of a seed and a size comes to: its texts go through the readers as if they were loaded, the cubes are compiled,
/// and the patterns that come of it are replayed on the netlist that comes of it. Nothing is loaded or saved.
pub fn outcome_of_generate(alloc: Global, numbers: JobNumbers) -> Result<Outcome, Stop>
    requires { IsSize numbers.size }
    ensures outcome { ComesTo (IsOutcomeOfJob (numbers_of numbers)) result }
    ensures quiet { result ≡ Err Stop.ReadFault → ⊥ }
{
    let compilation = compiled_job(alloc, numbers)?;
    replayed(alloc, compilation)
}

// What the texts of a job compile to.
fn compiled_job(alloc: Global, numbers: JobNumbers) -> Result<Outcome, Stop>
    requires { IsSize numbers.size }
    ensures { Follows (course_of_compile job_files) (still (job_held (numbers_of numbers))) (still (job_held (numbers_of numbers))) result }
{
    let job = generate(alloc, numbers.seed, numbers.size as usize)?;
    compiled(
        alloc,
        job.netlist.as_slice(),
        job.configuration.as_slice(),
        job.cubes.as_slice(),
    )
}

// What a compilation of three texts comes to.
fn compiled(alloc: Global, netlist: &[u8], config: &[u8], cubes: &[u8]) -> Result<Outcome, Stop>
    ensures { Follows (course_of_compile job_files) (still (texts_held netlist.now config.now cubes.now)) (still (texts_held netlist.now config.now cubes.now)) result }
{
    let library = Library::standard(alloc)?;
    let config = given_config(alloc, config)?;
    let design = given_netlist(alloc, netlist, library)?;
    compiled_design(alloc, &design, &config, cubes)
}

// What a compilation of cubes for the design comes to.
fn compiled_design(
    alloc: Global,
    design: &Design,
    config: &Config,
    cubes: &[u8],
) -> Result<Outcome, Stop>
    requires joined { GatesAreJoined design.now }
    ensures { (netlist settings : List ℕ) → Follows (course_of_design design.now config.now job_files.cubes)
        (still (texts_held netlist settings cubes.now)) (still (texts_held netlist settings cubes.now)) result }
{
    let prepared = prepared(alloc, design, config)?;
    compiled_with(alloc, design, config, &prepared, cubes)
}

// What a compilation of cubes for a design that is prepared comes to.
fn compiled_with(
    alloc: Global,
    design: &Design,
    config: &Config,
    prepared: &Prepared<'_>,
    cubes: &[u8],
) -> Result<Outcome, Stop>
    requires joined { GatesAreJoined design.now }
    requires prepared { IsPrepared design.now config.now prepared.now }
    ensures { (netlist settings : List ℕ) → Follows (course_of_cubes design.now config.now job_files.cubes)
        (still (texts_held netlist settings cubes.now)) (still (texts_held netlist settings cubes.now)) result }
{
    let cubes = given_cubes(alloc, cubes, design, config)?;
    outcome_of_cubes(alloc, design, config, prepared, cubes.as_slice())
}

// What comes of a compilation: the patterns that it made are replayed, and its refusal is the outcome.
fn replayed(alloc: Global, compilation: Outcome) -> Result<Outcome, Stop>
    requires { IsOf (Compile job_files) compilation }
    ensures outcome { ComesTo (IsReplayedOf compilation) result }
    ensures quiet { result ≡ Err Stop.ReadFault → ⊥ }
{
    match compilation {
        Outcome::Finished(
            Work::Compiled {
                counts,
                netlist,
                patterns,
                ..
            },
        ) => {
            let replay = replay_of(alloc, netlist.as_slice(), patterns.as_slice())?;
            Ok(generated(counts, replay))
        }
        refused => Ok(refused),
    }
}

// What a replay of two texts comes to.
fn replay_of(alloc: Global, netlist: &[u8], patterns: &[u8]) -> Result<Outcome, Stop>
    ensures { Follows (course_of_replay made_files) (still (made_held netlist.now patterns.now)) (still (made_held netlist.now patterns.now)) result }
{
    let library = Library::standard(alloc)?;
    let design = given_netlist(alloc, netlist, library)?;
    let patterns = given_patterns(alloc, patterns)?;
    outcome_on(alloc, &design, &patterns)
}

// What a compilation with these counts, and then this outcome of a replay, come to.
fn generated(counts: Counts, replay: Outcome) -> Outcome
    ensures { result ≡ spec.generated counts replay }
{
    match replay {
        Outcome::Finished(Work::Replayed(replay)) => {
            Outcome::Finished(Work::Generated { counts, replay })
        }
        refused => refused,
    }
}
