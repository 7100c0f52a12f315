//! The outcome of a replay: the verdict of patterns on a netlist.

ghost use Rattle.std.specs.Prelude.{◌≡◌, ◌<◌, ◌^◌, IfOk, Err, length};
ghost use Rattle.dft_replay.specs.Fits.{first_misfit};
ghost use Rattle.dft_replay.specs.Verdicts.{IsPlaced};
ghost use Rattle.dft_patterns.specs.Patterns.{IsWellFormed};
ghost use Rattle.dft_command_line.specs.Named.{replay_files_of};
ghost use Rattle.dft_answers.specs.Steps.{seen_files};
ghost use Rattle.dft_top.specs.Outcomes as spec;
ghost use Rattle.dft_top.specs.Outcomes.{course_of_replay, IsOutcomeOn};
ghost use Rattle.dft_top.specs.Follows.{ComesTo, Follows};

use crate::loading::{load_library, load_netlist, load_patterns};
use dft_answers::{Code, Outcome, Refusal, Replayed, Stop, Work};
use dft_base::Name;
use dft_command_line::ReplayFiles;
use dft_files::Files;
use dft_netlist::Design;
use dft_patterns::{PatternSet, StilSignal};
use dft_replay::{ReplayError, Verdict, replay};
use std::alloc::{AllocError, Global};

/// What a replay of the named files comes to: the library comes first, where one is named, then the netlist, then the
/// patterns, and then their verdict.
pub fn outcome_of_replay<F: Files>(
    alloc: Global,
    names: ReplayFiles<'_>,
    files: &mut F,
) -> Result<Outcome, Stop>
    ensures { Follows (course_of_replay (replay_files_of names.entry))
        (seen_files (F.held files.old) (F.failed files.old) (F.read_faults files.old) (F.write_faults files.old) (F.short_saves files.old))
        (seen_files (F.held files.new) (F.failed files.new) (F.read_faults files.new) (F.write_faults files.new) (F.short_saves files.new)) result }
{
    let library = load_library(alloc, files, names.library)?;
    let design = load_netlist(alloc, files, names.netlist, library)?;
    let patterns = load_patterns(alloc, files, names.patterns)?;
    outcome_on(alloc, &design, &patterns)
}

/// The outcome of patterns on the design.
pub fn outcome_on(alloc: Global, design: &Design, patterns: &PatternSet) -> Result<Outcome, Stop>
    requires { IsWellFormed patterns.now }
    ensures outcome { ComesTo (IsOutcomeOn design.now patterns.now (first_misfit design.now patterns.now.signals)) result }
    ensures quiet { result ≡ Err Stop.ReadFault → ⊥ }
{
    match replay(alloc, design, patterns) {
        Ok(verdict) => Ok(Outcome::Finished(Work::Replayed(replayed_as(
            alloc, patterns, verdict,
        )?))),
        Err(ReplayError::P7 { name }) => Err(Stop::Refused(Refusal::named(Code::P7, name))),
        Err(ReplayError::Memory(_)) => Err(Stop::OutOfMemory),
    }
}

// What a verdict is told as.
fn replayed_as(
    alloc: Global,
    patterns: &PatternSet,
    verdict: Verdict,
) -> Result<Replayed, AllocError>
    requires vectors { length patterns.now.vectors < 2 ^ 32 }
    requires placed { IsPlaced (length patterns.now.vectors) (length patterns.now.signals) verdict }
    ensures { IfOk result (λ r. r ≡ spec.replayed_as patterns.now verdict) }
{
    match verdict {
        Verdict::Pass { compared } => Ok(Replayed::Passed {
            vectors: patterns.vectors().len() as u32,
            compared,
        }),
        Verdict::Mismatch { vector, signal } => Ok(Replayed::Mismatch {
            vector,
            signal: signal_name(alloc, patterns.signals(), signal)?,
        }),
        Verdict::Undetermined { vector, signal } => Ok(Replayed::Undetermined {
            vector,
            signal: signal_name(alloc, patterns.signals(), signal)?,
        }),
    }
}

// The name of the signal with a number.
fn signal_name(alloc: Global, signals: &[StilSignal], signal: u32) -> Result<Name, AllocError>
    requires { signal < length signals.now }
    ensures { IfOk result (λ name. name ≡ spec.signal_name signals.now signal) }
{
    signals[signal as usize].name.copy(alloc)
}
