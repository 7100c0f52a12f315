//! The outcome of a made configuration: its text.

ghost use Rattle.std.specs.Prelude.{◌≡◌, Err};
ghost use Rattle.dft_command_line.specs.Named.{configure_files_of, hardware_of};
ghost use Rattle.dft_configuring.specs.Wanted.{IsUpTo, IsWanted};
ghost use Rattle.dft_answers.specs.Steps.{seen_files};
ghost use Rattle.dft_top.specs.Outcomes as spec;
ghost use Rattle.dft_top.specs.Outcomes.{IsOutcomeOfConfiguring, course_of_configure};
ghost use Rattle.dft_top.specs.Follows.{ComesTo, Follows};

use crate::loading::{load_library, load_netlist};
use dft_answers::{Outcome, Stop, Work, configure_refusal};
use dft_base::Listed;
use dft_command_line::{ConfigureFiles, HardwareNumbers};
use dft_configuring::{Wanted, configure};
use dft_files::Files;
use dft_netlist::Design;
use std::alloc::Global;

/// What a made configuration for the named netlist comes to: the library comes first, where one is named, then the netlist, and then the
/// configuration.
pub fn outcome_of_configure<F: Files>(
    alloc: Global,
    names: ConfigureFiles<'_>,
    files: &mut F,
) -> Result<Outcome, Stop>
    requires { IsWanted (spec.wanted_of (configure_files_of names).numbers) }
    ensures { Follows (course_of_configure (configure_files_of names.entry))
        (seen_files (F.held files.old) (F.failed files.old) (F.read_faults files.old) (F.write_faults files.old) (F.short_saves files.old))
        (seen_files (F.held files.new) (F.failed files.new) (F.read_faults files.new) (F.write_faults files.new) (F.short_saves files.new)) result }
{
    let library = load_library(alloc, files, names.library)?;
    let design = load_netlist(alloc, files, names.netlist, library)?;
    outcome_of_design(alloc, &design, names.numbers)
}

// The outcome of the design.
fn outcome_of_design(
    alloc: Global,
    design: &Design,
    numbers: HardwareNumbers,
) -> Result<Outcome, Stop>
    requires { IsWanted (spec.wanted_of (hardware_of numbers)) }
    ensures outcome { ComesTo (IsOutcomeOfConfiguring design.now (spec.wanted_of (hardware_of numbers))) result }
    ensures quiet { result ≡ Err Stop.ReadFault → ⊥ }
{
    design.soundness();
    match configure(alloc, design, &wanted_of(numbers)) {
        Ok(configured) => Ok(Outcome::Finished(Work::Configured {
            counts: configured.counts,
            text: Listed::from_vec(configured.text),
        })),
        Err(error) => Err(Stop::Refused(configure_refusal(alloc, error)?)),
    }
}

// What the numbers of the words wish.
fn wanted_of(numbers: HardwareNumbers) -> Wanted
    requires { IsWanted (spec.wanted_of (hardware_of numbers)) }
    ensures { result ≡ spec.wanted_of (hardware_of numbers) }
{
    Wanted {
        chains: chains_of(numbers.chains),
        length: numbers.longest,
        channels: numbers.channels as u8,
        outputs: few_of(numbers.outputs),
        masks: few_of(numbers.masks),
    }
}

fn chains_of(chains: Option<u32>) -> Option<u16>
    requires { IsUpTo 1024 chains }
    ensures { result ≡ chains }
{
    match chains {
        Some(chains) => Some(chains as u16),
        None => None,
    }
}

fn few_of(number: Option<u32>) -> Option<u8>
    requires { IsUpTo 32 number }
    ensures { result ≡ number }
{
    match number {
        Some(number) => Some(number as u8),
        None => None,
    }
}
