//! The outcome of a scan: the texts of a scanned netlist and of its report.

ghost use Rattle.std.specs.Prelude.{◌≡◌, Err};
ghost use Rattle.dft_scan.specs.Refusals.{refusal};
ghost use Rattle.dft_verilog_out.specs.Named.{GatesAreJoined};
ghost use Rattle.dft_command_line.specs.Named.{scan_files_of};
ghost use Rattle.dft_answers.specs.declared.outcome.Work.TheVariants.{Scanned};
ghost use Rattle.dft_answers.specs.Steps.{seen_files};
ghost use Rattle.dft_top.specs.Outcomes.{course_of_scan, IsOutcomeOfScanOf};
ghost use Rattle.dft_top.specs.Follows.{ComesTo, Follows};

use crate::loading::{load_config, load_library, load_netlist};
use dft_answers::{Outcome, Stop, Work, scan_refusal};
use dft_command_line::ScanFiles;
use dft_config::{Config, Listed};
use dft_files::Files;
use dft_netlist::Design;
use dft_scan::{ScanTexts, scan};
use std::alloc::Global;

/// What a scan of the named files comes to: the library comes first, where one is named, then the configuration, then
/// the netlist, and then the checks of the scan.
pub fn outcome_of_scan<F: Files>(
    alloc: Global,
    names: ScanFiles<'_>,
    files: &mut F,
) -> Result<Outcome, Stop>
    ensures { Follows (course_of_scan (scan_files_of names.entry))
        (seen_files (F.held files.old) (F.failed files.old) (F.read_faults files.old) (F.write_faults files.old) (F.short_saves files.old))
        (seen_files (F.held files.new) (F.failed files.new) (F.read_faults files.new) (F.write_faults files.new) (F.short_saves files.new)) result }
{
    let library = load_library(alloc, files, names.library)?;
    let config = load_config(alloc, files, names.config)?;
    let design = load_netlist(alloc, files, names.netlist, library)?;
    outcome_of_design(alloc, &design, &config)
}

// The outcome of a scan of the design.
fn outcome_of_design(alloc: Global, design: &Design, config: &Config) -> Result<Outcome, Stop>
    requires joined { GatesAreJoined design.now }
    ensures outcome { ComesTo (IsOutcomeOfScanOf design.now config.now (refusal design.now config.now)) result }
    ensures quiet { result ≡ Err Stop.ReadFault → ⊥ }
{
    match scan(alloc, design, config) {
        Ok(texts) => Ok(outcome_of(texts)),
        Err(error) => Err(Stop::Refused(scan_refusal(alloc, error)?)),
    }
}

// The outcome with these texts and counts.
fn outcome_of(texts: ScanTexts) -> Outcome
    ensures { result ≡ Outcome.Finished (Scanned texts.counts texts.netlist.items texts.report.items) }
{
    Outcome::Finished(Work::Scanned {
        counts: texts.counts,
        netlist: Listed::from_vec(texts.netlist),
        report: Listed::from_vec(texts.report),
    })
}
