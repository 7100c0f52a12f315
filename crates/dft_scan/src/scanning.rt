//! The scan of a design.

ghost use Rattle.std.specs.Prelude.{◌≡◌, None, IfErr, IfOk};
ghost use Rattle.dft_scan_frame.specs.Statements.{IsReady};
ghost use Rattle.dft_insert.specs.Statements.{scanned};
ghost use Rattle.dft_insert.specs.declared.style.Style.TheVariants.{Plain};
ghost use Rattle.dft_netlist_text.specs.NetlistText.{StandsFor};
ghost use Rattle.dft_scan.specs.Refusals.{IsRefusal, refusal};
ghost use Rattle.dft_scan.specs.Scans.{IsScanOf};
ghost use Rattle.dft_verilog_out.specs.Named.{GatesAreJoined};

use crate::counting::counts_of;
use crate::error::ScanError;
use crate::reporting::report_of;
use crate::texts::ScanTexts;
use dft_config::Config;
use dft_insert::{Style, insert};
use dft_netlist::Design;
use dft_stitch::Planned;
use std::alloc::Global;

/// Scans a design: its flip-flops are judged by the scan rules, chains are planned and inserted, and the scanned netlist
/// and the report are written. It is refused by the first check that fails: of the scan rules, of the plan, of the
/// insertion, and then of the length of the report. Every pin of a gate must be joined, as in a design that was read.
pub fn scan(alloc: Global, design: &Design, config: &Config) -> Result<ScanTexts, ScanError>
    requires joined { GatesAreJoined design.now }
    ensures scan { IfOk result (IsScanOf design.now config.now) }
    ensures ready { IfOk result (λ s. IsReady design.now config.now) }
    ensures reads { IfOk result (λ s. StandsFor design.now.library s.netlist.items (scanned Plain design.now config.now)) }
    ensures accepted { IfOk result (λ s. refusal design.now config.now ≡ None) }
    ensures refused { IfErr result (IsRefusal (refusal design.now config.now)) }
{
    design.soundness();
    let planned = Planned::prepare(alloc, design, config)?;
    planned.soundness();
    let verdicts = planned.verdicts();
    let chains = planned.chains();
    let scanned = insert(alloc, design, config, chains, Style::Plain)?;
    let counts = counts_of(design.instances().len() as u32, verdicts, chains);
    let report = report_of(alloc, design, config, verdicts, chains, &counts)?;
    let report = dft_report::write(alloc, &report)?;
    let netlist = dft_verilog_out::write(alloc, &scanned.design)?;
    Ok(ScanTexts {
        netlist,
        report,
        counts,
    })
}
