//! The report of a scan.

ghost use Rattle.std.specs.Prelude.{◌≡◌, ◌≤◌, ◌++◌, IfOk, OnOk, length};
ghost use Rattle.std.specs.List.{All};
ghost use Rattle.dft_scan.specs.Reports as spec;
ghost use Rattle.dft_stitch.specs.Chains.{listed};

use crate::lines::{scanned_line, unscanned_line};
use crate::texts::Counts;
use dft_config::{Config, Listed};
use dft_netlist::{Design, Instance, InstanceId};
use dft_report::{Header, Report, ScannedLine, UnscannedLine};
use dft_rules::Verdicts;
use dft_stitch::Chains;
use std::alloc::{AllocError, Global};

/// The report of a design that is judged so, with these chains, where this is counted.
pub fn report_of(
    alloc: Global,
    design: &Design,
    config: &Config,
    verdicts: &Verdicts,
    chains: &Chains,
    counts: &Counts,
) -> Result<Report, AllocError>
    requires short { All (λ cells. length cells ≤ 65536) chains.now.chains }
    requires cells { counts.now.cells ≡ spec.scanned_count verdicts.now }
    requires chains { counts.now.chains ≡ length chains.now.chains }
    ensures { IfOk result (λ report. report ≡ spec.report_with design.now config.now verdicts.now chains.now.chains) }
{
    let lengths = lengths_of(alloc, chains)?;
    let scanned = scanned_lines(alloc, design, config, verdicts, chains)?;
    let unscanned = unscanned_lines(alloc, design.instances(), verdicts)?;
    Ok(Report {
        header: Header {
            cells: counts.cells,
            chains: counts.chains,
            load: None,
        },
        chains: Listed::from_vec(lengths),
        scanned: Listed::from_vec(scanned),
        unscanned: Listed::from_vec(unscanned),
        cubes: Listed::from_vec(Vec::new(alloc)),
    })
}

// The lengths of the chains.
fn lengths_of(alloc: Global, chains: &Chains) -> Result<Vec<u32>, AllocError>
    requires { All (λ cells. length cells ≤ 65536) chains.now.chains }
    ensures { IfOk result (λ lengths. lengths.items ≡ spec.lengths_of chains.now.chains) }
{
    let count = chains.count();
    let mut lengths = Vec::with_capacity(alloc, usize::from(count))?;
    for chain in 0..count {
        lengths.push(chains.chain(chain).len() as u32)?;
    }
    Ok(lengths)
}

// The lines of the scanned cells, by chain and place.
fn scanned_lines(
    alloc: Global,
    design: &Design,
    config: &Config,
    verdicts: &Verdicts,
    chains: &Chains,
) -> Result<Vec<ScannedLine>, AllocError>
    requires { All (λ cells. length cells ≤ 65536) chains.now.chains }
    ensures { IfOk result (λ lines. lines.items ≡ spec.scanned_lines design.now config.now verdicts.now chains.now.chains) }
{
    let mut lines = Vec::new(alloc);
    let count = chains.count();
    for chain in 0..count {
        let cells = chains.chain(chain);
        add_chain(
            alloc,
            &mut lines,
            design,
            config,
            verdicts,
            u32::from(chain),
            cells,
        )?;
    }
    Ok(lines)
}

// Adds the lines of a chain, from the scan input on.
fn add_chain(
    alloc: Global,
    lines: &mut Vec<ScannedLine>,
    design: &Design,
    config: &Config,
    verdicts: &Verdicts,
    chain: u32,
    cells: &[InstanceId],
) -> Result<(), AllocError>
    requires { length cells.now ≤ 65536 }
    ensures { OnOk result (lines.new.items ≡ lines.old.items ++ spec.scanned_in design.now config.now verdicts.now chain cells.now) }
{
    for (place, cell) in cells.iter().enumerate() {
        let line = scanned_line(alloc, design, config, verdicts, chain, place as u32, *cell)?;
        add(lines, line)?;
    }
    Ok(())
}

// Adds an item, if there is one.
fn add<T: Drop>(items: &mut Vec<T>, item: Option<T>) -> Result<(), AllocError>
    ensures { OnOk result (items.new.items ≡ items.old.items ++ listed item) }
{
    if let Some(item) = item {
        items.push(item)?;
    }
    Ok(())
}

// The lines of the flip-flops that are not scanned, by the order of the instances.
fn unscanned_lines(
    alloc: Global,
    instances: &[Instance],
    verdicts: &Verdicts,
) -> Result<Vec<UnscannedLine>, AllocError>
    requires { length instances.now ≤ 262144 }
    ensures { IfOk result (λ lines. lines.items ≡ spec.unscanned_lines instances.now verdicts.now) }
{
    let mut lines = Vec::new(alloc);
    for (number, instance) in instances.iter().enumerate() {
        let verdict = verdicts.of(InstanceId(number as u32));
        let line = unscanned_line(alloc, instance, verdict)?;
        add(&mut lines, line)?;
    }
    Ok(lines)
}
