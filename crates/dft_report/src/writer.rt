//! The written form of whole reports.

ghost use Rattle.std.specs.Prelude.{◌≡◌, ◌≤◌, ◌++◌, None, [], IfErr, IfOk, OnOk, decimal, flat_map, length};
ghost use Rattle.dft_report.specs.Refusals.{IsTooLong};
ghost use Rattle.dft_report.specs.Written as form;

use crate::cubes::add_cubes;
use crate::error::ReportError;
use crate::limits::MAX_BYTES;
use crate::numbers::add_number;
use crate::report::{Header, Load, Report, ScannedLine, UnscannedLine};
use dft_base::Rule;
use std::alloc::{AllocError, Global};

// Adds the cycles and the variables of a load.
#[tactic(auto, unfolding(crate::specs::Written::counts_text))]
fn add_counts(out: &mut Vec<u8>, load: Load) -> Result<(), AllocError>
    ensures { OnOk result (out.new.items ≡ out.old.items ++ form.counts_text load) }
{
    out.extend_from_slice(b" cycles ")?;
    add_number(out, u64::from(load.cycles))?;
    out.extend_from_slice(b" variables ")?;
    add_number(out, u64::from(load.variables))?;
    Ok(())
}

// Adds the counts of a load, if there are any.
fn add_load(out: &mut Vec<u8>, load: Option<Load>) -> Result<(), AllocError>
    ensures { OnOk result (out.new.items ≡ out.old.items ++ form.load_text load) }
{
    match load {
        Some(load) => add_counts(out, load),
        None => Ok(()),
    }
}

// Adds the line of the counts.
#[tactic(auto, unfolding(crate::specs::Written::header_line))]
fn add_header(out: &mut Vec<u8>, header: Header) -> Result<(), AllocError>
    ensures { OnOk result (out.new.items ≡ out.old.items ++ form.header_line header) }
{
    out.extend_from_slice(b"cells ")?;
    add_number(out, u64::from(header.cells))?;
    out.extend_from_slice(b" chains ")?;
    add_number(out, u64::from(header.chains))?;
    add_load(out, header.load)?;
    out.extend_from_slice(b"\n")
}

// Adds the line of a chain.
#[tactic(auto, unfolding(crate::specs::Written::chain_line))]
fn add_chain(out: &mut Vec<u8>, chain: usize, length: u32) -> Result<(), AllocError>
    ensures { OnOk result (out.new.items ≡ out.old.items ++ form.chain_line chain length) }
{
    out.extend_from_slice(b"chain ")?;
    add_number(out, chain as u64)?;
    out.extend_from_slice(b" length ")?;
    add_number(out, u64::from(length))?;
    out.extend_from_slice(b"\n")
}

// Adds the lines of chains, numbered from 0.
fn add_chains(out: &mut Vec<u8>, lengths: &[u32]) -> Result<(), AllocError>
    ensures { OnOk result (out.new.items ≡ out.old.items ++ form.chain_lines 0 lengths.now) }
{
    for (chain, length) in lengths.iter().enumerate() {
        add_chain(out, chain, *length)?;
    }
    Ok(())
}

fn edge_text(falling: bool) -> &'static [u8]
    ensures { result.now ≡ form.edge_text falling }
{
    if falling { b" falling" } else { b"" }
}

// Adds a place of a chain, and the edge.
#[tactic(auto, unfolding(crate::specs::Written::place_text))]
fn add_place(out: &mut Vec<u8>, chain: u32, place: u32, falling: bool) -> Result<(), AllocError>
    ensures { OnOk result (out.new.items ≡ out.old.items ++ form.place_text chain place falling) }
{
    out.extend_from_slice(b" chain ")?;
    add_number(out, u64::from(chain))?;
    out.extend_from_slice(b" place ")?;
    add_number(out, u64::from(place))?;
    out.extend_from_slice(edge_text(falling))?;
    out.extend_from_slice(b"\n")
}

// Adds the line of a scanned flip-flop.
#[tactic(auto, unfolding(crate::specs::Written::scanned_line))]
fn add_scanned_line(out: &mut Vec<u8>, line: &ScannedLine) -> Result<(), AllocError>
    ensures { OnOk result (out.new.items ≡ out.old.items ++ form.scanned_line line.now) }
{
    out.extend_from_slice(b"scanned ")?;
    out.extend_from_slice(line.name.as_slice())?;
    out.extend_from_slice(b" ")?;
    out.extend_from_slice(line.domain.as_slice())?;
    add_place(out, line.chain, line.place, line.falling)?;
    Ok(())
}

// Adds the lines of the scanned flip-flops.
fn add_scanned(out: &mut Vec<u8>, lines: &[ScannedLine]) -> Result<(), AllocError>
    ensures { OnOk result (out.new.items ≡ out.old.items ++ flat_map form.scanned_line lines.now) }
{
    for line in lines {
        add_scanned_line(out, line)?;
    }
    Ok(())
}

fn rule_text(rule: Rule) -> &'static [u8]
    ensures { result.now ≡ form.rule_text rule }
{
    match rule {
        Rule::S1 => b"S1",
        Rule::S2 => b"S2",
        Rule::S3 => b"S3",
        Rule::S4 => b"S4",
    }
}

// Adds the lines of the flip-flops that are not scanned.
#[tactic(auto, unfolding(crate::specs::Written::unscanned_line))]
fn add_unscanned(out: &mut Vec<u8>, lines: &[UnscannedLine]) -> Result<(), AllocError>
    ensures { OnOk result (out.new.items ≡ out.old.items ++ flat_map form.unscanned_line lines.now) }
{
    for line in lines {
        out.extend_from_slice(b"unscanned ")?;
        out.extend_from_slice(line.name.as_slice())?;
        out.extend_from_slice(b" ")?;
        out.extend_from_slice(rule_text(line.rule))?;
        out.extend_from_slice(b"\n")?;
    }
    Ok(())
}

// All lines before those of cubes.
#[tactic(auto, unfolding(crate::specs::Written::lines_before_cubes))]
fn before_cubes(alloc: Global, report: &Report) -> Result<Vec<u8>, AllocError>
    ensures { IfOk result (λ bytes. bytes.items ≡ form.lines_before_cubes report.now) }
{
    let mut out = Vec::new(alloc);
    out.extend_from_slice(b"edt report 1\n")?;
    add_header(&mut out, report.header)?;
    add_chains(&mut out, report.chains.as_slice())?;
    add_scanned(&mut out, report.scanned.as_slice())?;
    add_unscanned(&mut out, report.unscanned.as_slice())?;
    Ok(out)
}

// The whole text, however long it is.
#[tactic(auto, unfolding(crate::specs::Written::written))]
fn text_of(alloc: Global, report: &Report) -> Result<Vec<u8>, AllocError>
    ensures { IfOk result (λ bytes. bytes.items ≡ form.written report.now) }
{
    let mut out = before_cubes(alloc, report)?;
    add_cubes(&mut out, report.cubes.as_slice())?;
    Ok(out)
}

/// How many bytes stand before the lines of cubes. With those of each cube (`cube_length`) they are the whole text, which so need not be
/// made to tell how long it is.
pub fn length_before_cubes(alloc: Global, report: &Report) -> Result<usize, AllocError>
    ensures { IfOk result (λ bytes. bytes ≡ length (form.lines_before_cubes report.now)) }
{
    Ok(before_cubes(alloc, report)?.len())
}

/// The written form of a report, one text for each. It is refused where it is longer than its limit. A report of scan
/// insertion alone, without cycles and variables, has no cubes.
pub fn write(alloc: Global, report: &Report) -> Result<Vec<u8>, ReportError>
    requires { report.now.header.load ≡ None → report.now.cubes ≡ [] }
    ensures form { IfOk result (λ bytes. bytes.items ≡ form.written report.now) }
    ensures fits { IfOk result (λ bytes. length (form.written report.now) ≤ MAX_BYTES) }
    ensures refused { IfErr result (IsTooLong (form.written report.now)) }
{
    let text = text_of(alloc, report)?;
    if text.len() > MAX_BYTES {
        return Err(ReportError::K6 {
            first: text.len() as i64,
        });
    }
    Ok(text)
}
