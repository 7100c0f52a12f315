//! The report of a compilation.

ghost use Rattle.std.specs.Prelude.{◌≡◌, ◌+◌, ◌≤◌, pos, [], length, option_map, IfErr, IfOk, OnOk};
ghost use Rattle.dft_merge.specs.LoadPlan.{rows_by};
ghost use Rattle.dft_cube_reports.specs.Lengths as lengths;
ghost use Rattle.dft_cube_reports.specs.Outcomes as outcomes;
ghost use Rattle.dft_report.specs.Written.{lines_before_cubes};
ghost use Rattle.dft_compile.specs.Refusals.{IsRefusal, of_length, too_long};
ghost use Rattle.dft_compile.specs.Reports.{report_with};
ghost use Rattle.dft_compile.specs.Texts as texts;

use crate::error::CompileError;
use dft_base::Listed;
use dft_cube_reports::{cube_reports, lines_length};
use dft_cubes::Cube;
use dft_merge::{Loads, Placed};
use dft_report::{Load, MAX_BYTES, Report, ReportError, length_before_cubes, write};
use dft_scan::{counts_of, report_of};
use std::alloc::{AllocError, Global};

// The report but for the cubes.
fn base_report(alloc: Global, loads: &Loads<'_>) -> Result<Report, AllocError>
    ensures { IfOk result (λ report. report ≡ report_with loads.now.design loads.now.config []) }
{
    loads.soundness();
    let design = loads.design();
    let config = loads.config();
    let verdicts = loads.verdicts();
    let chains = loads.chains();
    let counts = counts_of(design.instances().len() as u32, verdicts, chains);
    let mut report = report_of(alloc, design, config, verdicts, chains, &counts)?;
    let cycles = u32::from(chains.cycles());
    report.header.load = Some(Load {
        cycles,
        variables: cycles * u32::from(config.ring().channels),
    });
    Ok(report)
}

// How many bytes the report has with its cubes. A text of 2^63 bytes or more is one that no memory holds.
fn report_bytes(
    alloc: Global,
    report: &Report,
    loads: &Loads<'_>,
    cubes: &[Cube],
    placed: &[Placed],
) -> Result<i64, AllocError>
    requires count { length placed.now ≡ length cubes.now }
    ensures { IfOk result (λ bytes. bytes ≡ pos (length (lines_before_cubes report.now)
        + lengths.lines_length (outcomes.cube_reports loads.now.design loads.now.config.ring (rows_by loads.now) cubes.now placed.now))) }
{
    let before = length_before_cubes(alloc, report)? as u64;
    let lines = lines_length(alloc, loads, cubes, placed)?;
    let bytes = before.checked_add(lines).ok_or(AllocError)?;
    if bytes > i64::MAX as u64 {
        return Err(AllocError);
    }
    Ok(bytes as i64)
}

// Refuses a report that would be longer than its limit with the lines of its cubes, before these are kept.
fn check_report(
    alloc: Global,
    report: &Report,
    loads: &Loads<'_>,
    cubes: &[Cube],
    placed: &[Placed],
) -> Result<(), CompileError>
    requires count { length placed.now ≡ length cubes.now }
    ensures accepted { OnOk result (length (lines_before_cubes report.now)
        + lengths.lines_length (outcomes.cube_reports loads.now.design loads.now.config.ring (rows_by loads.now) cubes.now placed.now) ≤ MAX_BYTES) }
    ensures refused { IfErr result (IsRefusal (option_map CompileError.Report (of_length (length (lines_before_cubes report.now)
        + lengths.lines_length (outcomes.cube_reports loads.now.design loads.now.config.ring (rows_by loads.now) cubes.now placed.now))))) }
{
    let bytes = report_bytes(alloc, report, loads, cubes, placed)?;
    if bytes > MAX_BYTES as i64 {
        return Err(CompileError::Report(ReportError::K6 { first: bytes }));
    }
    Ok(())
}

// The text of the report, where this became of the cubes. It is refused where it is longer than its limit, which is told before the
// lines of cubes are kept.
pub(crate) fn report_text(
    alloc: Global,
    loads: &Loads<'_>,
    cubes: &[Cube],
    placed: &[Placed],
) -> Result<Vec<u8>, CompileError>
    requires count { length placed.now ≡ length cubes.now }
    ensures text { IfOk result (λ text. text.items ≡ texts.report_text loads.now.design loads.now.config loads.now.rows cubes.now placed.now) }
    ensures accepted { IfOk result (λ text. length (texts.report_text loads.now.design loads.now.config loads.now.rows cubes.now placed.now) ≤ MAX_BYTES) }
    ensures refused { IfErr result (IsRefusal (option_map CompileError.Report (too_long (texts.report_text loads.now.design loads.now.config loads.now.rows cubes.now placed.now)))) }
{
    loads.soundness();
    let mut report = base_report(alloc, loads)?;
    check_report(alloc, &report, loads, cubes, placed)?;
    report.cubes = Listed::from_vec(cube_reports(alloc, loads, cubes, placed)?);
    Ok(write(alloc, &report)?)
}
