//! The written form of a fault report.

ghost use Rattle.std.specs.Prelude.{◌≡◌, ◌≤◌, ◌<◌, ◌^◌, ◌+◌, pos, IfErr, IfOk, OnOk, length};
ghost use Rattle.dft_report.specs.Refusals.{IsTooLong};
ghost use Rattle.dft_grade_report.specs.Lengths.{IsLonger};
ghost use Rattle.dft_grade_report.specs.Written as form;

use crate::counting::{Counts, counts_of};
use crate::lines::{add_lines, lines_length};
use crate::numbers::add_number;
use dft_grade::Graded;
use dft_netlist::Design;
use dft_patterns::{PatternSet, StilSignal};
use dft_report::{MAX_BYTES, ReportError};
use std::alloc::{AllocError, Global};

// The lines before those of faults.
#[tactic(auto, unfolding(crate::specs::Written::head_text))]
fn head(alloc: Global, counts: Counts) -> Result<Vec<u8>, AllocError>
    ensures { IfOk result (λ text. text.items ≡ form.head_text counts) }
{
    let mut out = Vec::from_slice(alloc, b"fault report 1\nfaults ")?;
    add_number(&mut out, counts.faults)?;
    out.extend_from_slice(b" detected ")?;
    add_number(&mut out, counts.detected)?;
    out.extend_from_slice(b" undetected ")?;
    add_number(&mut out, counts.undetected)?;
    out.extend_from_slice(b"\n")?;
    Ok(out)
}

// How many bytes the report has behind this head. A text of 2^63 bytes or more is one that no memory holds.
fn report_bytes(
    alloc: Global,
    head: &[u8],
    design: &Design,
    signals: &[StilSignal],
    graded: &[Graded],
) -> Result<i64, AllocError>
    ensures { IfOk result (λ bytes. bytes ≡ pos (length head.now + form.lines_length design.now signals.now graded.now)) }
{
    let before = head.len() as u64;
    let lines = lines_length(alloc, design, signals, graded)?;
    let bytes = before.checked_add(lines).ok_or(AllocError)?;
    if bytes > i64::MAX as u64 {
        return Err(AllocError);
    }
    Ok(bytes as i64)
}

// Refuses a report that would be longer than its limit behind this head.
fn check_report(
    alloc: Global,
    head: &[u8],
    design: &Design,
    signals: &[StilSignal],
    graded: &[Graded],
) -> Result<(), ReportError>
    ensures accepted { OnOk result (length head.now + form.lines_length design.now signals.now graded.now ≤ MAX_BYTES) }
    ensures refused { IfErr result (IsLonger (length head.now + form.lines_length design.now signals.now graded.now)) }
{
    let bytes = report_bytes(alloc, head, design, signals, graded)?;
    if bytes > MAX_BYTES as i64 {
        return Err(ReportError::K6 { first: bytes });
    }
    Ok(())
}

/// The report of a grading, one text for each. It is refused where it is longer than its limit, which is told before it is made.
pub fn write(
    alloc: Global,
    design: &Design,
    patterns: &PatternSet,
    graded: &[Graded],
) -> Result<Vec<u8>, ReportError>
    requires { length graded.now < 2 ^ 32 }
    ensures form { IfOk result (λ text. text.items ≡ form.report_text design.now patterns.now graded.now) }
    ensures fits { IfOk result (λ text. length (form.report_text design.now patterns.now graded.now) ≤ MAX_BYTES) }
    ensures refused { IfErr result (IsTooLong (form.report_text design.now patterns.now graded.now)) }
{
    let signals = patterns.signals();
    let mut out = head(alloc, counts_of(graded))?;
    check_report(alloc, &out, design, signals, graded)?;
    add_lines(&mut out, design, signals, graded)?;
    Ok(out)
}
