//! The reader of reports.

ghost use Rattle.std.specs.Prelude.{◌≡◌, ◌<◌, ◌^◌, Ok, IfErr, IfOk, OnOk, length, map};
ghost use Rattle.dft_report_reader.specs.Reading as spec;
ghost use Rattle.dft_report_reader.specs.Reading.{IsRefused, ended, nothing_read, report_by, report_of};
ghost use Rattle.dft_report_reader.specs.Shown.{reading_of};
ghost use Rattle.dft_report_reader.specs.declared.error.ReadError.TheVariants.{K1};

use crate::draft::Draft;
use crate::error::ReadError;
use crate::words::lines_of;
use dft_base::Place;
use dft_report::Report;
use std::alloc::Global;

// The refusal of a line.
fn refusal(line: u32) -> ReadError
    ensures { result ≡ K1 (spec.place_of_line line) }
{
    ReadError::K1 {
        place: Place { line, column: 1 },
    }
}

// Reads these lines, the first lines of a text.
fn read_lines(draft: &mut Draft, alloc: Global, lines: &[&[u8]]) -> Result<(), ReadError>
    requires few { length lines.now < 2 ^ 32 }
    requires none { reading_of draft.old ≡ nothing_read }
    ensures read { OnOk result (spec.read_lines nothing_read 0 (map (λ line. line.now) lines.now) ≡ Ok (reading_of draft.new)) }
    ensures refused { IfErr result (IsRefused (spec.read_lines nothing_read 0 (map (λ line. line.now) lines.now))) }
{
    for number in 0..lines.len() {
        if !draft.take_line(alloc, lines[number])? {
            return Err(refusal(number as u32 + 1));
        }
    }
    Ok(())
}

// The report, where nothing stands behind the last line of this number, and all that was begun is there.
fn finish(draft: Draft, last: &[u8], number: u32) -> Result<Report, ReadError>
    ensures report { IfOk result (λ report. ended number last.now (reading_of draft) ≡ Ok report) }
    ensures refused { IfErr result (IsRefused (ended number last.now (reading_of draft))) }
{
    if last.is_empty() && 2 <= draft.stage && draft.pending.is_none() {
        Ok(draft.into_report())
    } else {
        Err(refusal(number))
    }
}

// The report of these lines, of which the last follows the last byte 10.
fn read_all(alloc: Global, lines: &[&[u8]]) -> Result<Report, ReadError>
    requires some { 0 < length lines.now }
    requires few { length lines.now < 2 ^ 32 }
    ensures report { IfOk result (λ report. report_by (map (λ line. line.now) lines.now) ≡ Ok report) }
    ensures refused { IfErr result (IsRefused (report_by (map (λ line. line.now) lines.now))) }
{
    let last = lines.len() - 1;
    let mut draft = Draft::new(alloc);
    read_lines(&mut draft, alloc, &lines[..last])?;
    finish(draft, lines[last], last as u32 + 1)
}

/// The report that a text stands for: lines of the one form of reports, each ended by byte 10. It is refused by the first line that
/// is not of the form, and where the text ends too early by the line behind the last.
pub fn read(alloc: Global, bytes: &[u8]) -> Result<Report, ReadError>
    requires small { length bytes.now < 2 ^ 31 }
    ensures report { IfOk result (λ report. report_of bytes.now ≡ Ok report) }
    ensures refused { IfErr result (IsRefused (report_of bytes.now)) }
{
    let lines = lines_of(alloc, bytes)?;
    read_all(alloc, &lines)
}
