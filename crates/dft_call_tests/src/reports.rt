//! Reports that are read, and written again.

ghost use Rattle.std.specs.Prelude.{◌≡◌, ◌<◌, ◌^◌, length};

use dft_report::{Report, write};
use dft_report_reader::read;
use std::alloc::{AllocError, Global};
use std::test::Fail;

// Of a scan, and of a compilation with a cube of each end.
const SCANNED: &str =
    "edt report 1\ncells 2 chains 1\nchain 0 length 2\nscanned f0 clk chain 0 place 0\nscanned f1 clk chain 0 place 1\nunscanned f2 S1\n";

const COMPILED: &str =
    "edt report 1\ncells 2 chains 1 cycles 3 variables 3\nchain 0 length 2\nscanned f0 clk chain 0 place 0 falling\nscanned f1 clk chain 0 place 1\nunscanned f2 S4\ncube a encoded 0\ncube b unsolvable 2\nsum f0 1 0.1 0.2\nsum f1 0 -\ncube c skipped f2\n";

// A text, and what is counted in it: cells, chains, cycles and variables, lengths, lines of cells, and cubes.
static COUNTED: [(&str, &str); 3] = [
    (SCANNED, "2 1 - 1 2 1 0"),
    (COMPILED, "2 1 3,3 1 2 1 3"),
    ("edt report 2\n", "refused"),
];

fn push_load(alloc: Global, line: &mut String, report: &Report) -> Result<(), AllocError> {
    match report.header.load {
        Some(load) => {
            let cycles = load.cycles;
            let variables = load.variables;
            line.push_str(&format!(in alloc; "{cycles},{variables}")?)
        }
        None => line.push('-'),
    }
}

fn counts_of(alloc: Global, report: &Report) -> Result<String, AllocError> {
    let cells = report.header.cells;
    let chains = report.header.chains;
    let mut line = format!(in alloc; "{cells} {chains} ")?;
    push_load(alloc, &mut line, report)?;
    let lengths = report.chains.as_slice().len();
    let scanned = report.scanned.as_slice().len();
    let unscanned = report.unscanned.as_slice().len();
    let cubes = report.cubes.as_slice().len();
    line.push_str(&format!(in alloc; " {lengths} {scanned} {unscanned} {cubes}")?)?;
    Ok(line)
}

fn line_of(alloc: Global, text: &str) -> Result<String, AllocError> {
    if text.len() > 4096 {
        return String::from_str(alloc, "too long");
    }
    match read(alloc, text.as_bytes()) {
        Ok(report) => counts_of(alloc, &report),
        Err(_) => String::from_str(alloc, "refused"),
    }
}

#[test]
fn reports_are_read(rt: HostRuntime) -> Result<(), Fail> {
    for (text, line) in &COUNTED {
        assert_eq!(rt; line_of(rt.alloc(), *text)?.as_str(), *line);
    }
    Ok(())
}

// Whether a report is written as this text.
fn is_written(alloc: Global, report: &Report, text: &str) -> bool {
    if report.header.load.is_none() && !report.cubes.as_slice().is_empty() {
        return false;
    }
    match write(alloc, report) {
        Ok(bytes) => bytes.as_slice() == text.as_bytes(),
        Err(_) => false,
    }
}

// Whether the report of a text is written as this text.
fn comes_back(alloc: Global, text: &str) -> bool {
    if text.len() > 4096 {
        return false;
    }
    match read(alloc, text.as_bytes()) {
        Ok(report) => is_written(alloc, &report, text),
        Err(_) => false,
    }
}

static WRITTEN: [&str; 2] = [SCANNED, COMPILED];

#[test]
fn reports_are_written(rt: HostRuntime) {
    for text in &WRITTEN {
        assert!(rt; comes_back(rt.alloc(), *text));
    }
}
