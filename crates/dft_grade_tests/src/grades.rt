//! Faults of small designs under patterns, each with its grade.

ghost use Rattle.dft_patterns.specs.Patterns.{IsWellFormed};

use dft_cells::Library;
use dft_grade::{Grade, Graded, grades};
use dft_netlist::Design;
use dft_netlist_reader::read;
use dft_patterns::PatternSet;
use dft_replay::ReplayError;
use dft_verilog::MAX_TEXT;
use std::alloc::{AllocError, Global};
use std::test::Fail;

// The least netlist: one flip-flop.
const ONE_FLIP_FLOP: &str =
    "module m (c, d, q); input c, d; output q; DFF f (.CK(c), .D(d), .Q(q)); endmodule";

// Two vectors for a flip-flop: it takes 1, and is compared.
const TAKES_ONE: &str =
    "STIL 1.0;Signals{c In;d In;q Out;}Timing{WaveformTable w{Period'100ns';Waveforms{c{0{'0ns'D;}P{'0ns'D;'50ns'U;'80ns'D;}}d{0{'0ns'D;}1{'0ns'U;}}q{H{'40ns'H;}X{'0ns'X;}}}}}PatternBurst b{PatList{p;}}PatternExec{PatternBurst b;}Pattern p{W w;V{c=P;d=1;q=X;}V{c=0;d=0;q=H;}}";

// Both bits of an input, with an output that is the same.
const BOTH_BITS: &str =
    "STIL 1.0;Signals{a In;y Out;}Timing{WaveformTable w{Period'100ns';Waveforms{a{0{'0ns'D;}1{'0ns'U;}}y{L{'40ns'L;}H{'40ns'H;}}}}}PatternBurst b{PatList{p;}}PatternExec{PatternBurst b;}Pattern p{W w;V{a=0;y=L;}V{a=1;y=H;}}";

// A flip-flop is reset while its input is 1, then takes 1.
const RESET_ONCE: &str =
    "STIL 1.0;Signals{c In;d In;r In;q Out;}Timing{WaveformTable w{Period'100ns';Waveforms{c{0{'0ns'D;}P{'0ns'D;'50ns'U;'80ns'D;}}d{0{'0ns'D;}1{'0ns'U;}}r{0{'0ns'D;}1{'0ns'U;}}q{L{'40ns'L;}H{'40ns'H;}}}}}PatternBurst b{PatList{p;}}PatternExec{PatternBurst b;}Pattern p{W w;V{c=P;d=1;r=0;q=L;}V{c=P;d=1;r=1;q=L;}V{c=0;d=1;r=1;q=H;}}";

// A netlist, patterns, and each fault with its net and bit, and where it is detected with vector and signal.
static GRADES: [(&str, &str, &str); 4] = [
    (ONE_FLIP_FLOP, TAKES_ONE, "2 0 at 1 2; 2 1 no; "),
    (
        "module m (a, y); input a; output y; INV g (.A(a), .Y(n)); INV h (.A(n), .Y(y)); endmodule",
        BOTH_BITS,
        "1 0 at 1 1; 1 1 at 0 1; 2 0 at 0 1; 2 1 at 1 1; ",
    ),
    (
        "module m (a, y); input a; output y; BUF g (.A(a), .Y(n)); assign y = n; endmodule",
        BOTH_BITS,
        "1 0 at 1 1; 1 1 at 0 1; 2 0 at 1 1; 2 1 at 0 1; ",
    ),
    // A reset that is stuck at 0 leaves the flip-flop without a model; stuck at 1 it is unknown once, and then opposite.
    (
        "module m (c, d, r, q); input c, d, r; output q; BUF b (.A(r), .Y(n)); DFFR f (.CK(c), .D(d), .RN(n), .Q(q)); endmodule",
        RESET_ONCE,
        "3 0 at 2 3; 3 1 at 0 3; 4 0 no; 4 1 at 1 3; ",
    ),
];

// Adds a fault with its grade.
fn push_grade(
    alloc: Global,
    text: &mut String,
    net: u32,
    value: bool,
    grade: Grade,
) -> Result<(), AllocError> {
    let bit = if value { 1 } else { 0 };
    match grade {
        Grade::Detected { vector, signal } => {
            let line = format!(in alloc; "{net} {bit} at {vector} {signal}; ")?;
            text.push_str(&line)
        }
        Grade::Undetected => {
            let line = format!(in alloc; "{net} {bit} no; ")?;
            text.push_str(&line)
        }
    }
}

// The grades of all faults: by lanes, and a replay of each fault that is left, or by a replay of each.
fn grades_by(
    alloc: Global,
    lanes: bool,
    design: &Design,
    patterns: &PatternSet,
) -> Result<Vec<Graded>, ReplayError>
    requires { IsWellFormed patterns.now }
{
    if lanes {
        dft_fault_lanes::grades(alloc, design, patterns)
    } else {
        grades(alloc, design, patterns)
    }
}

// The same as a text, in order.
fn grades_of(
    alloc: Global,
    lanes: bool,
    design: &Design,
    patterns: &PatternSet,
) -> Result<String, ReplayError>
    requires { IsWellFormed patterns.now }
{
    let mut text = String::new(alloc);
    for graded in &grades_by(alloc, lanes, design, patterns)? {
        let fault = graded.fault;
        push_grade(alloc, &mut text, fault.net.0, fault.value, graded.grade)?;
    }
    Ok(text)
}

// The grades of all faults of a design under a pattern text.
fn grades_under(alloc: Global, lanes: bool, design: &Design, text: &str) -> Result<String, Fail> {
    if text.len() > dft_stil::MAX_TEXT {
        return Ok(String::from_str(alloc, "too long")?);
    }
    let patterns = dft_stil::read(alloc, text.as_bytes())?;
    Ok(grades_of(alloc, lanes, design, &patterns)?)
}

// The design of a netlist text, if it is not too long.
pub(crate) fn design_of(alloc: Global, netlist: &str) -> Result<Option<Design>, Fail> {
    if netlist.len() > MAX_TEXT {
        return Ok(None);
    }
    Ok(Some(read(alloc, netlist.as_bytes(), Library::standard(alloc)?)?))
}

// The grades of all faults of a netlist text under a pattern text.
pub(crate) fn grades_in(
    alloc: Global,
    lanes: bool,
    netlist: &str,
    text: &str,
) -> Result<String, Fail> {
    match design_of(alloc, netlist)? {
        Some(design) => grades_under(alloc, lanes, &design, text),
        None => Ok(String::from_str(alloc, "too long")?),
    }
}

#[test]
fn faults_are_graded(rt: HostRuntime) -> Result<(), Fail> {
    for (netlist, patterns, wanted) in &GRADES {
        let alone = grades_in(rt.alloc(), false, *netlist, *patterns)?;
        assert_eq!(rt; alone.as_str(), *wanted);
        let lanes = grades_in(rt.alloc(), true, *netlist, *patterns)?;
        assert_eq!(rt; lanes.as_str(), *wanted);
    }
    Ok(())
}
