//! Compilations where a call of the outside fails.

use dft_files::{Failing, MemoryFiles};
use dft_test_support::{FIVE, FIVE_COMPILED, PAIR, Unlike, WARM, WARM_HEAD, holds, ran, shelf};
use dft_top::Status;
use std::alloc::Global;
use std::test::Fail;

// Compiles the cubes `p` for the netlist `n` under the configuration `c`.
static COMPILE: &str =
    "compile --netlist n --config c --cubes p --out-netlist o --out-patterns v --out-report r";

// Two cubes that are opposite on one cell.
static OPPOSITE: &str =
    "cube k0 clk\ncell f2 1\ncell f3 0\nport a 1\nend\ncube k1 clk\ncell f2 0\ncell f3 1\ncell f4 1\nend\n";

// What is reported of them.
static ENCODED: &str = "cube k0 encoded 0\ncube k1 encoded 1\n";

// The pattern file before its vectors (IEEE 1450-1999), and these.
static SIGNALS: &str = "STIL 1.0;
Signals {
\"clk\" In;
\"a\" In;
\"scan_enable\" In;
\"edt_clock\" In;
\"edt_update\" In;
\"edt_in0\" In;
\"edt_mask0\" In;
\"y\" Out;
\"edt_out0\" Out;
\"edt_out1\" Out;
}
SignalGroups {
ins = '\"clk\"+\"a\"+\"scan_enable\"+\"edt_clock\"+\"edt_update\"+\"edt_in0\"+\"edt_mask0\"';
outs = '\"y\"+\"edt_out0\"+\"edt_out1\"';
}
Timing {
WaveformTable w {
Period '100ns';
Waveforms {
ins { 0 { '0ns' D; } 1 { '0ns' U; } P { '0ns' D; '50ns' U; '80ns' D; } }
outs { L { '0ns' X; '40ns' L; } H { '0ns' X; '40ns' H; } X { '0ns' X; } }
}
}
}
PatternBurst b { PatList { p; } }
PatternExec { PatternBurst b; }
Pattern p {
W w;
";

// The vectors of the pattern file.
static VECTORS: &str = "Ann {* set-up *}
V { ins = 000P100; outs = XXX; }
Ann {* pattern 0 *}
V { ins = P01P000; outs = XXX; }
V { ins = P01P010; outs = XXX; }
V { ins = P01P010; outs = XXX; }
V { ins = P01P000; outs = XXX; }
V { ins = P01P000; outs = XXX; }
V { ins = P10P100; outs = LXX; }
Ann {* pattern 1 *}
V { ins = P01P010; outs = XHL; }
V { ins = P01P000; outs = XLH; }
V { ins = P01P010; outs = XLL; }
V { ins = P01P000; outs = XLL; }
V { ins = P01P000; outs = XLH; }
V { ins = P00P100; outs = LXX; }
Ann {* unload *}
V { ins = P01P000; outs = XHH; }
V { ins = P01P000; outs = XLL; }
V { ins = P01P000; outs = XHL; }
V { ins = P01P000; outs = XLL; }
V { ins = P01P000; outs = XLL; }
}
";

// A call that fails: of files or of the sink, what is put, and what is saved, each in two parts. The configuration, the netlist and the
// cubes are loaded before the saves.
#[derive(Drop)]
struct Fault {
    files: Option<Failing>,
    put: Option<Failing>,
    status: Status,
    line: &'static str,
    netlist: (&'static str, &'static str),
    patterns: (&'static str, &'static str),
    report: (&'static str, &'static str),
}

fn ends(alloc: Global, fault: &Fault) -> Result<(), Unlike> {
    let held = [("n", FIVE, ""), ("c", WARM, PAIR), ("p", OPPOSITE, "")];
    let mut files = shelf(alloc, &held, fault.files)?;
    leaves(alloc, &mut files, fault)
}

fn leaves(alloc: Global, files: &mut MemoryFiles, fault: &Fault) -> Result<(), Unlike> {
    ran(alloc, COMPILE, files, fault.put)?.is(alloc, fault.status, fault.line)?;
    holds(alloc, files, "o", fault.netlist.0, fault.netlist.1)?;
    holds(alloc, files, "v", fault.patterns.0, fault.patterns.1)?;
    holds(alloc, files, "r", fault.report.0, fault.report.1)
}

// A text in two parts up to this many bytes.
fn cut(text: (&'static str, &'static str), kept: usize) -> (&'static str, &'static str) {
    let rest = kept.saturating_sub(text.0.len());
    (
        text.0.get(..kept).unwrap_or(text.0),
        text.1.get(..rest).unwrap_or(text.1),
    )
}

// What is left of what a call saves, where a call of the files fails: of that one so much is kept, before it each save is whole, and
// none comes behind it.
fn left(
    call: u32,
    kept: usize,
    save: u32,
    text: (&'static str, &'static str),
) -> (&'static str, &'static str) {
    if call < save {
        ("-", "")
    } else if call == save {
        cut(text, kept)
    } else {
        text
    }
}

fn failing(call: u32, kept: u32) -> Fault {
    Fault {
        files: Some(Failing { call, kept }),
        put: None,
        status: if call < 3 {
            Status::ReadFault
        } else {
            Status::WriteFault
        },
        line: "",
        netlist: left(call, kept as usize, 3, (FIVE_COMPILED, "")),
        patterns: left(call, kept as usize, 4, (SIGNALS, VECTORS)),
        report: left(call, kept as usize, 5, (WARM_HEAD, ENCODED)),
    }
}

#[test]
fn each_failing_call_leaves_what_was_saved_before(rt: HostRuntime) -> Result<(), Fail> {
    for call in 0..6u32 {
        for kept in [0u32, 10, 1_000_000] {
            ends(rt.alloc(), &failing(call, kept))?;
        }
    }
    Ok(())
}

// The put that fails keeps so many bytes of the line, and all is saved.
fn failing_put(kept: u32, line: &'static str) -> Fault {
    Fault {
        files: None,
        put: Some(Failing { call: 0, kept }),
        status: Status::WriteFault,
        line,
        netlist: (FIVE_COMPILED, ""),
        patterns: (SIGNALS, VECTORS),
        report: (WARM_HEAD, ENCODED),
    }
}

#[test]
fn a_put_that_fails_comes_behind_the_saves(rt: HostRuntime) -> Result<(), Fail> {
    ends(rt.alloc(), &failing_put(0, ""))?;
    ends(rt.alloc(), &failing_put(9, "compiled "))?;
    Ok(())
}
