//! Runs where a call of the outside fails, and a configuration of the most bytes.

use dft_files::{Failing, Files, MemoryFiles, SaveError};
use dft_test_support::{Unlike, holds, prints, ran, shelf};
use dft_top::Status;
use std::alloc::{AllocError, Global};
use std::test::Fail;

// ---- replays

// Two vectors for a flip-flop that pass (IEEE 1450-1999).
static PATTERNS: &str =
    "STIL 1.0;\nSignals {\n\"c\" In;\n\"d\" In;\n\"q\" Out;\n}\nSignalGroups {\nins = '\"c\"+\"d\"';\nouts = '\"q\"';\n}\nTiming {\nWaveformTable w {\nPeriod '100ns';\nWaveforms {\nins { 0 { '0ns' D; } 1 { '0ns' U; } P { '0ns' D; '50ns' U; '80ns' D; } }\nouts { L { '0ns' X; '40ns' L; } H { '0ns' X; '40ns' H; } X { '0ns' X; } }\n}\n}\n}\nPatternBurst b { PatList { p; } }\nPatternExec { PatternBurst b; }\nPattern p {\nW w;\nV { ins = P1; outs = X; }\nV { ins = 00; outs = H; }\n}\n";

// A library with one flip-flop and one lock-up.
static LIBRARY: &str =
    "[cells.FF]\nkind = 'dff'\nclock = 'C'\ndin = 'D'\noutput = 'Q'\n[cells.L]\nkind = 'lockup'\nclock = 'C'\ndin = 'D'\noutput = 'Q'\n";

// The least netlist over that library.
static OWN_CELL: &str =
    "module m (c, d, q); input c, d; output q; FF f (.C(c), .D(d), .Q(q)); endmodule";

// Replays the patterns `p` on the netlist `n` over the library `l`.
static REPLAY: &str = "replay --patterns=p --library l --netlist n";

// The load or the put that fails, what is printed, and the status.
static OF_REPLAY: [(Option<Failing>, Option<Failing>, &str, Status); 6] = [
    (
        Some(Failing { call: 0, kept: 0 }),
        None,
        "",
        Status::ReadFault,
    ),
    (
        Some(Failing { call: 1, kept: 0 }),
        None,
        "",
        Status::ReadFault,
    ),
    (
        Some(Failing { call: 2, kept: 0 }),
        None,
        "",
        Status::ReadFault,
    ),
    (
        Some(Failing { call: 3, kept: 0 }),
        None,
        "pass 2 vectors 1 compared\n",
        Status::Done,
    ),
    (
        None,
        Some(Failing { call: 0, kept: 0 }),
        "",
        Status::WriteFault,
    ),
    (
        None,
        Some(Failing { call: 0, kept: 4 }),
        "pass",
        Status::WriteFault,
    ),
];

fn replay_ends(
    alloc: Global,
    failing: (Option<Failing>, Option<Failing>),
    line: &str,
    status: Status,
) -> Result<(), Unlike> {
    let (load, put) = failing;
    let held = [("l", LIBRARY, ""), ("n", OWN_CELL, ""), ("p", PATTERNS, "")];
    let mut files = shelf(alloc, &held, load)?;
    ran(alloc, REPLAY, &mut files, put)?.is(alloc, status, line)
}

#[test]
fn faults_of_replays_get_their_statuses(rt: HostRuntime) -> Result<(), Fail> {
    for (load, put, line, status) in &OF_REPLAY {
        replay_ends(rt.alloc(), (*load, *put), *line, *status)?;
    }
    Ok(())
}

// ---- scans

// Four flip-flops in a row, by turns on two clocks.
static ROW: &str =
    "module s (ca, cb, d, q); input ca, cb, d; output q; DFF f0 (.CK(ca), .D(d), .Q(n0)); DFF f1 (.CK(cb), .D(n0), .Q(n1)); DFF f2 (.CK(ca), .D(n1), .Q(n2)); DFF f3 (.CK(cb), .D(n2), .Q(q)); endmodule";

static ON_BOTH: &str = "version = 1\ndomains = ['ca', 'cb']\n";

static ONE_CHAIN: &str =
    "chains = 1\nwarm = 0\nwindow = 1\nring = { stages = 2, channels = 1, taps = [], injectors = [[0, 1]], phase = [[0]] }\ncompactor = { groups = [[0]], mask_inputs = 1 }\n";

// Scans the netlist `n` under the configuration `c`.
static SCAN: &str = "scan --netlist n --config c --out o --report r";

// The first netlist as it is saved under one chain: the chain is f0, f2, f1, f3.
const WRITTEN: &str =
    "module s (ca, cb, d, q, scan_enable, scan_in0, scan_out0);\ninput ca;\ninput cb;\ninput d;\noutput q;\ninput scan_enable;\ninput scan_in0;\noutput scan_out0;\nwire n0;\nwire n1;\nwire n2;\nwire dft_n0;\nSDFF f0 (.CK(ca), .D(d), .SI(scan_in0), .SE(scan_enable), .Q(n0));\nSDFF f1 (.CK(cb), .D(n0), .SI(dft_n0), .SE(scan_enable), .Q(n1));\nSDFF f2 (.CK(ca), .D(n1), .SI(n0), .SE(scan_enable), .Q(n2));\nSDFF f3 (.CK(cb), .D(n2), .SI(n1), .SE(scan_enable), .Q(q));\nLOCKUP dft_i0 (.CK(ca), .D(n2), .Q(dft_n0));\nbuf dft_i1 (scan_out0, q);\nendmodule\n";

const REPORT: &str =
    "edt report 1\ncells 4 chains 1\nchain 0 length 4\nscanned f0 ca chain 0 place 0\nscanned f2 ca chain 0 place 1\nscanned f1 cb chain 0 place 2\nscanned f3 cb chain 0 place 3\n";

// The call on files that fails, the put that fails, and then the status, the saved netlist and the saved report. The
// configuration and the netlist are loaded before the saves.
static OF_SCAN: [(Option<Failing>, Option<Failing>, Status, &str, &str); 9] = [
    (
        Some(Failing { call: 0, kept: 0 }),
        None,
        Status::ReadFault,
        "-",
        "-",
    ),
    (
        Some(Failing { call: 1, kept: 0 }),
        None,
        Status::ReadFault,
        "-",
        "-",
    ),
    (
        Some(Failing { call: 2, kept: 0 }),
        None,
        Status::WriteFault,
        "",
        "-",
    ),
    (
        Some(Failing { call: 2, kept: 10 }),
        None,
        Status::WriteFault,
        "module s (",
        "-",
    ),
    (
        Some(Failing {
            call: 2,
            kept: 1_000_000,
        }),
        None,
        Status::WriteFault,
        WRITTEN,
        "-",
    ),
    (
        Some(Failing { call: 3, kept: 0 }),
        None,
        Status::WriteFault,
        WRITTEN,
        "",
    ),
    (
        Some(Failing { call: 3, kept: 10 }),
        None,
        Status::WriteFault,
        WRITTEN,
        "edt report",
    ),
    (
        Some(Failing {
            call: 3,
            kept: 1_000_000,
        }),
        None,
        Status::WriteFault,
        WRITTEN,
        REPORT,
    ),
    (
        None,
        Some(Failing { call: 0, kept: 0 }),
        Status::WriteFault,
        WRITTEN,
        REPORT,
    ),
];

fn scan_ends(
    alloc: Global,
    failing: (Option<Failing>, Option<Failing>),
    status: Status,
    saved: (&str, &str),
) -> Result<(), Unlike> {
    let (call, put) = failing;
    let held = [("n", ROW, ""), ("c", ON_BOTH, ONE_CHAIN)];
    let mut files = shelf(alloc, &held, call)?;
    ran(alloc, SCAN, &mut files, put)?.is(alloc, status, "")?;
    leaves(alloc, &files, saved)
}

fn leaves(alloc: Global, files: &MemoryFiles, saved: (&str, &str)) -> Result<(), Unlike> {
    let (netlist, report) = saved;
    holds(alloc, files, "o", netlist, "")?;
    holds(alloc, files, "r", report, "")?;
    holds(alloc, files, "n", ROW, "")?;
    holds(alloc, files, "c", ON_BOTH, ONE_CHAIN)
}

#[test]
fn faults_of_scans_leave_whole_files_and_a_prefix(rt: HostRuntime) -> Result<(), Fail> {
    for (call, put, status, netlist, report) in &OF_SCAN {
        scan_ends(rt.alloc(), (*call, *put), *status, (*netlist, *report))?;
    }
    Ok(())
}

// ---- a configuration of the most bytes

static SINGLE: &str =
    "module s (ca, d, q); input ca, d; output q; DFF f0 (.CK(ca), .D(d), .Q(q)); endmodule";

static ON_ONE: &str = "version = 1\ndomains = ['ca']\n";

// The length of a configuration, the status of a scan under it, what is printed, and the report.
static LENGTHS: [(usize, Status, &str, &str); 2] = [
    (
        67_108_864,
        Status::Done,
        "scanned cells 1 unscanned 0 chains 1 lockups 0\n",
        "edt report 1\ncells 1 chains 1\nchain 0 length 1\nscanned f0 ca chain 0 place 0\n",
    ),
    (67_108_865, Status::Refused, "refused F1 config\n", "-"),
];

// A configuration of so many bytes, blank behind its text.
fn long_config(alloc: Global, length: usize) -> Result<Vec<u8>, AllocError> {
    let mut config = String::from_str(alloc, ON_ONE)?;
    config.push_str(ONE_CHAIN)?;
    let mut text = vec![in alloc; b' '; length]?;
    for (place, byte) in config.as_bytes().iter().enumerate() {
        if place < text.len() {
            text[place] = *byte;
        }
    }
    Ok(text)
}

// Whether a scan under it ends so, and has this report.
fn long_is_told(
    alloc: Global,
    length: usize,
    status: Status,
    line: &str,
    report: &str,
) -> Result<(), Unlike> {
    let mut files = shelf(alloc, &[("n", SINGLE, "")], None)?;
    let text = long_config(alloc, length)?;
    if let Err(SaveError::Memory(error)) = files.save(alloc, "c", &text) {
        return Err(error.into());
    }
    prints(alloc, SCAN, &mut files, status, line)?;
    holds(alloc, &files, "r", report, "")
}

#[test]
fn a_configuration_has_no_more_bytes_than_its_limit(rt: HostRuntime) -> Result<(), Fail> {
    for (length, status, line, report) in &LENGTHS {
        long_is_told(rt.alloc(), *length, *status, *line, *report)?;
    }
    Ok(())
}
