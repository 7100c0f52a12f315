//! A clock behind thousands of inverters.

use dft_test_support::{Unlike, prints, shelf};
use dft_top::Status;
use std::alloc::{AllocError, Global};
use std::test::Fail;

// So many inverters before the clock of f; g falls behind f.
fn behind(alloc: Global, inverters: u32) -> Result<String, AllocError> {
    let mut text = String::from_str(
        alloc,
        "module m (c, d, q, p);\ninput c, d;\noutput q, p;\nwire k0;\nassign k0 = c;\n",
    )?;
    for inverter in 0..inverters {
        let next = inverter + 1;
        text.push_str(&format!(in alloc; "not (k{next}, k{inverter});\n")?)?;
    }
    text.push_str(&format!(in alloc;
        "DFF f (.CK(k{inverters}), .D(d), .Q(q));\nnot (k, c);\nDFF g (.CK(k), .D(q), .Q(p));\nendmodule\n"
    )?)?;
    Ok(text)
}

// The patterns before their vectors (IEEE 1450-1999).
static HEAD: &str =
    "STIL 1.0;Signals{c In;d In;q Out;p Out;}SignalGroups{ins='c+d';outs='q+p';}Timing{WaveformTable w{Period'100ns';Waveforms{ins{0{'0ns'D;}1{'0ns'U;}P{'0ns'D;'50ns'U;'80ns'D;}}outs{L{'40ns'L;}H{'40ns'H;}X{'0ns'X;}}}}}PatternBurst b{PatList{p;}}PatternExec{PatternBurst b;}Pattern p{W w;";

// So many inverters, the vectors, and what is printed. An even number leaves the clock as it is, so g takes the new bit of f; an odd one
// turns it, so both fall at once, and g takes the old bit.
static CHAINS: [(u32, &str, &str); 2] = [
    (
        10_000,
        "V{ins=P0;outs=XX;}V{ins=P1;outs=LL;}V{ins=00;outs=HH;}}",
        "pass 3 vectors 4 compared\n",
    ),
    (
        9_999,
        "V{ins=P0;outs=XX;}V{ins=P1;outs=LX;}V{ins=00;outs=HL;}}",
        "pass 3 vectors 3 compared\n",
    ),
];

// Whether a replay of these vectors passes with this line.
fn passes(alloc: Global, inverters: u32, vectors: &str, line: &str) -> Result<(), Unlike> {
    let netlist = behind(alloc, inverters)?;
    passes_on(alloc, netlist.as_str(), vectors, line)
}

fn passes_on(alloc: Global, netlist: &str, vectors: &str, line: &str) -> Result<(), Unlike> {
    let held = [("n", netlist, ""), ("p", HEAD, vectors)];
    let mut files = shelf(alloc, &held, None)?;
    let words = "replay --netlist n --patterns p";
    prints(alloc, words, &mut files, Status::Done, line)
}

#[test]
fn long_chains_of_inverters_rise_or_fall(rt: HostRuntime) -> Result<(), Fail> {
    for (inverters, vectors, line) in &CHAINS {
        passes(rt.alloc(), *inverters, *vectors, *line)?;
    }
    Ok(())
}
