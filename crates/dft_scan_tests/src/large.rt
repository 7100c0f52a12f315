//! Netlists with much hardware: the widest ring with the most channels, and a limit that is met in the last part that is made.

use crate::plans::line_for;
use std::alloc::{AllocError, Global};
use std::test::Fail;

static SINGLE: &str =
    "module s (ca, d, q); input ca, d; output q; DFF f0 (.CK(ca), .D(d), .Q(q)); endmodule";

// Four stages, one channel and a tap; two chains in one mask segment, of which the second has an output of its own.
static FOUR_STAGES: &str = "version = 1
domains = ['clk']
chains = 2
warm = 2
window = 4
ring = { stages = 4, channels = 1, taps = [[2, 0]], injectors = [[0, 3]], phase = [[0, 3], [1, 2]] }
compactor = { groups = [[0, 1], [1]], mask_inputs = 1 }
";

// So many flip-flops on one clock, and so many inverters whose outputs are joined to nothing.
fn netlist(alloc: Global, cells: u32, inverters: u32) -> Result<String, AllocError> {
    let mut text = String::from_str(alloc, "module m (clk, d); input clk, d;\n")?;
    push_cells(alloc, &mut text, cells)?;
    push_inverters(alloc, &mut text, inverters)?;
    Ok(text)
}

fn push_cells(alloc: Global, text: &mut String, cells: u32) -> Result<(), AllocError> {
    for cell in 0..cells {
        text.push_str(&format!(in alloc; "DFF f{cell} (.CK(clk), .D(d), .Q(q{cell}));\n")?)?;
    }
    Ok(())
}

fn push_inverters(alloc: Global, text: &mut String, inverters: u32) -> Result<(), AllocError> {
    for inverter in 0..inverters {
        text.push_str(&format!(in alloc; "INV g{inverter} (.A(d));\n")?)?;
    }
    text.push_str("endmodule\n")
}

// A ring of 128 stages with 6 taps behind 32 channels, 64 chains with three stages each, and one output.
fn widest(alloc: Global) -> Result<String, AllocError> {
    let mut text = String::from_str(
        alloc,
        "version = 1\ndomains = ['clk']\nchains = 64\nwarm = 8\nwindow = 1\n[ring]\nstages = 128\nchannels = 32\ntaps = [[2, 10], [13, 4], [26, 1], [50, 90], [100, 33], [77, 12]]\ninjectors = [",
    )?;
    push_injectors(alloc, &mut text)?;
    push_phase(alloc, &mut text)?;
    push_group(alloc, &mut text)?;
    Ok(text)
}

fn push_injectors(alloc: Global, text: &mut String) -> Result<(), AllocError> {
    for channel in 0..32u32 {
        let stage = channel * 4;
        text.push_str(&format!(in alloc; "[{channel}, {stage}], ")?)?;
    }
    text.push_str("]\nphase = [")
}

fn push_phase(alloc: Global, text: &mut String) -> Result<(), AllocError> {
    for chain in 0..64u32 {
        let (b, c) = (chain + 1, chain + 64);
        text.push_str(&format!(in alloc; "[{chain}, {b}, {c}], ")?)?;
    }
    text.push_str("]\n[compactor]\nmask_inputs = 32\ngroups = [[")
}

fn push_group(alloc: Global, text: &mut String) -> Result<(), AllocError> {
    for chain in 0..64u32 {
        text.push_str(&format!(in alloc; "{chain}, ")?)?;
    }
    text.push_str("]]\n")
}

// One chain behind 32 channels, whose loads have so many cycles before the first cell's.
fn many_channels(alloc: Global, warm: u32) -> Result<String, AllocError> {
    let mut text = format!(in alloc;
        "version = 1\ndomains = ['ca']\nchains = 1\nwarm = {warm}\nwindow = 1\n[ring]\nstages = 32\nchannels = 32\ntaps = []\ninjectors = ["
    )?;
    for channel in 0..32u32 {
        text.push_str(&format!(in alloc; "[{channel}, {channel}], ")?)?;
    }
    text.push_str("]\nphase = [[0]]\n[compactor]\nmask_inputs = 1\ngroups = [[0]]\n")?;
    Ok(text)
}

fn told_of_channels(alloc: Global) -> Result<String, AllocError> {
    let config = many_channels(alloc, 511)?;
    line_for(alloc, SINGLE, config.as_str())
}

// 512 cycles of 32 channels have 16,384 variables. The ring has a gate before all, and a gate and a flip-flop for each stage, and a sum for
// each injector; the chain has a lock-up, its flip-flop, five instances of masks and two gates, and the output is a buffer.
#[test]
fn variables_keep_the_limit(rt: HostRuntime) -> Result<(), Fail> {
    let told = told_of_channels(rt.alloc())?;
    assert_eq!(rt; told.as_str(), "107 instances");
    Ok(())
}

// The ring has a gate and a flip-flop for each stage, a sum for each tap and injector, and one gate before all; two sums, a lock-up,
// five instances of masks and two gates stand for each chain, and the output is 63 sums and a buffer.
#[test]
fn widest_ring_is_made(rt: HostRuntime) -> Result<(), Fail> {
    let told = widest_told(rt.alloc())?;
    assert_eq!(rt; told.as_str(), "1063 instances");
    Ok(())
}

fn widest_told(alloc: Global) -> Result<String, AllocError> {
    let config = widest(alloc)?;
    counted(alloc, 64, 0, config.as_str())
}

// How many instances are made of so many flip-flops and inverters.
fn counted(alloc: Global, cells: u32, inverters: u32, config: &str) -> Result<String, AllocError> {
    let netlist = netlist(alloc, cells, inverters)?;
    line_for(alloc, netlist.as_str(), config)
}

// Inverters beside two flip-flops, which take 32 made instances; the last of these is the buffer of the second output.
static LIMITS: [(u32, &str); 2] = [(262_110, "262144 instances"), (262_111, "N4 instances")];

#[test]
fn the_last_instance_keeps_the_limit_or_passes_it(rt: HostRuntime) -> Result<(), Fail> {
    for (inverters, wanted) in &LIMITS {
        let told = counted(rt.alloc(), 2, *inverters, FOUR_STAGES)?;
        assert_eq!(rt; told.as_str(), *wanted);
    }
    Ok(())
}
