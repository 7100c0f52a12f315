//! More cubes than go into one group of patterns, than are read, and than a pattern file has room for.

use dft_files::MemoryFiles;
use dft_test_support::{FIVE, PAIR, Unlike, holds, prints, shelf};
use dft_top::Status;
use std::alloc::{AllocError, Global};
use std::test::Fail;

// Compiles the cubes `p` for the netlist `n` under the configuration `c`.
static COMPILE: &str =
    "compile --netlist n --config c --cubes p --out-netlist o --out-patterns v --out-report r";

static OPEN_ONE: &str = "version = 1\ndomains = ['clk']\nwarm = 2\nwindow = 1\n";

// Adds so many cubes, which by turns have these clocks and lines of bits.
fn push_cubes(
    alloc: Global,
    text: &mut String,
    count: u32,
    even: &str,
    odd: &str,
) -> Result<(), AllocError> {
    for cube in 0..count {
        let rest = if cube & 1 == 0 { even } else { odd };
        text.push_str(&format!(in alloc; "cube {cube} {rest}end\n")?)?;
    }
    Ok(())
}

// Cubes that are each opposite to the one before, so that each has a pattern of its own.
fn opposites(alloc: Global, count: u32) -> Result<String, AllocError> {
    let mut text = String::new(alloc);
    push_cubes(
        alloc,
        &mut text,
        count,
        "clk\ncell f2 0\n",
        "clk\ncell f2 1\n",
    )?;
    Ok(text)
}

// The same, where every second one captures in two vectors.
fn mixed(alloc: Global, count: u32) -> Result<String, AllocError> {
    let mut text = String::from_str(alloc, "version 2\n")?;
    push_cubes(
        alloc,
        &mut text,
        count,
        "clk\ncell f2 0\n",
        "clk clk\ncell f2 1\n",
    )?;
    Ok(text)
}

// Whether a compilation prints this line, and a replay of what it saved passes with that one.
fn passes(alloc: Global, files: &mut MemoryFiles, line: &str, replay: &str) -> Result<(), Unlike> {
    prints(alloc, COMPILE, files, Status::Done, line)?;
    prints(
        alloc,
        "replay --netlist o --patterns v",
        files,
        Status::Done,
        replay,
    )
}

fn pass(alloc: Global, cubes: &str, line: &str, replay: &str) -> Result<(), Unlike> {
    let held = [("n", FIVE, ""), ("c", OPEN_ONE, PAIR), ("p", cubes, "")];
    let mut files = shelf(alloc, &held, None)?;
    passes(alloc, &mut files, line, replay)
}

// Patterns are captured 512 at a time.
#[test]
fn patterns_past_a_group_pass(rt: HostRuntime) -> Result<(), Fail> {
    let cubes = opposites(rt.alloc(), 513)?;
    pass(
        rt.alloc(),
        cubes.as_str(),
        "compiled cells 5 chains 2 cycles 5 patterns 513 encoded 513 unsolvable 0 skipped 0 masked 0 vectors 3084\n",
        "pass 3084 vectors 5643 compared\n",
    )?;
    Ok(())
}

// 257 patterns capture in one vector each, and 256 in two.
#[test]
fn patterns_of_one_capture_and_two_pass(rt: HostRuntime) -> Result<(), Fail> {
    let cubes = mixed(rt.alloc(), 513)?;
    pass(
        rt.alloc(),
        cubes.as_str(),
        "compiled cells 5 chains 2 cycles 5 patterns 513 encoded 513 unsolvable 0 skipped 0 masked 0 vectors 3340\n",
        "pass 3340 vectors 5899 compared\n",
    )?;
    Ok(())
}

// Whether a compilation of a netlist under a configuration, by its head and its rest, is refused with this line.
fn is_refused(
    alloc: Global,
    netlist: &str,
    config: (&str, &str),
    cubes: &str,
    line: &str,
) -> Result<(), Unlike> {
    let (head, rest) = config;
    let held = [("n", netlist, ""), ("c", head, rest), ("p", cubes, "")];
    let mut files = shelf(alloc, &held, None)?;
    prints(alloc, COMPILE, &mut files, Status::Refused, line)?;
    holds(alloc, &files, "o", "-", "")
}

#[test]
fn a_cube_too_many_is_told(rt: HostRuntime) -> Result<(), Fail> {
    let mut cubes = String::new(rt.alloc());
    push_cubes(rt.alloc(), &mut cubes, 65_537, "clk\n", "clk\n")?;
    let line = "refused Q9 131073:1\n";
    is_refused(rt.alloc(), FIVE, (OPEN_ONE, PAIR), cubes.as_str(), line)?;
    Ok(())
}

// Loads of 4,096 cycles: with the capture a pattern has 4,097 lines of 33 bytes.
static LONGEST: &str = "version = 1\ndomains = ['clk']\nwarm = 4093\nwindow = 1\n";

#[test]
fn patterns_past_their_room_are_told(rt: HostRuntime) -> Result<(), Fail> {
    let cubes = opposites(rt.alloc(), 1_985)?;
    let line = "refused P6 268554353\n";
    is_refused(rt.alloc(), FIVE, (LONGEST, PAIR), cubes.as_str(), line)?;
    Ok(())
}
