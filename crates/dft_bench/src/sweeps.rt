//! Times sweeps over a generated netlist: all nets settled for 512 patterns, from sources that nothing has set.

use crate::netlists::netlist;
use dft_cells::Library;
use dft_evaluator::Evaluator;
use dft_netlist::Design;
use dft_netlist_reader::read;
use dft_verilog::MAX_TEXT;
use std::alloc::{AllocError, Global};
use std::io;
use std::rt::Clock;
use std::time::Instant;

// How many patterns a sweep settles.
const PATTERNS: u64 = 512;

/// Settles a netlist of so many gates, with a flip-flop for each ten of them, and times it.
pub fn time_sweeps(rt: &(impl Clock + Eprint), alloc: Global, gates: u32) -> io::Result<()> {
    let text = netlist(alloc, gates)?;
    match design_of(alloc, text.as_bytes())? {
        Some(design) => time_design(rt, alloc, &design, gates),
        None => eprintln!(rt; "{gates} gates: no netlist"),
    }
}

// The design of a text over the standard library.
fn design_of(alloc: Global, text: &[u8]) -> Result<Option<Design>, AllocError> {
    if text.len() > MAX_TEXT {
        return Ok(None);
    }
    let library = Library::standard(alloc)?;
    Ok(read(alloc, text, library).ok())
}

fn time_design(
    rt: &(impl Clock + Eprint),
    alloc: Global,
    design: &Design,
    gates: u32,
) -> io::Result<()> {
    let mut evaluator = Evaluator::prepare(alloc, design)?;
    for _turn in 0..5 {
        time_sweep(rt, &mut evaluator, gates)?;
    }
    Ok(())
}

// Patterns times gates in a microsecond are as many millions in a second.
fn time_sweep(rt: &(impl Clock + Eprint), evaluator: &mut Evaluator, gates: u32) -> io::Result<()> {
    let start = Instant::now(rt)?;
    evaluator.settle();
    let took = start.elapsed(rt)?.as_micros();
    let pace = u128::from(PATTERNS * u64::from(gates)) / took.max(1);
    eprintln!(rt;
        "{gates} gates, {PATTERNS} patterns: {took} us, {pace} million patterns times gates a second"
    )
}
