//! Times the reader of netlist texts over a generated netlist of one module.

ghost use Rattle.std.specs.Prelude.{◌≤◌, length};

use crate::netlists::netlist;
use dft_cells::Library;
use dft_netlist_reader::read;
use dft_verilog::MAX_TEXT;
use std::alloc::Global;
use std::io;
use std::rt::Clock;
use std::time::Instant;

/// Reads a netlist of so many gates, with a flip-flop for each ten of them, and times it.
pub fn time_reading(rt: &(impl Clock + Eprint), alloc: Global, gates: u32) -> io::Result<()> {
    let text = netlist(alloc, gates)?;
    if text.len() > MAX_TEXT {
        return eprintln!(rt; "{gates} gates: too long");
    }
    for _turn in 0..3 {
        time_one(rt, alloc, text.as_bytes(), gates)?;
    }
    Ok(())
}

fn time_one(rt: &(impl Clock + Eprint), alloc: Global, text: &[u8], gates: u32) -> io::Result<()>
    requires { length text.now ≤ MAX_TEXT }
{
    let library = Library::standard(alloc)?;
    let start = Instant::now(rt)?;
    let is_read = read(alloc, text, library).is_ok();
    let took = start.elapsed(rt)?.as_micros();
    eprintln!(rt; "{gates} gates: {took} us, read {is_read}")
}
