//! Where a capture is read.

ghost use Rattle.std.specs.Prelude.{◌≡◌, ◌++◌, List, map, IfOk, OnOk};
ghost use Rattle.dft_behavior.specs.Roots.{shown_clock};
ghost use Rattle.dft_behavior.specs.RootTables.{AreRoots};
ghost use Rattle.dft_netlist.specs.Netlist.{Netlist};
ghost use Rattle.dft_expect.specs.Captures.{bits_out, output_bits};
ghost use Rattle.dft_expect.specs.Loaded.{all_cells};
ghost use Rattle.dft_expect.specs.Reads.{AreReads, IsReadOf};
ghost use Rattle.dft_expect.specs.Reads as spec;

use dft_behavior::{ClockRoot, NetRoot, clock_in, find_roots};
use dft_cells::Role;
use dft_netlist::{Design, Dir, InstanceId, NetId, Port, Signal};
use dft_stitch::Chains;
use std::alloc::{AllocError, Global};

// Where the next value of a cell is read: the clock that its clock pin shows, and what its data input is joined to.
#[derive(Clone, Copy)]
pub(crate) struct Read {
    pub clock: Option<ClockRoot>,
    pub input: Signal,
}

// The clock that a pin shows.
fn clock_of(roots: &[NetRoot], pin: Option<Signal>) -> Option<ClockRoot>
    ensures { (n : Netlist) → AreRoots n roots.now → shown_clock result ≡ spec.clock_at n pin }
{
    match pin {
        Some(signal) => clock_in(roots, signal),
        None => None,
    }
}

// Where the next value of a cell is read, by the roots of the nets.
fn read_of(design: &Design, roots: &[NetRoot], cell: InstanceId) -> Read
    requires { AreRoots design.now roots.now }
    ensures { IsReadOf design.now cell.0 result }
{
    let clock = clock_of(roots, design.signal(cell, Role::Clock));
    let input = or_unconnected(design.signal(cell, Role::Din));
    Read { clock, input }
}

// What a pin is joined to; one that is not there is joined to nothing.
fn or_unconnected(pin: Option<Signal>) -> Signal
    ensures { result ≡ spec.or_unconnected pin }
{
    match pin {
        Some(signal) => signal,
        None => Signal::Unconnected,
    }
}

// Adds where the next values of these cells are read.
fn add_reads(
    reads: &mut Vec<Read>,
    design: &Design,
    roots: &[NetRoot],
    cells: &[InstanceId],
) -> Result<(), AllocError>
    requires { AreRoots design.now roots.now }
    ensures { (before : List InstanceId) → AreReads design.now before reads.old.items → OnOk result (AreReads design.now (before ++ cells.now) reads.new.items) }
{
    for cell in cells {
        reads.push(read_of(design, roots, *cell))?;
    }
    Ok(())
}

// Where the next values of all cells are read, chain by chain.
pub(crate) fn reads(
    alloc: Global,
    design: &Design,
    chains: &Chains,
) -> Result<Vec<Read>, AllocError>
    ensures { IfOk result (λ reads. AreReads design.now (all_cells chains.now.chains) reads.items) }
{
    let roots = find_roots(alloc, design)?;
    let mut reads = Vec::new(alloc);
    for chain in 0..chains.count() {
        add_reads(&mut reads, design, &roots, chains.chain(chain))?;
    }
    Ok(reads)
}

// Whether a cell is on an inverted clock.
fn is_falling(clock: Option<ClockRoot>) -> bool
    ensures { result ≡ spec.is_falling clock }
{
    match clock {
        Some(root) => root.inverted,
        None => false,
    }
}

// Whether one of the cells takes its bit at the fall of its clock.
pub(crate) fn any_falls(reads: &[Read]) -> bool
    ensures { result ≡ spec.any_falls reads.now }
{
    for read in reads {
        if is_falling(read.clock) {
            return true;
        }
    }
    false
}

// Adds the bits of an output port.
fn add_outputs(outputs: &mut Vec<NetId>, port: &Port) -> Result<(), AllocError>
    ensures { OnOk result (outputs.new.items ≡ outputs.old.items ++ bits_out port.now.dir port.now.bits) }
{
    match port.dir {
        Dir::Input => Ok(()),
        Dir::Output => {
            outputs.extend_from_slice(port.bits.as_slice())?;
            Ok(())
        }
    }
}

// The bits of the output ports, in order.
pub(crate) fn outputs(alloc: Global, design: &Design) -> Result<Vec<NetId>, AllocError>
    ensures { IfOk result (λ outputs. outputs.items ≡ output_bits design.now.ports) }
{
    let mut outputs = Vec::new(alloc);
    for port in design.ports() {
        add_outputs(&mut outputs, port)?;
    }
    Ok(outputs)
}
