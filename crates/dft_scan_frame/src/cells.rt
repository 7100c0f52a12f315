//! Instances of the design, and the scan cells that its flip-flops name.

ghost use Rattle.std.specs.Prelude.{◌≡◌, IfOk, map, slice_index_or};
ghost use Rattle.dft_cells.specs.WellFormed.{role_of};
ghost use Rattle.dft_netlist.specs.declared.instance.CellRef.TheVariants.{Library as ALibrary};
ghost use Rattle.dft_netlist.specs.declared.instance.Signal.TheVariants.{Unconnected};
ghost use Rattle.dft_netlist.specs.Drivers.{shape_of};
ghost use Rattle.dft_rules.specs.Rules.{scan_cell_in};
ghost use Rattle.dft_scan_frame.specs.Pins as spec;

use dft_base::Name;
use dft_cells::{CellId, Library, Pin, Role};
use dft_netlist::{CellRef, Signal};
use std::alloc::{AllocError, Global};

/// The name of an instance once more, if it has one.
pub fn own_name(alloc: Global, name: &Option<Name>) -> Result<Option<Name>, AllocError>
    ensures { IfOk result (λ copy. copy ≡ name.now) }
{
    match name {
        Some(name) => Ok(Some(name.copy(alloc)?)),
        None => Ok(None),
    }
}

/// The scan cell that a cell names.
pub fn scan_cell(library: &Library, cell: CellRef) -> Option<CellId>
    ensures { result ≡ scan_cell_in library.now cell }
{
    match cell {
        CellRef::Library(id) => library.cells().get(id.0 as usize)?.scan,
        CellRef::Gate(_, _) => None,
    }
}

/// The pins of a cell of the library.
pub fn pins_of(library: &Library, cell: CellId) -> &[Pin]
    ensures { map role_of result.now ≡ (shape_of library.now (ALibrary cell)).roles }
{
    match library.cells().get(cell.0 as usize) {
        Some(cell) => cell.pins.as_slice(),
        None => &[],
    }
}

/// How many pins of the flip-flop a pin of the scan cell stands for.
pub fn pins_taken(role: Role) -> usize
    ensures { result ≡ spec.pins_taken role }
{
    match role {
        Role::ScanIn | Role::ScanEnable => 0,
        _ => 1,
    }
}

/// The pin of this number, and nothing past the end.
pub fn signal_at(pins: &[Signal], number: usize) -> Signal
    ensures { result ≡ slice_index_or pins.now number Unconnected }
{
    match pins.get(number) {
        Some(signal) => *signal,
        None => Signal::Unconnected,
    }
}
