//! Which instances the rules ask about, which of their pins take data, and the scan cells of their cells.

ghost use Rattle.std.specs.Prelude.{◌≡◌, false, is_some, slice_get};
ghost use Rattle.std.specs.Option.{option_map_or};
ghost use Rattle.dft_netlist.specs.Drivers.{shape_of};
ghost use Rattle.dft_rules.specs.Refusals as refusals;
ghost use Rattle.dft_rules.specs.Rules as rules;

use dft_cells::{Cell, Gate, Kind, Role};
use dft_netlist::{CellRef, role_at};

// Whether this pin takes what it is joined to as data.
pub(crate) fn takes_data(cells: &[Cell], cell: CellRef, pin: usize) -> bool
    ensures { result ≡ option_map_or refusals.takes_data (slice_get (shape_of cells.now cell).roles pin) false }
{
    match role_at(cells, cell, pin) {
        Some(Role::Clock | Role::Output | Role::Inverted) | None => false,
        Some(_) => true,
    }
}

/// Whether the cell names a scan cell.
pub fn has_scan_cell(cells: &[Cell], cell: CellRef) -> bool
    ensures { result ≡ is_some (rules.scan_cell_in cells.now cell) }
{
    match cell {
        CellRef::Library(id) => match cells.get(id.0 as usize) {
            Some(cell) => cell.scan.is_some(),
            None => false,
        },
        CellRef::Gate(_, _) => false,
    }
}

/// Whether flip-flops of this kind are judged.
pub fn may_be_scanned(kind: Kind) -> bool
    ensures { result ≡ rules.may_be_scanned kind }
{
    match kind {
        Kind::Flop(flop) => !flop.scan,
        _ => false,
    }
}

// Whether a cell of this kind uses its inputs as data.
pub(crate) fn uses_data(kind: Kind) -> bool
    ensures { result ≡ refusals.uses_data kind }
{
    !matches!(kind, Kind::Gate(Gate::Buf | Gate::Inv) | Kind::Opaque)
}
