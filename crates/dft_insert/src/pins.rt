//! Pins of scan cells that are joined.

ghost use Rattle.std.specs.Prelude.{◌≡◌, ◌<◌, ◌≤◌, ◌^◌, Ok, length, map, slice_get};
ghost use Rattle.dft_cells.specs.WellFormed.{role_of};
ghost use Rattle.dft_netlist.specs.Connections.{same_role};
ghost use Rattle.dft_rules.specs.Rules.{scan_cell_of};
ghost use Rattle.dft_parts.specs.Recipes.{outcome};
ghost use Rattle.dft_scan_frame.specs.Pins.{number_of};
ghost use Rattle.dft_insert.specs.Chained.{a_role_pin, a_scan_in, scan_roles};

use dft_cells::{CellId, Pin, Role};
use dft_netlist::{Design, InstanceId, NetId, is_role};
use dft_parts::PartsBuilder;
use dft_scan_frame::{pins_of, scan_cell};

// Joins the scan input of a cell to this net, if there is such a cell, and where it is open.
pub(crate) fn join_scan_in(
    parts: &mut PartsBuilder,
    design: &Design,
    cell: Option<InstanceId>,
    net: NetId,
)
    requires { net.0 < length parts.old.netlist.nets }
    ensures makes { outcome (a_scan_in design.now cell net) parts.old ≡ Ok (tt, parts.new) }
    ensures nets { length parts.new.netlist.nets ≡ length parts.old.netlist.nets }
{
    match cell {
        Some(cell) => join_role(parts, design, cell, Role::ScanIn, net),
        None => {}
    }
}

// Joins the first pin of a role of a scan cell to this net, where it is open.
pub(crate) fn join_role(
    parts: &mut PartsBuilder,
    design: &Design,
    cell: InstanceId,
    role: Role,
    net: NetId,
)
    requires { net.0 < length parts.old.netlist.nets }
    ensures makes { outcome (a_role_pin design.now cell role net) parts.old ≡ Ok (tt, parts.new) }
    ensures nets { length parts.new.netlist.nets ≡ length parts.old.netlist.nets }
{
    match pin_of(scan_pins(design, cell), role) {
        Some(pin) => parts.join(cell, pin, net),
        None => {}
    }
}

// The number of the first pin of this role, if there is one.
fn pin_of(pins: &[Pin], role: Role) -> Option<u32>
    requires { length pins.now < 2 ^ 32 }
    ensures { result ≡ number_of (same_role role) 0 (map role_of pins.now) }
{
    for number in 0..pins.len() as u32 {
        if is_role(role, pins[number as usize].role) {
            return Some(number);
        }
    }
    None
}

// The pins of the scan cell that a flip-flop of the design names, and none where it names none.
fn scan_pins(design: &Design, cell: InstanceId) -> &[Pin]
    ensures roles { map role_of result.now ≡ scan_roles design.now cell }
    ensures few { length result.now < 2 ^ 32 }
{
    design.soundness();
    match scan_cell_at(design, cell) {
        Some(scan) => pins_of(design.library(), scan),
        None => &[],
    }
}

// The scan cell that an instance of the design names.
fn scan_cell_at(design: &Design, cell: InstanceId) -> Option<CellId>
    ensures { result ≡ scan_cell_of design.now cell.0 }
{
    match design.instances().get(cell.0 as usize) {
        Some(instance) => scan_cell(design.library(), instance.cell),
        None => None,
    }
}

// The cell at a place of a chain, if there is one.
pub(crate) fn cell_in(cells: &[InstanceId], place: usize) -> Option<InstanceId>
    ensures { result ≡ slice_get cells.now place }
{
    match cells.get(place) {
        Some(cell) => Some(*cell),
        None => None,
    }
}
