//! The kinds of instances, what their pins are for, and what those are joined to.

ghost use Rattle.std.specs.Prelude.{◌≡◌, ◌<◌, ◌≤◌, false, length, map, Some, slice_get, IsTrue, ◌↔◌};
ghost use Rattle.std.specs.Option.{option_map_or};
ghost use Rattle.dft_netlist.specs.Connections as connections;
ghost use Rattle.dft_netlist.specs.Drivers.{connections_of, gate_roles, shape_of};
ghost use Rattle.dft_netlist.specs.Connections.{same_role};
ghost use Rattle.dft_netlist.specs.Reading as spec;

use crate::instance::{CellRef, Instance, Signal};
use dft_cells::{Cell, Kind, Role};

/// What an instance of this cell does; a number that names no cell is that of a cell that is not modelled.
pub fn kind_of(cells: &[Cell], cell: CellRef) -> Kind
    ensures { result ≡ (shape_of cells.now cell).kind }
{
    match cell {
        CellRef::Library(id) => match cells.get(id.0 as usize) {
            Some(cell) => cell.kind,
            None => Kind::Opaque,
        },
        CellRef::Gate(gate, _) => Kind::Gate(gate),
    }
}

/// What this pin of an instance of this cell is for, if there is one.
pub fn role_at(cells: &[Cell], cell: CellRef, pin: usize) -> Option<Role>
    ensures { result ≡ slice_get (shape_of cells.now cell).roles pin }
{
    match cell {
        CellRef::Library(id) => match cells.get(id.0 as usize) {
            Some(cell) => cell_role(cell, pin),
            None => None,
        },
        CellRef::Gate(_, inputs) => gate_role(inputs, pin),
    }
}

// What this pin of a library cell is for, if there is one.
fn cell_role(cell: &Cell, pin: usize) -> Option<Role>
    ensures { result ≡ slice_get (map (λ p. p.role) cell.now.pins) pin }
{
    match cell.pins.as_slice().get(pin) {
        Some(pin) => Some(pin.role),
        None => None,
    }
}

// What this pin of a gate primitive is for, if there is one: its inputs come first, then its output.
fn gate_role(inputs: u8, pin: usize) -> Option<Role>
    ensures { result ≡ slice_get (gate_roles inputs) pin }
{
    if pin < inputs as usize {
        Some(Role::Input)
    } else if pin == inputs as usize {
        Some(Role::Output)
    } else {
        None
    }
}

/// Whether two roles are the same.
pub fn is_role(one: Role, other: Role) -> bool
    ensures { result ≡ same_role one other }
{
    match (one, other) {
        (Role::Input, Role::Input)
        | (Role::Clock, Role::Clock)
        | (Role::Din, Role::Din)
        | (Role::Reset, Role::Reset)
        | (Role::Preset, Role::Preset)
        | (Role::ScanIn, Role::ScanIn)
        | (Role::ScanEnable, Role::ScanEnable)
        | (Role::Output, Role::Output)
        | (Role::Inverted, Role::Inverted) => true,
        _ => false,
    }
}

// Whether this role is there, and is the one.
fn has_role(one: Role, other: Option<Role>) -> bool
    ensures { result ≡ option_map_or (same_role one) other false }
{
    match other {
        Some(other) => is_role(one, other),
        None => false,
    }
}

/// What the first pin of a role is joined to.
pub fn signal_of(cells: &[Cell], instance: &Instance, role: Role) -> Option<Signal>
    requires { length instance.now.pins ≡ length (shape_of cells.now instance.now.cell).roles }
    ensures { result ≡ connections.signal_of role (connections_of cells.now instance.now) }
{
    for (pin, signal) in instance.pins.as_slice().iter().enumerate() {
        if has_role(role, role_at(cells, instance.cell, pin)) {
            return Some(*signal);
        }
    }
    None
}

// What this pin of an instance of this cell is for, which is there.
pub(crate) fn known_role(cells: &[Cell], cell: CellRef, pin: usize) -> Role
    requires { pin < length (shape_of cells.now cell).roles }
    ensures { slice_get (shape_of cells.now cell).roles pin ≡ Some result }
{
    match cell {
        CellRef::Library(id) => cells[id.0 as usize].pins.as_slice()[pin].role,
        CellRef::Gate(_, inputs) => {
            if pin < inputs as usize {
                Role::Input
            } else {
                Role::Output
            }
        }
    }
}

// Whether the output of a cell of this kind reads a pin of this role at the same moment.
pub(crate) fn reads_role(kind: Kind, role: Role) -> bool
    ensures { result ≡ spec.reads_role kind role }
{
    match kind {
        Kind::Gate(_) => matches!(role, Role::Input),
        Kind::Lockup => matches!(role, Role::Clock | Role::Din),
        Kind::Flop(_) | Kind::Opaque => false,
    }
}
