//! Tables of bits: for each number of a cell or a port its bit, if it has one.

ghost use Rattle.std.specs.Prelude.{◌≡◌, ◌≤◌, ◌<◌, ◌++◌, ◌+◌, ◌==◌, ℕ, length, if◌then◌else◌, OnOk, vec_len};
ghost use Rattle.std.specs.Vec.{vec_capacity};
ghost use Rattle.dft_merge.specs.Placement as placement;
ghost use Rattle.dft_merge.specs.Placement.{cell_number, port_number};
ghost use Rattle.dft_merge.specs.Rows.{or_else};
ghost use Rattle.dft_merge.specs.Tables.{AreBelow, IsNoted, SameBits, missing_by, opposes_by};
ghost use Rattle.dft_merge.specs.Tables as spec;

use dft_netlist::{InstanceId, NetId};
use std::alloc::AllocError;

// The bit of a number, and none past the end.
fn bit_of(table: &[Option<bool>], number: u32) -> Option<bool>
    ensures { result ≡ spec.bit_of table.now number }
{
    match table.get(number as usize) {
        Some(bit) => *bit,
        None => None,
    }
}

// Whether a bit is the opposite of one that is there.
fn is_opposite(there: Option<bool>, bit: bool) -> bool
    ensures { result ≡ placement.is_opposite there bit }
{
    match there {
        Some(other) => other != bit,
        None => false,
    }
}

// Whether one of these cells has the opposite bit in the table.
pub(crate) fn opposes_cells(table: &[Option<bool>], cells: &[(InstanceId, bool)]) -> bool
    ensures { result ≡ opposes_by cell_number table.now cells.now }
{
    cells
        .iter()
        .any(|given| is_opposite(bit_of(table, given.0.0), given.1))
}

// Whether one of these ports has the opposite bit in the table.
pub(crate) fn opposes_ports(table: &[Option<bool>], ports: &[(NetId, bool)]) -> bool
    ensures { result ≡ opposes_by port_number table.now ports.now }
{
    ports
        .iter()
        .any(|given| is_opposite(bit_of(table, given.0.0), given.1))
}

// The least number above those of these cells.
pub(crate) fn cells_end(cells: &[(InstanceId, bool)]) -> usize
    ensures { AreBelow cell_number result cells.now }
{
    let mut end = 0;
    for given in cells {
        end = end.max(given.0.0 as usize + 1);
    }
    end
}

// The least number above those of these ports.
pub(crate) fn ports_end(ports: &[(NetId, bool)]) -> usize
    ensures { AreBelow port_number result ports.now }
{
    let mut end = 0;
    for given in ports {
        end = end.max(given.0.0 as usize + 1);
    }
    end
}

// Makes room in a table for the numbers below this one.
pub(crate) fn grow(table: &mut Vec<Option<bool>>, end: usize) -> Result<(), AllocError>
    ensures same { SameBits table.old.items table.new.items }
    ensures room { OnOk result (end ≤ vec_len table.new) }
{
    if table.len() < end {
        table.resize(end, None)?;
    }
    Ok(())
}

// Notes the bits of these cells where the table has none yet.
pub(crate) fn note_cells(table: &mut [Option<bool>], cells: &[(InstanceId, bool)])
    requires { AreBelow cell_number (length table.old) cells.now }
    ensures { IsNoted cell_number table.old cells.now table.new }
{
    for given in cells {
        note(table, given.0.0, given.1);
    }
}

// Notes the bits of these ports where the table has none yet.
pub(crate) fn note_ports(table: &mut [Option<bool>], ports: &[(NetId, bool)])
    requires { AreBelow port_number (length table.old) ports.now }
    ensures { IsNoted port_number table.old ports.now table.new }
{
    for given in ports {
        note(table, given.0.0, given.1);
    }
}

// Notes the bit of a number, where the table has none yet.
fn note(table: &mut [Option<bool>], number: u32, bit: bool)
    requires { number < length table.old }
    ensures { (k : ℕ) → spec.bit_of table.new k ≡ or_else (spec.bit_of table.old k) (if number == k then Some bit else None) }
{
    let there = &mut table[number as usize];
    if there.is_none() {
        *there = Some(bit);
    }
}

// Appends those of these cells that have no bit in the table.
pub(crate) fn push_missing_cells(
    list: &mut Vec<(InstanceId, bool)>,
    table: &[Option<bool>],
    cells: &[(InstanceId, bool)],
)
    requires { vec_len list.old + length cells.now ≤ vec_capacity list.old }
    ensures { list.new.items ≡ list.old.items ++ missing_by cell_number table.now cells.now }
{
    for given in cells {
        if bit_of(table, given.0.0).is_none() {
            list.push_reserved(*given);
        }
    }
}

// Appends those of these ports that have no bit in the table.
pub(crate) fn push_missing_ports(
    list: &mut Vec<(NetId, bool)>,
    table: &[Option<bool>],
    ports: &[(NetId, bool)],
)
    requires { vec_len list.old + length ports.now ≤ vec_capacity list.old }
    ensures { list.new.items ≡ list.old.items ++ missing_by port_number table.now ports.now }
{
    for given in ports {
        if bit_of(table, given.0.0).is_none() {
            list.push_reserved(*given);
        }
    }
}
