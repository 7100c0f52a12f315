//! Cubes that go into open patterns.

ghost use Rattle.std.specs.Prelude.{◌≡◌, ◌<◌, ◌^◌, ◌++◌, None, length, IfOk, MatchBool, MatchOption, OnErr, OnOk};
ghost use Rattle.dft_merge.specs.Placement as spec;
ghost use Rattle.dft_merge.specs.Placement.{Fits, cell_number, joined, port_number};
ghost use Rattle.dft_merge.specs.LoadPlan.{columns_by, rows_by};
ghost use Rattle.dft_merge.specs.Slots.{AreSlots, IsJoined, IsSlot, NoneFrom};
ghost use Rattle.dft_merge.specs.Tables.{IsTable, missing_by};

use crate::adding::add_cells;
use crate::loads::Loads;
use crate::slot::{Slot, grow_for, opposes};
use crate::tables::{note_cells, note_ports, push_missing_cells, push_missing_ports};
use dft_base::Listed;
use dft_cubes::{Cube, Merged};
use dft_netlist::{InstanceId, NetId};
use std::alloc::{AllocError, Global};
use std::mem;

// Appends to two lists what a cube gives and the tables do not have, or nothing where memory runs out.
fn append(
    cells: &mut Vec<(InstanceId, bool)>,
    ports: &mut Vec<(NetId, bool)>,
    slot: &Slot,
    cube: &Cube,
) -> Result<(), AllocError>
    ensures cells { OnOk result (cells.new.items ≡ cells.old.items ++ missing_by cell_number slot.now.cells.items cube.now.cells) }
    ensures ports { OnOk result (ports.new.items ≡ ports.old.items ++ missing_by port_number slot.now.ports.items cube.now.ports) }
    ensures err_cells { OnErr result (cells.new.items ≡ cells.old.items) }
    ensures err_ports { OnErr result (ports.new.items ≡ ports.old.items) }
{
    cells.reserve(cube.cells.as_slice().len())?;
    ports.reserve(cube.ports.as_slice().len())?;
    push_missing_cells(cells, &slot.cells, cube.cells.as_slice());
    push_missing_ports(ports, &slot.ports, cube.ports.as_slice());
    Ok(())
}

// Appends to a pattern what a cube gives and the tables do not have, or nothing where memory runs out.
fn extend(alloc: Global, pattern: &mut Merged, slot: &Slot, cube: &Cube) -> Result<(), AllocError>
    ensures ok { OnOk result (pattern.new ≡ record {
      domains = pattern.old.domains;
      cells = pattern.old.cells ++ missing_by cell_number slot.now.cells.items cube.now.cells;
      ports = pattern.old.ports ++ missing_by port_number slot.now.ports.items cube.now.ports;
    }) }
    ensures err { OnErr result (pattern.new ≡ pattern.old) }
{
    let mut cells = mem::replace(&mut pattern.cells, Listed::from_vec(Vec::new(alloc))).into_vec();
    let mut ports = mem::replace(&mut pattern.ports, Listed::from_vec(Vec::new(alloc))).into_vec();
    let outcome = append(&mut cells, &mut ports, slot, cube);
    pattern.cells = Listed::from_vec(cells);
    pattern.ports = Listed::from_vec(ports);
    outcome
}

// Puts the bits of a cube into a pattern and its tables, or none of them where memory runs out.
fn give(alloc: Global, slot: &mut Slot, pattern: &mut Merged, cube: &Cube) -> Result<(), AllocError>
    requires cells { IsTable cell_number pattern.old.cells slot.old.cells.items }
    requires ports { IsTable port_number pattern.old.ports slot.old.ports.items }
    ensures system { slot.new.system ≡ slot.old.system }
    ensures cells { IsTable cell_number pattern.new.cells slot.new.cells.items }
    ensures ports { IsTable port_number pattern.new.ports slot.new.ports.items }
    ensures ok { OnOk result (pattern.new ≡ joined pattern.old cube.now) }
    ensures err { OnErr result (pattern.new ≡ pattern.old) }
{
    grow_for(&mut slot.cells, &mut slot.ports, cube)?;
    extend(alloc, pattern, slot, cube)?;
    note_cells(&mut slot.cells, cube.cells.as_slice());
    note_ports(&mut slot.ports, cube.ports.as_slice());
    Ok(())
}

// Puts a cube of scanned cells into an open pattern where it fits, and says whether it does.
fn join(
    alloc: Global,
    loads: &Loads<'_>,
    slot: &mut Slot,
    pattern: &mut Merged,
    cube: &Cube,
) -> Result<bool, AllocError>
    requires scanned { spec.first_unscanned (rows_by loads.now) cube.now.cells ≡ None }
    requires few { length cube.now.cells < 2 ^ 32 }
    requires slot { IsSlot (columns_by loads.now) (rows_by loads.now) pattern.old slot.old }
    ensures slot { IsSlot (columns_by loads.now) (rows_by loads.now) pattern.new slot.new }
    ensures joined { IfOk result (λ fits. MatchBool fits
        (Fits (columns_by loads.now) (rows_by loads.now) pattern.old cube.now × (pattern.new ≡ joined pattern.old cube.now))
        ((Fits (columns_by loads.now) (rows_by loads.now) pattern.old cube.now → ⊥) × (pattern.new ≡ pattern.old))) }
    ensures err { OnErr result (pattern.new ≡ pattern.old) }
{
    if !pattern.domains.are(cube.domains) || opposes(&slot.cells, &slot.ports, cube) {
        return Ok(false);
    }
    let mark = slot.system.mark();
    if !add_cells(&mut slot.system, loads, cube.cells.as_slice()) {
        slot.system.back_to(mark);
        return Ok(false);
    }
    match give(alloc, slot, pattern, cube) {
        Ok(()) => Ok(true),
        Err(error) => {
            slot.system.back_to(mark);
            Err(error)
        }
    }
}

// Puts a cube of scanned cells into the first of the open patterns that it fits, and tells that pattern's number.
pub(crate) fn join_first(
    alloc: Global,
    loads: &Loads<'_>,
    slots: &mut [Slot],
    patterns: &mut [Merged],
    first: usize,
    cube: &Cube,
) -> Result<Option<usize>, AllocError>
    requires scanned { spec.first_unscanned (rows_by loads.now) cube.now.cells ≡ None }
    requires few { length cube.now.cells < 2 ^ 32 }
    requires slots { AreSlots (columns_by loads.now) (rows_by loads.now) first patterns.old slots.old }
    ensures slots { AreSlots (columns_by loads.now) (rows_by loads.now) first patterns.new slots.new }
    ensures joined { IfOk result (λ found. MatchOption found
        (NoneFrom (columns_by loads.now) (rows_by loads.now) first patterns.old cube.now (length patterns.old) × (patterns.new ≡ patterns.old))
        (IsJoined (columns_by loads.now) (rows_by loads.now) first patterns.old cube.now patterns.new)) }
    ensures err { OnErr result (patterns.new ≡ patterns.old) }
{
    for place in 0..slots.len() {
        if join(
            alloc,
            loads,
            &mut slots[place],
            &mut patterns[first + place],
            cube,
        )? {
            return Ok(Some(first + place));
        }
    }
    Ok(None)
}
