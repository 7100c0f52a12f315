//! Patterns that begin with a cube.

ghost use Rattle.std.specs.Prelude.{◌≡◌, ◌≤◌, ◌<◌, ◌-◌, ◌++◌, ◌∷◌, [], length, IfOk, OnErr, OnOk, vec_len};
ghost use Rattle.std.specs.Vec.{vec_capacity};
ghost use Rattle.dft_merge.specs.Placement.{begun, cell_number, equations_of, port_number};
ghost use Rattle.dft_merge.specs.LoadPlan.{columns_by, rows_by};
ghost use Rattle.dft_merge.specs.Slots.{AreSlots, HasPlace, HaveColumns, IsNextCount, IsPut};
ghost use Rattle.dft_merge.specs.Systems.{IsSystem};
ghost use Rattle.dft_merge.specs.Tables.{IsTable};

use crate::loads::Loads;
use crate::slot::{Slot, grow_for};
use crate::tables::{note_cells, note_ports};
use dft_base::Listed;
use dft_cubes::{Cube, Merged};
use dft_gf2::System;
use std::alloc::{AllocError, Global};
use std::mem;

// A pattern that is to begin, and its tables.
#[derive(Drop)]
struct Draft {
    pattern: Merged,
    cells: Vec<Option<bool>>,
    ports: Vec<Option<bool>>,
}

// The pattern of a cube alone.
fn pattern_of(alloc: Global, cube: &Cube) -> Result<Merged, AllocError>
    ensures { IfOk result (λ pattern. pattern ≡ begun cube.now) }
{
    Ok(Merged {
        domains: cube.domains,
        cells: Listed::from_vec(Vec::from_slice(alloc, cube.cells.as_slice())?),
        ports: Listed::from_vec(Vec::from_slice(alloc, cube.ports.as_slice())?),
    })
}

// Notes the bits of a cube in empty tables.
fn note_all(
    cells: &mut Vec<Option<bool>>,
    ports: &mut Vec<Option<bool>>,
    cube: &Cube,
) -> Result<(), AllocError>
    requires cells { cells.old.items ≡ [] }
    requires ports { ports.old.items ≡ [] }
    ensures cells { OnOk result (IsTable cell_number cube.now.cells cells.new.items) }
    ensures ports { OnOk result (IsTable port_number cube.now.ports ports.new.items) }
{
    grow_for(cells, ports, cube)?;
    note_cells(cells, cube.cells.as_slice());
    note_ports(ports, cube.ports.as_slice());
    Ok(())
}

// The pattern of a cube alone, with its tables.
fn draft_of(alloc: Global, cube: &Cube) -> Result<Draft, AllocError>
    ensures pattern { IfOk result (λ draft. draft.pattern ≡ begun cube.now) }
    ensures cells { IfOk result (λ draft. IsTable cell_number cube.now.cells draft.cells.items) }
    ensures ports { IfOk result (λ draft. IsTable port_number cube.now.ports draft.ports.items) }
{
    let mut draft = Draft {
        pattern: pattern_of(alloc, cube)?,
        cells: Vec::new(alloc),
        ports: Vec::new(alloc),
    };
    note_all(&mut draft.cells, &mut draft.ports, cube)?;
    Ok(draft)
}

// Makes room for one pattern more, and a slot for it at the end: a new one, or the oldest where the window is full.
fn make_room(
    alloc: Global,
    loads: &Loads<'_>,
    window: usize,
    slots: &mut Vec<Slot>,
    patterns: &mut Vec<Merged>,
) -> Result<(), AllocError>
    requires window { 1 ≤ window }
    requires columns { HaveColumns (columns_by loads.now) slots.old.items }
    ensures patterns { patterns.new.items ≡ patterns.old.items }
    ensures room { OnOk result (vec_len patterns.new < vec_capacity patterns.new) }
    ensures ok { OnOk result (HasPlace (columns_by loads.now) window slots.old.items slots.new.items) }
    ensures err { OnErr result (slots.new.items ≡ slots.old.items) }
{
    patterns.reserve(1)?;
    if slots.len() < window {
        slots.push(Slot::blank(alloc, loads.equations().columns())?)?;
    } else {
        slots.rotate_left(1);
    }
    Ok(())
}

// Puts a drafted pattern at the end, and gives the last slot its tables and the system, whose place its own takes.
fn put(draft: Draft, system: &mut System, slots: &mut [Slot], patterns: &mut Vec<Merged>)
    requires slots { 0 < length slots.old }
    requires room { vec_len patterns.old < vec_capacity patterns.old }
    ensures patterns { patterns.new.items ≡ patterns.old.items ++ draft.pattern ∷ [] }
    ensures put { IsPut draft.cells.items draft.ports.items system.old slots.old system.new slots.new }
{
    let last = slots.len() - 1;
    let slot = &mut slots[last];
    mem::swap(&mut slot.system, system);
    slot.cells = draft.cells;
    slot.ports = draft.ports;
    patterns.push_reserved(draft.pattern);
}

// Begins a pattern with a cube whose equations the system has, and closes the oldest open one where the window is full.
// The system becomes that of a closed pattern, or a new one.
pub(crate) fn open(
    alloc: Global,
    loads: &Loads<'_>,
    window: usize,
    system: &mut System,
    slots: &mut Vec<Slot>,
    patterns: &mut Vec<Merged>,
    cube: &Cube,
) -> Result<(), AllocError>
    requires window { 1 ≤ window }
    requires few { length slots.old.items ≤ window }
    requires system { IsSystem (columns_by loads.now) (equations_of (rows_by loads.now) cube.now.cells) system.old }
    requires slots { AreSlots (columns_by loads.now) (rows_by loads.now) (length patterns.old.items - length slots.old.items) patterns.old.items slots.old.items }
    ensures columns { system.new.columns ≡ columns_by loads.now }
    ensures ok { OnOk result (patterns.new.items ≡ patterns.old.items ++ begun cube.now ∷ []) }
    ensures slots { OnOk result (AreSlots (columns_by loads.now) (rows_by loads.now) (length patterns.new.items - length slots.new.items) patterns.new.items slots.new.items) }
    ensures count { OnOk result (IsNextCount window (length slots.old.items) (length slots.new.items)) }
    ensures err_patterns { OnErr result (patterns.new.items ≡ patterns.old.items) }
    ensures err_slots { OnErr result (slots.new.items ≡ slots.old.items) }
{
    let draft = draft_of(alloc, cube)?;
    make_room(alloc, loads, window, slots, patterns)?;
    put(draft, system, slots, patterns);
    Ok(())
}
