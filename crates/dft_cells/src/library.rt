ghost use Rattle.std.specs.Prelude.{◌≡◌, ◌<◌, ◌≤◌, IfOk, IsSome, MatchOption, Some, length, slice_get};
ghost use Rattle.dft_cells.specs.Cells.{find_cell, NoneNamed, IsNamed, NoneBefore, IsFirstOf};
ghost use Rattle.dft_cells.specs.Standard.{standard_cells};
ghost use Rattle.dft_cells.specs.WellFormed.{IsWellFormed};
ghost use Rattle.dft_cells.specs.declared.kind.TheConstants.{DFF};

use crate::cell::{Cell, CellId};
use crate::kind::Kind;
use crate::standard;
use std::alloc::{AllocError, Global};
use std::marker::Model;

/// The most cells that a library may have.
pub const MAX_CELLS: usize = 4096;

/// The cells that a netlist may use, in byte order of their names. A clause sees them as a list.
#[derive(Debug)]
pub struct Library {
    cells: Vec<Cell>,
}

// One call for all fields, so that the proof of what owns a value stays short.
impl Drop for Library {
    fn drop(self) {
        let Library { cells: _ } = self;
    }
}

impl Model for Library {
    ghost use Rattle.std.specs.Prelude.{List};
    ghost use Rattle.dft_cells.specs.declared.cell.Cell.{Cell};
    ghost use Rattle.dft_cells.specs.WellFormed.{IsWellFormed};

    ghost Value = { List Cell };

    ghost view = { λ l. l.cells.items };

    ghost invariant = { λ l. IsWellFormed l.cells.items };
}

impl Library {
    /// The cells that stand where no library is given.
    pub fn standard(alloc: Global) -> Result<Library, AllocError>
        ensures { IfOk result (λ library. library ≡ standard_cells) }
    {
        let cells = standard::cells(alloc)?;
        Ok(Library { cells })
    }

    /// The library of these cells.
    pub fn of_cells(cells: Vec<Cell>) -> Library
        requires { IsWellFormed cells.items }
        ensures { result ≡ cells.items }
    {
        Library { cells }
    }

    /// All cells.
    pub fn cells(&self) -> &[Cell]
        ensures cells { result.now ≡ self.now }
        ensures well_formed { IsWellFormed self.now }
    {
        &self.cells
    }

    /// The cell with this name.
    pub fn find(&self, name: &[u8]) -> Option<CellId>
        ensures value { result ≡ find_cell self.now name.now }
        ensures named { MatchOption result (NoneNamed self.now name.now) (IsNamed self.now name.now) }
        ensures well_formed { IsWellFormed self.now }
    {
        find_in(&self.cells, name)
    }

    /// The cell of this number.
    pub fn cell(&self, id: CellId) -> &Cell
        requires { id.0 < length self.now }
        ensures cell { slice_get self.now id.0 ≡ Some result.now }
        ensures well_formed { IsWellFormed self.now }
    {
        &self.cells[id.0 as usize]
    }

    /// The first cell of this kind, in byte order of the names.
    pub fn first_of(&self, kind: Kind) -> Option<CellId>
        ensures first { MatchOption result (NoneBefore self.now kind (length self.now)) (IsFirstOf self.now kind) }
        ensures dff { kind ≡ DFF → IsSome result }
        ensures lockup { kind ≡ Kind.Lockup → IsSome result }
        ensures well_formed { IsWellFormed self.now }
    {
        first_in(&self.cells, kind)
    }

    /// The same library once more.
    pub fn copy(&self, alloc: Global) -> Result<Library, AllocError>
        ensures { IfOk result (λ copy. copy ≡ self.now) }
    {
        let mut cells = Vec::new(alloc);
        for cell in &self.cells {
            cells.push(cell.copy(alloc)?)?;
        }
        Ok(Library { cells })
    }
}

fn find_in(cells: &[Cell], name: &[u8]) -> Option<CellId>
    requires { length cells.now ≤ MAX_CELLS }
    ensures { result ≡ find_cell cells.now name.now }
{
    for (place, cell) in cells.iter().enumerate() {
        if cell.name.as_slice() == name {
            return Some(CellId(place as u16));
        }
    }
    None
}

fn first_in(cells: &[Cell], kind: Kind) -> Option<CellId>
    requires { length cells.now ≤ MAX_CELLS }
    ensures { MatchOption result (NoneBefore cells.now kind (length cells.now)) (IsFirstOf cells.now kind) }
{
    for (place, cell) in cells.iter().enumerate() {
        if cell.kind == kind {
            return Some(CellId(place as u16));
        }
    }
    None
}
