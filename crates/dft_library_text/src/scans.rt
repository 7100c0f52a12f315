//! The scan cells that flip-flops name.

ghost use Rattle.std.specs.Prelude.{◌≡◌, ◌≤◌, ◌∷◌, IfOk, IfErr, Ok, Err, Some, None, IsTrue, map, length};
ghost use Rattle.dft_library_text.specs.Reading as spec;
ghost use Rattle.dft_cells.specs.Cells.{find_cell};
ghost use Rattle.dft_library_text.specs.Refusals.{IsRefusal, IsOfTable};
ghost use Rattle.dft_cells.specs.WellFormed.{ascend, cell_name, pin_name, shared_pins, is_scan_role};

use crate::draft::Draft;
use crate::refusal::LibraryError;
use dft_base::Name;
use dft_cells::{Cell, CellId, Kind, MAX_CELLS, Pin, Role};
use std::alloc::{AllocError, Global};
use std::cmp::Ordering;

/// The cells of the drafts, each with the number of its scan cell.
pub fn cells_of(alloc: Global, drafts: &[Draft]) -> Result<Vec<Cell>, LibraryError>
    requires count { length drafts.now ≤ MAX_CELLS }
    requires ascend { IsTrue (ascend (map cell_name (map (spec.cell_with None) drafts.now))) }
    ensures ok { IfOk result (λ cells. spec.cells_among drafts.now drafts.now ≡ Ok cells.items) }
    ensures refused { IfErr result (λ e. IsRefusal e → spec.cells_among drafts.now drafts.now ≡ Err e) }
    ensures of_table { IfErr result IsOfTable }
{
    let mut cells = Vec::new(alloc);
    for draft in drafts {
        cells.push(cell_of(alloc, drafts, draft)?)?;
    }
    Ok(cells)
}

fn cell_of(alloc: Global, drafts: &[Draft], draft: &Draft) -> Result<Cell, LibraryError>
    requires count { length drafts.now ≤ MAX_CELLS }
    requires ascend { IsTrue (ascend (map cell_name (map (spec.cell_with None) drafts.now))) }
    ensures ok { IfOk result (λ cell. spec.cell_of drafts.now draft.now ≡ Ok cell) }
    ensures refused { IfErr result (λ e. IsRefusal e → spec.cell_of drafts.now draft.now ≡ Err e) }
    ensures of_table { IfErr result IsOfTable }
{
    let Some(name) = &draft.scan else {
        return Ok(cell_with(alloc, None, draft)?);
    };
    match scan_cell(drafts, draft, name.as_slice()) {
        Some(id) => Ok(cell_with(alloc, Some(id), draft)?),
        None => Err(LibraryError::L5 {
            name: draft.name.copy(alloc)?,
        }),
    }
}

fn cell_with(alloc: Global, scan: Option<CellId>, draft: &Draft) -> Result<Cell, AllocError>
    ensures { IfOk result (λ cell. cell ≡ spec.cell_with scan draft.now) }
{
    Ok(Cell {
        name: draft.name.copy(alloc)?,
        kind: draft.kind,
        pins: draft.pins.copy(alloc)?,
        scan,
    })
}

// The number of the cell with this name, where it can replace the draft's.
fn scan_cell(drafts: &[Draft], draft: &Draft, name: &[u8]) -> Option<CellId>
    requires count { length drafts.now ≤ MAX_CELLS }
    requires ascend { IsTrue (ascend (map cell_name (map (spec.cell_with None) drafts.now))) }
    ensures { result ≡ spec.scan_cell drafts.now draft.now name.now }
{
    match find_draft(drafts, name) {
        Some(id) => number_where(drafts, draft, id),
        None => None,
    }
}

fn number_where(drafts: &[Draft], draft: &Draft, id: CellId) -> Option<CellId>
    ensures { result ≡ spec.number_where drafts.now draft.now id }
{
    match drafts.get(usize::from(id.0)) {
        Some(other) => if is_scan_cell(other, draft) {
            Some(id)
        } else {
            None
        },
        None => None,
    }
}

// Whether a cell can replace another in a scan chain.
fn is_scan_cell(other: &Draft, draft: &Draft) -> bool
    ensures { result ≡ spec.is_scan_cell other.now draft.now }
{
    are_scan_kinds(draft.kind, other.kind)
        && share_names(other.pins.as_slice(), draft.pins.as_slice())
}

fn are_scan_kinds(kind: Kind, other: Kind) -> bool
    ensures { result ≡ spec.are_scan_kinds kind other }
{
    match (kind, other) {
        (Kind::Flop(flop), Kind::Flop(scan)) => !flop.scan && scan.scan && flop.force == scan.force,
        _ => false,
    }
}

// Whether the shared pins of a scan cell have the names of a flip-flop's pins.
fn share_names(others: &[Pin], pins: &[Pin]) -> bool
    ensures { result ≡ spec.same_names (map pin_name (shared_pins others.now)) (map pin_name pins.now) }
{
    let mut place: usize = 0;
    for other in others {
        if is_scan_role(other.role) {
            continue;
        }
        if place >= pins.len() {
            return false;
        }
        let same = other.name.as_slice() == pins[place].name.as_slice();
        if !same {
            return false;
        }
        place += 1;
    }
    place == pins.len()
}

fn is_scan_role(role: Role) -> bool
    ensures { result ≡ is_scan_role role }
{
    role == Role::ScanIn || role == Role::ScanEnable
}

// The number of the cell with this name, by halving.
fn find_draft(drafts: &[Draft], name: &[u8]) -> Option<CellId>
    requires count { length drafts.now ≤ MAX_CELLS }
    requires ascend { IsTrue (ascend (map cell_name (map (spec.cell_with None) drafts.now))) }
    ensures { result ≡ find_cell (map (spec.cell_with None) drafts.now) name.now }
{
    let mut low: usize = 0;
    let mut high = drafts.len();
    while low < high {
        let middle = low + (high - low) / 2;
        match drafts[middle].name.as_slice().cmp(name) {
            Ordering::Less => low = middle + 1,
            Ordering::Greater => high = middle,
            Ordering::Equal => return Some(CellId(middle as u16)),
        }
    }
    None
}
