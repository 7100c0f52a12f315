//! The lines of an unsolvable cube, one by one.

ghost use Rattle.std.specs.Prelude.{◌≡◌, ◌<◌, true, false, [], None, length, drop, is_some, IfErr, IfOk, IfSome, MatchOption, OnOk};
ghost use Rattle.dft_merge.specs.LoadPlan.{rows_by};
ghost use Rattle.dft_certify.specs.Certifying as spec;
ghost use Rattle.dft_certify.specs.Certifying.{IsFault};

use crate::cell_set::CellSet;
use crate::error::CertifyError;
use crate::rows::{same_variables, scanned_named};
use dft_base::{Name, Place};
use dft_cube_reports::variables_of;
use dft_merge::Loads;
use dft_netlist::InstanceId;
use dft_report::SumLine;
use std::alloc::{AllocError, Global};

// The first place, from one on, at which a cube gives a cell this bit.
fn care_from(
    cells: &[(InstanceId, bool)],
    from: usize,
    cell: InstanceId,
    bit: bool,
) -> Option<usize>
    ensures { MatchOption result (spec.is_care (drop from cells.now) cell bit ≡ false) (λ place. (place < length cells.now) × (spec.is_care cells.now cell bit ≡ true)) }
{
    for place in from..cells.len() {
        let given = cells[place];
        if given.0.0 == cell.0 && given.1 == bit {
            return Some(place);
        }
    }
    None
}

// A place at which a cube gives a cell this bit. It is looked for from one on first, since certificates that are written name cells in the
// cube's order.
fn care_place(
    cells: &[(InstanceId, bool)],
    next: usize,
    cell: InstanceId,
    bit: bool,
) -> Option<usize>
    ensures care { is_some result ≡ spec.is_care cells.now cell bit }
    ensures within { IfSome result (λ place. place < length cells.now) }
{
    match care_from(cells, next, cell, bit) {
        Some(place) => Some(place),
        None => care_from(cells, 0, cell, bit),
    }
}

// Whether a line has the variables that this cell sums.
fn has_variables(
    alloc: Global,
    loads: &Loads<'_>,
    cell: InstanceId,
    line: &SumLine,
) -> Result<bool, AllocError>
    ensures { IfOk result (λ same. same ≡ spec.has_variables loads.now.config.ring (rows_by loads.now) cell line.now) }
{
    let own = variables_of(alloc, loads, cell)?;
    Ok(same_variables(line.variables.as_slice(), &own))
}

// Where a cube gives a cell the bit of a line, if the line is the sum that the cell takes, and the first of the cell.
fn sum_place(
    alloc: Global,
    loads: &Loads<'_>,
    cells: &[(InstanceId, bool)],
    before: &CellSet,
    next: usize,
    cell: InstanceId,
    line: &SumLine,
) -> Result<Option<usize>, AllocError>
    ensures sum { IfOk result (λ place. is_some place ≡ spec.is_sum loads.now.config.ring (rows_by loads.now) cells.now before.now cell line.now) }
    ensures first { IfOk result (λ place. IfSome place (λ k. (k < length cells.now) × (spec.has_cell before.now cell ≡ false))) }
{
    let place = care_place(cells, next, cell, line.bit);
    if place.is_none() || before.has(cell) || !has_variables(alloc, loads, cell, line)? {
        return Ok(None);
    }
    Ok(place)
}

// The place of the line with this number.
fn place_of(number: u64) -> Result<Place, AllocError>
    ensures { IfOk result (λ place. place ≡ spec.place_of_line number) }
{
    match u32::try_from(number) {
        Ok(line) => Ok(Place { line, column: 1 }),
        Err(_past) => Err(AllocError),
    }
}

// What is told of a line: its place, and its cell's name.
fn told(alloc: Global, number: u64, line: &SumLine) -> Result<(Place, Name), AllocError>
    ensures { IfOk result (λ told. (told.0 ≡ spec.place_of_line number) × (told.1 ≡ line.now.name)) }
{
    let place = place_of(number)?;
    let name = line.name.copy(alloc)?;
    Ok((place, name))
}

// Tests a line, and notes its cell. The answer is the place in the cube from which the next is looked for.
fn take_sum(
    alloc: Global,
    loads: &Loads<'_>,
    cells: &[(InstanceId, bool)],
    before: &mut CellSet,
    next: usize,
    number: u64,
    line: &SumLine,
) -> Result<usize, CertifyError>
    ensures passed { OnOk result (spec.sum_refusal loads.now.design loads.now.config.ring (rows_by loads.now) cells.now before.old number line.now ≡ None) }
    ensures noted { OnOk result (before.new ≡ spec.and_cell before.old (spec.scanned_named loads.now.design (rows_by loads.now) line.now.name)) }
    ensures refused { IfErr result (IsFault (spec.sum_refusal loads.now.design loads.now.config.ring (rows_by loads.now) cells.now before.old number line.now)) }
{
    let Some(cell) = scanned_named(loads, line.name.as_slice()) else {
        let (place, name) = told(alloc, number, line)?;
        return Err(CertifyError::K4 { place, name });
    };
    let Some(place) = sum_place(alloc, loads, cells, before, next, cell, line)? else {
        let (place, name) = told(alloc, number, line)?;
        return Err(CertifyError::K2 { place, name });
    };
    before.add(cell)?;
    Ok(place + 1)
}

// Tests the lines of a cube, of which the first has this number.
pub(crate) fn take_sums(
    alloc: Global,
    loads: &Loads<'_>,
    cells: &[(InstanceId, bool)],
    first: u64,
    lines: &[SumLine],
) -> Result<(), CertifyError>
    ensures passed { OnOk result (spec.sums_refusal loads.now.design loads.now.config.ring (rows_by loads.now) cells.now [] first lines.now ≡ None) }
    ensures refused { IfErr result (IsFault (spec.sums_refusal loads.now.design loads.now.config.ring (rows_by loads.now) cells.now [] first lines.now)) }
{
    let mut before = CellSet::new(alloc);
    let mut next = 0;
    let mut number = first;
    for line in lines {
        next = take_sum(alloc, loads, cells, &mut before, next, number, line)?;
        number = number.checked_add(1).ok_or(AllocError)?;
    }
    Ok(())
}
