use dft_base::Tri;
use dft_registers::{Cells, Move};
use std::alloc::{AllocError, Global};
use std::test::Fail;

// The cell before each: ten in a chain, seven in another one, one that follows the third of the first, and two in a
// circle.
fn chains(alloc: Global) -> Result<Vec<Option<u32>>, AllocError> {
    let mut before = Vec::new(alloc);
    before.push(None)?;
    for cell in 0..9u32 {
        before.push(Some(cell))?;
    }
    before.push(None)?;
    for cell in 10..16u32 {
        before.push(Some(cell))?;
    }
    before.push(Some(2))?;
    before.push(Some(19))?;
    before.push(Some(18))?;
    Ok(before)
}

fn value(number: usize) -> Tri {
    match number % 3 {
        0 => Tri::Zero,
        1 => Tri::One,
        _ => Tri::Unknown,
    }
}

fn put(cells: &mut Cells<Tri>, cell: usize, value: Tri) {
    if cell < cells.len() {
        cells.set(cell, value);
    }
}

// The values after a shift of the first ten, where one comes in.
fn shifted(alloc: Global, values: &[Tri], first: Tri) -> Result<Vec<Tri>, AllocError> {
    let mut next = Vec::new(alloc);
    let mut last = first;
    for (cell, old) in values.iter().enumerate() {
        next.push(if cell < 10 { last } else { *old })?;
        last = *old;
    }
    Ok(next)
}

fn are(cells: &Cells<Tri>, values: &[Tri]) -> bool {
    for (cell, value) in values.iter().enumerate() {
        if cells.at(cell) != *value {
            return false;
        }
    }
    cells.at(values.len()) == Tri::Unknown
}

// Whether a chain of ten is a register, and after so many shifts each cell has its value.
fn shift_as_chains(alloc: Global, shifts: usize) -> Result<bool, AllocError> {
    let before = chains(alloc)?;
    let mut cells = Cells::new(alloc, &before)?;
    let mut values = Vec::new(alloc);
    for cell in 0..20 {
        put(&mut cells, cell, value(cell));
        values.push(value(cell))?;
    }
    if cells.len() != 20 || cells.registers() != 2 || cells.register(1).len() != 10 {
        return Ok(false);
    }
    for shift in 0..shifts {
        values = shifted(alloc, &values, value(shift / 2))?;
        cells.shift(&[Move::Stays, Move::Shifts]);
        put(&mut cells, 0, value(shift / 2));
        if !are(&cells, &values) {
            return Ok(false);
        }
    }
    Ok(true)
}

#[test]
fn registers_shift_as_chains(rt: HostRuntime) -> Result<(), Fail> {
    assert!(rt; shift_as_chains(rt.alloc(), 0)?, "none");
    assert!(rt; shift_as_chains(rt.alloc(), 25)?, "25");
    Ok(())
}

// The cell before each: eight in a chain, and those from the ninth to the last in another one.
fn two_chains(alloc: Global, last: u32) -> Result<Vec<Option<u32>>, AllocError> {
    let mut before = Vec::new(alloc);
    before.push(None)?;
    for cell in 0..7u32 {
        before.push(Some(cell))?;
    }
    before.push(None)?;
    for cell in 8..last {
        before.push(Some(cell))?;
    }
    Ok(before)
}

// The second register takes the values of the first one, at the same places or at the ones before. Whether it is short
// enough for that.
fn take_over(cells: &mut Cells<Tri>, trails: bool) -> bool {
    let first = cells.register(1).len();
    let second = cells.register(2).len();
    if trails {
        if second == 0 || second - 1 > first {
            return false;
        }
        cells.shift(&[Move::Stays, Move::Stays, Move::Trails(1)]);
    } else {
        if second > first {
            return false;
        }
        cells.shift(&[Move::Stays, Move::Stays, Move::Copies(1)]);
    }
    true
}

// The values behind that, where the ninth cell has its own.
fn taken_over(alloc: Global, count: usize, trails: bool) -> Result<Vec<Tri>, AllocError> {
    let mut values = Vec::new(alloc);
    for cell in 0..count {
        let source = if cell < 9 {
            cell
        } else if trails {
            cell - 9
        } else {
            cell - 8
        };
        values.push(value(source / 2))?;
    }
    Ok(values)
}

// Whether two chains are registers, and each cell has its value behind a move of the second one.
fn take_as_told(alloc: Global, last: u32, trails: bool) -> Result<bool, AllocError> {
    let before = two_chains(alloc, last)?;
    let mut cells = Cells::new(alloc, &before)?;
    for cell in 0..before.len() {
        put(&mut cells, cell, value(cell / 2));
    }
    if cells.registers() != 3 || !take_over(&mut cells, trails) {
        return Ok(false);
    }
    put(&mut cells, 8, value(4));
    let values = taken_over(alloc, before.len(), trails)?;
    Ok(are(&cells, &values))
}

#[test]
fn registers_take_from_others(rt: HostRuntime) -> Result<(), Fail> {
    assert!(rt; take_as_told(rt.alloc(), 15, false)?, "copies");
    assert!(rt; take_as_told(rt.alloc(), 15, true)?, "trails");
    assert!(rt; take_as_told(rt.alloc(), 16, true)?, "trails, one longer");
    assert!(rt; !take_as_told(rt.alloc(), 16, false)?, "too long");
    Ok(())
}
