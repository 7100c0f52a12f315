//! The values of cells.

ghost use Rattle.std.specs.Prelude.{◌≡◌, ℕ, ◌<◌, [], length, replicate, true, false, IfOk, slice_set, map};
ghost use Rattle.dft_registers.specs.Layout.{place_at, cells_at, cell_at};
ghost use Rattle.dft_registers.specs.Cells as spec;

use crate::layout::{Layout, Place};
use crate::moves::{Way, shift_rows};
use crate::registers::{Values, unknown};
use crate::value::Value;
use std::alloc::{AllocError, Global};
use std::marker::Model;

/// The values of cells. Those that follow each other lie in a shift register, whose values move on by one place at once, or
/// over from another one; all others rest, each by itself. A clause sees where they lie, and the list of their values.
pub struct Cells<V> {
    layout: Layout,
    // The values of cells that rest, by cell; those of others tell nothing.
    resting: Vec<V>,
    rows: Vec<Values<V>>,
}

// One call for all fields, so that the proof of what owns a value stays short.
impl<V: Drop> Drop for Cells<V> {
    fn drop(self) {
        let Cells {
            layout: _,
            resting: _,
            rows: _,
        } = self;
    }
}

impl<V> Model for Cells<V> {
    ghost use Rattle.dft_registers.specs.Cells as spec;

    ghost Value = { spec.Contents V };

    ghost use Rattle.dft_registers.specs.Cells.{contents_of, AreCells};

    ghost view = { contents_of };

    ghost invariant = { AreCells };
}

// Values that nobody knows, for each register of a layout.
fn unknown_rows<V: Value>(alloc: Global, layout: &Layout) -> Result<Vec<Values<V>>, AllocError>
    ensures count { IfOk result (λ rows. length rows.items ≡ length layout.now.registers) }
    ensures each { IfOk result (λ rows. (r : ℕ) → spec.row_at rows.items r ≡ replicate (length (cells_at layout.now.registers r)) V.unknown_value) }
{
    let mut rows = Vec::new(alloc);
    for number in 0..layout.registers() {
        rows.push(Values::unknown(alloc, layout.register(number).len())?)?;
    }
    Ok(rows)
}

impl<V: Value> Cells<V> {
    /// Cells whose values nobody knows, by the cell before each, if there is one.
    pub fn new(alloc: Global, before: &[Option<u32>]) -> Result<Cells<V>, AllocError>
        ensures { IfOk result (λ cells. cells.values ≡ replicate (length before.now) V.unknown_value) }
    {
        let layout = Layout::of_chains(alloc, before)?;
        let resting = unknown(alloc, before.len())?;
        let rows = unknown_rows(alloc, &layout)?;
        Ok(Cells {
            layout,
            resting,
            rows,
        })
    }

    /// How many cells there are.
    pub fn len(&self) -> usize
        ensures { result ≡ length self.now.values }
    {
        self.layout.count()
    }

    // Whether a cell rests. Where there is no register but the first one, all do.
    fn rests(&self, cell: usize) -> bool
        requires { cell < length self.now.values }
        ensures rests { result ≡ true → (place_at self.now.layout.places cell).register ≡ 0 }
        ensures lies { result ≡ false → 0 < (place_at self.now.layout.places cell).register }
    {
        self.rows.len() < 2 || self.layout.place(cell).register == 0
    }

    /// The value of a cell, and `Unknown` past the end.
    pub fn at(&self, cell: usize) -> V
        ensures { result ≡ spec.value_or V.unknown_value self.now.values cell }
    {
        if cell < self.resting.len() {
            if self.rests(cell) {
                self.resting[cell]
            } else {
                let place = self.layout.place(cell);
                let row = &self.rows[place.register as usize];
                row.at(place.index as usize)
            }
        } else {
            V::unknown()
        }
    }

    /// Writes the value of a cell.
    pub fn set(&mut self, cell: usize, value: V)
        requires { cell < length self.old.values }
        ensures layout { self.new.layout ≡ self.old.layout }
        ensures values { self.new.values ≡ slice_set self.old.values cell value }
    {
        if self.rests(cell) {
            self.resting[cell] = value;
        } else {
            let place = self.layout.place(cell);
            let row = &mut self.rows[place.register as usize];
            row.set(place.index as usize, value);
        }
    }

    /// Reads the values of all cells, in their order.
    pub fn read(&self, row: &mut [V])
        requires { length row.old ≡ length self.now.values }
        ensures { row.new ≡ self.now.values }
    {
        for cell in 0..row.len() {
            row[cell] = self.at(cell);
        }
    }

    /// How many registers there are.
    pub fn registers(&self) -> usize
        ensures { result ≡ length self.now.layout.registers }
    {
        self.layout.registers()
    }

    /// The cells of a register, in their order; the first, for cells that rest, has none, and past the end there is none.
    pub fn register(&self, number: usize) -> &[usize]
        ensures cells { result.now ≡ cells_at self.now.layout.registers number }
        ensures first { number ≡ 0 → result.now ≡ [] }
    {
        self.layout.register(number)
    }

    /// Where a cell lies.
    pub fn place(&self, cell: usize) -> Place
        requires { cell < length self.now.values }
        ensures at { result ≡ place_at self.now.layout.places cell }
        ensures rest { result.register ≡ 0 → result.index ≡ 0 }
        ensures within { 0 < result.register → result.index < length (cells_at self.now.layout.registers result.register) }
        ensures here { 0 < result.register → cell_at self.now.layout.registers result.register result.index ≡ cell }
    {
        self.layout.place(cell)
    }

    /// Moves the values of registers: on by one place, where a register shifts, or over from another one, which stays. The
    /// first register, in which cells rest, is none of them. What a register begins with is then written behind the call.
    pub fn shift<W: Way>(&mut self, moves: &[W])
        requires { spec.CanMove self.old.layout (map W.move_value moves.now) }
        ensures { spec.IsShifted V.unknown_value (map W.move_value moves.now) self.old self.new }
    {
        shift_rows(moves, &mut self.rows);
    }
}
