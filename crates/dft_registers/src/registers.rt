//! Registers: the cells of one, in order, and their values.

ghost use Rattle.std.specs.Prelude.{◌≡◌, ℕ, ◌<◌, ◌≤◌, ◌+◌, ◌++◌, ◌∷◌, [], length, replicate, take, drop, ◌-◌, IfOk, OnOk, OnErr, slice_set, slice_index_or};
ghost use Rattle.dft_registers.specs.Cells.{copied_row};

use crate::value::Value;
use std::alloc::{AllocError, Global};
use std::collections::VecDeque;
use std::marker::Model;

// The cells of a register, one behind the other. A clause sees them as a list.
pub(crate) struct Register {
    cells: Vec<usize>,
}

// One call for all fields, so that the proof of what owns a value stays short.
impl Drop for Register {
    fn drop(self) {
        let Register { cells: _ } = self;
    }
}

impl Model for Register {
    ghost use Rattle.std.specs.Prelude.{ℕ, List};

    ghost Value = { List ℕ };

    ghost view = { λ r. r.cells.items };
}

impl Register {
    // No cell yet.
    pub(crate) fn new(alloc: Global) -> Register
        ensures { result ≡ [] }
    {
        Register {
            cells: Vec::new(alloc),
        }
    }

    // Adds a cell at the end.
    pub(crate) fn push(&mut self, cell: usize) -> Result<(), AllocError>
        ensures ok { OnOk result (self.new ≡ self.old ++ cell ∷ []) }
        ensures err { OnErr result (self.new ≡ self.old) }
    {
        self.cells.push(cell)?;
        Ok(())
    }

    // The cells.
    pub(crate) fn as_slice(&self) -> &[usize]
        ensures { result.now ≡ self.now }
    {
        &self.cells
    }
}

// So many values that nobody knows.
pub(crate) fn unknown<V: Value>(alloc: Global, count: usize) -> Result<Vec<V>, AllocError>
    ensures { IfOk result (λ values. values.items ≡ replicate count V.unknown_value) }
{
    vec![in alloc; V::unknown(); count]
}

// Copies, from a place on, the first of other values.
fn copy_values<V: Copy>(row: &mut [V], start: usize, source: &[V])
    requires { length row.old ≤ start + length source.now }
    ensures { row.new ≡ copied_row start row.old source.now }
{
    let count = row.len();
    if start < count {
        row[start..].copy_from_slice(&source[..count - start]);
    }
}

// The values of a register's cells, in their order. A clause sees them as a list.
#[derive(Drop)]
pub(crate) struct Values<V> {
    values: VecDeque<V>,
}

impl<V> Model for Values<V> {
    ghost use Rattle.std.specs.Prelude.{List};

    ghost Value = { List V };

    ghost view = { λ v. v.values.items };
}

impl<V: Value> Values<V> {
    // So many that nobody knows.
    pub(crate) fn unknown(alloc: Global, count: usize) -> Result<Values<V>, AllocError>
        ensures { IfOk result (λ values. values ≡ replicate count V.unknown_value) }
    {
        Ok(Values {
            values: VecDeque::from_vec(unknown(alloc, count)?),
        })
    }

    // The value at a place, and `Unknown` past the end.
    pub(crate) fn at(&self, place: usize) -> V
        ensures { result ≡ slice_index_or self.now place V.unknown_value }
    {
        match self.values.get(place) {
            Some(value) => *value,
            None => V::unknown(),
        }
    }

    // Writes the value at a place.
    pub(crate) fn set(&mut self, place: usize, value: V)
        requires { place < length self.old }
        ensures { self.new ≡ slice_set self.old place value }
    {
        self.values[place] = value;
    }

    // Moves all values on by one place; the last comes to the first place.
    pub(crate) fn shift(&mut self)
        ensures { self.new ≡ drop (length self.old - 1) self.old ++ take (length self.old - 1) self.old }
    {
        if !self.values.is_empty() {
            self.values.rotate_right(1);
        }
    }

    // Takes, from a place on, the first values of another register.
    pub(crate) fn copy(&mut self, start: usize, source: &mut Values<V>)
        requires { length self.old ≤ start + length source.old }
        ensures copied { self.new ≡ copied_row start self.old source.old }
        ensures source { source.new ≡ source.old }
    {
        let values = source.values.make_contiguous();
        let row = self.values.make_contiguous();
        copy_values(row, start, values);
    }
}
