ghost use Rattle.std.specs.Prelude.{◌≡◌, ℕ, ◌<◌, Bool, length, IfOk, MatchOption, slice_set};
ghost use Rattle.dft_base.specs.Solutions.{bit_at, sum_over, xor};
ghost use Rattle.dft_gf2.specs.Ends.{EndsAt};
ghost use Rattle.dft_gf2.specs.Rows.{row_at, AreFitted, AreWide, IsAdded, IsLedBy, IsWide, IsZero};

use crate::bits::Bits;
use crate::row::Row;
use std::alloc::{AllocError, Global};
use std::marker::Model;

/// As many rows as columns. Each is stored with names up to its own place, since it sums no later one. A clause sees the list of rows.
pub struct Rows {
    columns: u32,
    rows: Vec<Row>,
}

// One call for all fields, so that the proof of what owns a value stays short.
impl Drop for Rows {
    fn drop(self) {
        let Rows {
            columns: _,
            rows: _,
        } = self;
    }
}

impl Model for Rows {
    ghost use Rattle.std.specs.Prelude.{List};
    ghost use Rattle.dft_gf2.specs.declared.row.Row.{Row};

    ghost Value = { List Row };

    ghost use Rattle.dft_gf2.specs.RowsShown.{shown, AreStored};

    ghost view = { shown };

    ghost invariant = { AreStored };
}

impl Rows {
    /// Blank rows.
    pub fn blank(alloc: Global, columns: u32) -> Result<Rows, AllocError>
        ensures { IfOk result (AreWide columns) }
    {
        let rows = stored(alloc, columns)?;
        Ok(Rows { columns, rows })
    }

    /// Adds the row at a place, which a column leads, to another one.
    pub fn add_to(&self, trial: &mut Row, place: usize, column: usize)
        requires place { place < length self.now }
        requires wide { IsWide (length self.now) trial.old }
        requires set { (column < length self.now) × EndsAt (row_at self.now place).set column }
        requires sums { EndsAt (row_at self.now place).sums place }
        ensures { IsAdded trial.old (row_at self.now place) trial.new }
    {
        trial.add(&self.rows[place], column, place);
    }

    /// Puts a row that sums no later one at a place.
    pub fn put(&mut self, place: usize, row: &Row)
        requires place { place < length self.old }
        requires wide { IsWide (length self.old) row.now }
        requires sums { EndsAt row.now.sums place }
        ensures { self.new ≡ slice_set self.old place row.now }
    {
        self.rows[place].copy_from(row);
    }

    /// The last column of the row at a place.
    pub fn last(&self, place: usize) -> Option<u32>
        requires { place < length self.now }
        ensures { MatchOption result (IsZero (row_at self.now place)) (λ column. (column < length self.now) × IsLedBy (row_at self.now place) column) }
    {
        self.rows[place].last()
    }

    /// The bit that the row at a place gives its last column, where that column and those after it are 0 among these bits.
    pub fn forced(&self, place: usize, bits: &Bits) -> bool
        requires place { place < length self.now }
        requires bits { length bits.now ≡ length self.now }
        ensures { result ≡ xor (row_at self.now place).bit (sum_over (length bits.now) (row_at self.now place).set (bit_at bits.now)) }
    {
        self.rows[place].forced(bits)
    }

    /// The id of the equation that began the row at a place.
    pub fn id(&self, place: usize) -> u32
        requires { place < length self.now }
        ensures { result ≡ (row_at self.now place).id }
    {
        self.rows[place].id
    }
}

// Blank rows of so many columns, each of which can sum as many equations as its place counts with it.
fn stored(alloc: Global, columns: u32) -> Result<Vec<Row>, AllocError>
    ensures { IfOk result (λ rows. AreFitted columns rows.items) }
{
    let mut rows = Vec::with_capacity(alloc, columns as usize)?;
    for place in 0..columns {
        rows.push(Row::blank(alloc, columns, place + 1)?)?;
    }
    Ok(rows)
}
