ghost use Rattle.std.specs.Prelude.{◌≡◌, ℕ, ◌<◌, ◌≤◌, Bool, false, length, IfOk, MatchOption};
ghost use Rattle.dft_base.specs.Solutions.{bit_at, sum_over, xor};
ghost use Rattle.dft_lanes.specs.Rows.{bits_of, IsPacked};
ghost use Rattle.dft_gf2.specs.Ends.{EndsAt};
ghost use Rattle.dft_gf2.specs.Rows.{IsAdded, IsCopied, IsLedBy, IsStarted, IsZero};

use crate::bits::Bits;
use std::alloc::{AllocError, Global};

/// A sum of equations: its set and bit, the places of the kept equations that it sums, and the id of the equation that began it.
#[derive(Drop)]
pub struct Row {
    pub set: Bits,
    pub bit: bool,
    pub sums: Bits,
    pub id: u32,
}

impl Row {
    /// A row of so many columns that sums nothing, and can sum so many equations.
    pub fn blank(alloc: Global, columns: u32, equations: u32) -> Result<Row, AllocError>
        ensures { IfOk result (λ row. (length row.set ≡ columns) × (length row.sums ≡ equations)) }
    {
        Ok(Row {
            set: Bits::zeros(alloc, columns)?,
            bit: false,
            sums: Bits::zeros(alloc, equations)?,
            id: 0,
        })
    }

    /// Becomes this equation alone.
    pub fn start(&mut self, row: &[u64], bit: bool, id: u32)
        requires { IsPacked (length self.old.set) row.now }
        ensures { IsStarted (bits_of (length self.old.set) row.now) bit id self.old self.new }
    {
        self.set.copy_from(row);
        self.bit = bit;
        self.sums.clear();
        self.id = id;
    }

    /// Whether the row sums the kept equation at this place.
    pub fn names(&self, place: usize) -> bool
        requires { place < length self.now.sums }
        ensures { result ≡ bit_at self.now.sums place }
    {
        self.sums.get(place)
    }

    /// Becomes another row, which sums nothing that this one cannot.
    pub fn copy_from(&mut self, other: &Row)
        requires set { length self.old.set ≡ length other.now.set }
        requires sums { length self.old.sums ≤ length other.now.sums }
        requires end { (j : ℕ) → length self.old.sums ≤ j → bit_at other.now.sums j ≡ false }
        ensures { IsCopied self.old other.now self.new }
    {
        self.set.copy_first(&other.set);
        self.bit = other.bit;
        self.sums.copy_first(&other.sums);
        self.id = other.id;
    }

    /// Adds another row, whose last column is `column` and which sums no equation past `place`.
    pub fn add(&mut self, other: &Row, column: usize, place: usize)
        requires set { (column < length self.old.set) × (column < length other.now.set) × EndsAt other.now.set column }
        requires sums { (place < length self.old.sums) × (place < length other.now.sums) × EndsAt other.now.sums place }
        ensures { IsAdded self.old other.now self.new }
    {
        self.set.add(&other.set, column);
        self.bit ^= other.bit;
        self.sums.add(&other.sums, place);
    }

    /// The row's last column.
    pub fn last(&self) -> Option<u32>
        ensures { MatchOption result (IsZero self.now) (λ column. (column < length self.now.set) × IsLedBy self.now column) }
    {
        self.set.last()
    }

    /// The bit that the row gives its last column, where that column and those after it are 0 among these bits.
    pub fn forced(&self, bits: &Bits) -> bool
        requires { length bits.now ≡ length self.now.set }
        ensures { result ≡ xor self.now.bit (sum_over (length bits.now) self.now.set (bit_at bits.now)) }
    {
        self.bit ^ self.set.sum_with(bits)
    }
}
