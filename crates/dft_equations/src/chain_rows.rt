ghost use Rattle.std.specs.Prelude.{◌≡◌, ℕ, ◌+◌, ◌/◌, ◌<◌, ◌≤◌, [], get_or, length, slice_range};
ghost use Rattle.dft_base.specs.Packed.{packed_bit};
ghost use Rattle.dft_base.specs.Solutions.{bit_at};
ghost use Rattle.dft_equations.specs.ChainRows.{rows_by, AreKept};

use crate::row::Row;
use std::marker::Model;

/// The rows of the cells of a chain. The rows of the first 64 places are kept: 64 places further, bits are moved down by as
/// many words as there are channels. A clause sees the row of each cell.
pub struct ChainRows {
    columns: u32,
    channels: u8,
    places: u16,
    kept: Vec<Row>,
}

// One call for all fields, so that the proof of what owns a value stays short.
impl Drop for ChainRows {
    fn drop(self) {
        let ChainRows {
            columns: _,
            channels: _,
            places: _,
            kept: _,
        } = self;
    }
}

impl Model for ChainRows {
    ghost use Rattle.std.specs.Prelude.{List, Bool};

    ghost Value = { List (List Bool) };

    ghost use Rattle.dft_equations.specs.ChainRowsShown.{rows_in, HasKept};

    ghost view = { rows_in };

    ghost invariant = { HasKept };
}

impl ChainRows {
    // The rows of so many places, of which these are kept.
    pub(crate) fn new(columns: u32, channels: u8, places: u16, kept: Vec<Row>) -> ChainRows
        requires { AreKept columns channels kept.items places }
        ensures { result ≡ rows_by columns channels kept.items places }
    {
        ChainRows {
            columns,
            channels,
            places,
            kept,
        }
    }

    /// The words of the row at a place.
    pub fn words_at(&self, place: u16) -> &[u64]
        requires { place < length self.now }
        ensures size { length result.now ≡ (length (get_or self.now place []) + 63) / 64 }
        ensures packed { (column : ℕ) → packed_bit result.now column ≡ bit_at (get_or self.now place []) column }
    {
        let words = self.kept[usize::from(place % 64)].words();
        let first = usize::from(self.channels) * usize::from(place / 64);
        window(words, first, (self.columns as usize + 63) / 64)
    }
}

// So many words from one on.
fn window(words: &[u64], first: usize, count: usize) -> &[u64]
    requires { first + count ≤ length words.now }
    ensures { result.now ≡ slice_range words.now first (first + count) }
{
    &words[first..first + count]
}
