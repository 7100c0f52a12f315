ghost use Rattle.std.specs.Prelude.{◌≡◌, ℕ, ◌+◌, ◌/◌, length};
ghost use Rattle.dft_base.specs.Solutions.{bit_at};
ghost use Rattle.dft_base.specs.Packed.{packed_bit};
ghost use Rattle.dft_equations.specs.LoadRows.{AreWide, IsCell, row_of};

use crate::chain_rows::ChainRows;
use std::marker::Model;

/// The load equations of the cells of chains, a row of packed words for each cell. The variable of a channel at a cycle has the
/// column `cycle * channels + channel`. A clause sees the number of columns, and for each chain the rows of its cells, each as
/// its bits (Rajski and others, 2004).
pub struct Equations {
    columns: u32,
    chains: Vec<ChainRows>,
}

// One call for all fields, so that the proof of what owns a value stays short.
impl Drop for Equations {
    fn drop(self) {
        let Equations {
            columns: _,
            chains: _,
        } = self;
    }
}

impl Model for Equations {
    ghost use Rattle.dft_equations.specs.LoadRows.{LoadRows};

    ghost Value = { LoadRows };

    ghost use Rattle.dft_equations.specs.Inside.{load_rows, IsWide};

    ghost view = { load_rows };

    ghost invariant = { IsWide };
}

impl Equations {
    // The rows of chains, each with a bit for each column.
    pub(crate) fn new(columns: u32, chains: Vec<ChainRows>) -> Equations
        requires { AreWide columns chains.items }
        ensures { result ≡ record { columns = columns; chains = chains.items } }
    {
        Equations { columns, chains }
    }

    /// The number of columns: the cycles of a load times the channels.
    pub fn columns(&self) -> u32
        ensures { result ≡ self.now.columns }
    {
        self.columns
    }

    /// The load equation of the cell at a place of a chain, place 0 nearest the ring: column c is bit `c % 64` of word `c / 64`.
    /// Takes no memory.
    pub fn of_cell(&self, chain: u16, place: u16) -> &[u64]
        requires { IsCell self.now chain place }
        ensures size { length result.now ≡ (self.now.columns + 63) / 64 }
        ensures row { (column : ℕ) → packed_bit result.now column ≡ bit_at (row_of self.now chain place) column }
        ensures width { length (row_of self.now chain place) ≡ self.now.columns }
    {
        self.chains[chain as usize].words_at(place)
    }
}
