ghost use Rattle.std.specs.Prelude.{◌≡◌, ℕ, ◌+◌, ◌*◌, ◌/◌, ◌^◌, ◌-◌, ◌<◌, ◌≤◌, slice_index, ◌==◌, ◌||◌, ◌&&◌, Bool, length, replicate, IfOk};
ghost use Rattle.dft_base.specs.Solutions.{bit_at};
ghost use Rattle.dft_base.specs.Packed.{packed_bit};
ghost use Rattle.std.specs.Int.{bit_at as bit_of_word};

use dft_lanes::put;
use std::alloc::{AllocError, Global};
use std::marker::Model;

/// A bit for each column, packed into words of 64. A clause sees the list of the bits.
pub struct Row {
    columns: u32,
    words: Vec<u64>,
}

// One call for all fields, so that the proof of what owns a value stays short.
impl Drop for Row {
    fn drop(self) {
        let Row {
            columns: _,
            words: _,
        } = self;
    }
}

impl Model for Row {
    ghost use Rattle.std.specs.Prelude.{List, Bool};

    ghost Value = { List Bool };

    ghost use Rattle.dft_equations.specs.RowShown.{row_bits, IsRow};

    ghost view = { row_bits };

    ghost invariant = { IsRow };
}

impl Row {
    /// The row of these bits.
    pub fn of_bits(alloc: Global, bits: &[bool]) -> Result<Row, AllocError>
        requires { length bits.now < 2 ^ 32 }
        ensures { IfOk result (λ row. row ≡ bits.now) }
    {
        let mut words = zeros(alloc, (bits.len() + 63) / 64)?;
        for (column, bit) in bits.iter().enumerate() {
            put(&mut words, column, *bit);
        }
        Ok(Row {
            columns: bits.len() as u32,
            words,
        })
    }

    /// The row whose bits are moved down by so many columns, with room for so many words more.
    pub fn moved(&self, alloc: Global, places: u32, more: u32) -> Result<Row, AllocError>
        requires { length self.now + 64 * more < 2 ^ 32 }
        ensures size { IfOk result (λ row. length row ≡ length self.now + 64 * more) }
        ensures bits { IfOk result (λ row. (column : ℕ) → bit_at row column ≡ bit_at self.now (column + places)) }
    {
        let count = self.words.len() + more as usize;
        let mut words = Vec::with_capacity(alloc, count)?;
        for word in 0..count {
            words.push(moved_word(&self.words, word, places as usize))?;
        }
        Ok(Row {
            columns: self.columns + 64 * more,
            words,
        })
    }

    /// The words.
    pub fn words(&self) -> &[u64]
        ensures size { length result.now ≡ (length self.now + 63) / 64 }
        ensures packed { (column : ℕ) → packed_bit result.now column ≡ bit_at self.now column }
    {
        &self.words
    }
}

// So many words without bits.
fn zeros(alloc: Global, count: usize) -> Result<Vec<u64>, AllocError>
    ensures { IfOk result (λ words. words.items ≡ replicate count 0) }
{
    vec![in alloc; 0; count]
}

// A word of the words, and 0 past the last.
fn word_at(words: &[u64], word: usize) -> u64
    ensures { result ≡ slice_index words.now word }
{
    if word < words.len() { words[word] } else { 0 }
}

// A word of the bits that are moved down by so many places.
fn moved_word(words: &[u64], word: usize, places: usize) -> u64
    requires word { word < 2 ^ 32 }
    requires places { places < 2 ^ 32 }
    ensures { (i : ℕ) → i < 64 → (bit_of_word result i == 1) ≡ packed_bit words.now (64 * word + i + places) }
{
    let low = word_at(words, word + places / 64);
    let high = word_at(words, word + places / 64 + 1);
    joined(low, high, places % 64)
}

// The word of 64 bits from a place of two words on.
fn joined(low: u64, high: u64, place: usize) -> u64
    requires { place < 64 }
    ensures low { (i : ℕ) → i + place < 64 → bit_of_word result i ≡ bit_of_word low (i + place) }
    ensures high { (i : ℕ) → i < 64 → 64 ≤ i + place → bit_of_word result i ≡ bit_of_word high (i + place - 64) }
{
    if place == 0 {
        low
    } else {
        (low >> place) | (high << (64 - place))
    }
}
