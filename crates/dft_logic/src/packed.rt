//! Lists of numbers by place, packed one behind the other.

ghost use Rattle.std.specs.Prelude.{◌≡◌, ◌∷◌, [], ◌<◌, ◌≤◌, length, slice_index_or, IfOk};
ghost use Rattle.dft_logic.specs.Packed.{lists_from, AreEnds};

use crate::circuit::Numbers;
use std::alloc::{AllocError, Global};
use std::marker::Model;

/// A list of numbers for each place, packed one behind the other. A clause sees the list of these lists.
pub struct Table {
    // Where the list of each place ends.
    ends: Vec<u32>,
    numbers: Vec<u32>,
}

// One call for all fields, so that the proof of what owns a value stays short.
impl Drop for Table {
    fn drop(self) {
        let Table {
            ends: _,
            numbers: _,
        } = self;
    }
}

impl Model for Table {
    ghost use Rattle.std.specs.Prelude.{ℕ, List};

    ghost Value = { List (List ℕ) };

    ghost use Rattle.dft_logic.specs.Packed.{lists_of, IsPacked};

    ghost view = { lists_of };

    ghost invariant = { IsPacked };
}

// A count as a word of 32 bits. So many things as no such word counts take more memory than there is.
pub(crate) fn word_of(count: usize) -> Result<u32, AllocError>
    ensures { IfOk result (λ word. word ≡ count) }
{
    match u32::try_from(count) {
        Ok(word) => Ok(word),
        Err(_past) => Err(AllocError),
    }
}

// Where the list of a place starts, which is where the one before it ends, and where it ends.
fn bounds_of(ends: &[u32], count: usize, place: usize) -> (usize, usize)
    requires ends { AreEnds 0 ends.now count }
    requires live { place < length ends.now }
    ensures start { result.0 ≡ slice_index_or (0 ∷ ends.now) place 0 }
    ensures end { result.1 ≡ slice_index_or ends.now place 0 }
    ensures order { result.0 ≤ result.1 }
    ensures within { result.1 ≤ count }
{
    let end = ends[place] as usize;
    if place == 0 {
        (0, end)
    } else {
        (ends[place - 1] as usize, end)
    }
}

// The list at a place.
fn list_in<'a>(ends: &[u32], numbers: &'a [u32], place: usize) -> &'a [u32]
    requires ends { AreEnds 0 ends.now (length numbers.now) }
    requires live { place < length ends.now }
    ensures { result.now ≡ slice_index_or (lists_from 0 ends.now numbers.now) place [] }
{
    let (start, end) = bounds_of(ends, numbers.len(), place);
    &numbers[start..end]
}

impl Table {
    // The list at a place, and none past the end.
    pub(crate) fn at(&self, place: usize) -> &[u32]
        ensures { result.now ≡ slice_index_or self.now place [] }
    {
        if place < self.ends.len() {
            list_in(&self.ends, &self.numbers, place)
        } else {
            &[]
        }
    }
}

// The table of these lists.
pub(crate) fn packed(alloc: Global, lists: &[Numbers]) -> Result<Table, AllocError>
    ensures { IfOk result (λ table. table ≡ lists.now) }
{
    let mut ends = Vec::with_capacity(alloc, lists.len())?;
    let mut numbers = Vec::new(alloc);
    for list in lists {
        numbers.extend_from_slice(list.as_slice())?;
        ends.push(word_of(numbers.len())?)?;
    }
    Ok(Table { ends, numbers })
}
