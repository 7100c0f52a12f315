ghost use Rattle.std.specs.Prelude.{◌≡◌, ◌<◌, ℕ, false, IfNone, IfSome, None, Some, length, slice_get, slice_index_or};
ghost use Rattle.dft_stitch.specs.Plans.{cell_at, falling_head};

use crate::cells::Cells;
use crate::places::{CellPlace, LockupPlace};
use dft_netlist::InstanceId;
use std::marker::Model;

/// Scan chains. A clause sees them as a record of lists.
#[derive(Debug)]
pub struct Chains {
    pub(crate) chains: Vec<Cells>,
    // Whether the first cell of each chain is falling.
    pub(crate) heads: Vec<bool>,
    pub(crate) lockups: Vec<LockupPlace>,
    // The place of each instance, by its number.
    pub(crate) places: Vec<Option<CellPlace>>,
    pub(crate) cycles: u16,
}

// One call for all fields, so that the proof of what owns a value stays short.
impl Drop for Chains {
    fn drop(self) {
        let Chains {
            chains: _,
            heads: _,
            lockups: _,
            places: _,
            cycles: _,
        } = self;
    }
}

impl Model for Chains {
    ghost use Rattle.dft_stitch.specs.Plans.{Plan};

    ghost Value = { Plan };

    ghost use Rattle.dft_stitch.specs.Shown.{AreChains, plan_in};

    ghost view = { plan_in };

    ghost invariant = { AreChains };
}

impl Chains {
    /// The cells of this chain, from the one nearest the scan input on.
    pub fn chain(&self, c: u16) -> &[InstanceId]
        requires { c < length self.now.chains }
        ensures { slice_get self.now.chains c ≡ Some result.now }
    {
        self.chains[usize::from(c)].as_slice()
    }

    /// Whether the first cell of this chain is falling; a chain that is not there has none.
    pub fn falling_head(&self, c: u16) -> bool
        ensures { result ≡ falling_head self.now c }
    {
        head_at(&self.heads, c)
    }

    /// How many chains there are.
    pub fn count(&self) -> u16
        ensures { result ≡ length self.now.chains }
    {
        self.chains.len() as u16
    }

    /// The shift cycles of a load.
    pub fn cycles(&self) -> u16
        ensures { result ≡ self.now.cycles }
    {
        self.cycles
    }

    /// Where this cell stands, if it is scanned.
    pub fn place_of(&self, cell: InstanceId) -> Option<CellPlace>
        ensures stands { IfSome result (λ at. cell_at self.now.chains at.chain at.place ≡ Some cell) }
        ensures nowhere { IfNone result ((chain place : ℕ) → cell_at self.now.chains chain place ≡ Some cell → ⊥) }
    {
        place_at(&self.places, cell)
    }

    /// The lock-ups between cells of one edge and different domains, chain by chain and by their places.
    pub fn lockups(&self) -> &[LockupPlace]
        ensures { result.now ≡ self.now.lockups }
    {
        &self.lockups
    }
}

// What the list has for this chain, and no past its end.
fn head_at(heads: &[bool], c: u16) -> bool
    ensures { result ≡ slice_index_or heads.now c false }
{
    match heads.get(usize::from(c)) {
        Some(head) => *head,
        None => false,
    }
}

// What the table has for this cell, and nothing past its end.
fn place_at(places: &[Option<CellPlace>], cell: InstanceId) -> Option<CellPlace>
    ensures { result ≡ slice_index_or places.now cell.0 None }
{
    match places.get(cell.0 as usize) {
        Some(place) => *place,
        None => None,
    }
}
