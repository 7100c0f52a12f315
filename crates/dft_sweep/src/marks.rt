//! Nets that are marked, and where in the order of a circuit they stand.

ghost use Rattle.std.specs.Prelude.{◌≡◌, ◌<◌, ◌≤◌, ◌-◌, ◌^◌, ℕ, List, length, slice_set, replicate, true, false, IfOk, MatchOption, if◌then◌else◌};
ghost use Rattle.std.specs.Int.{bit_at};
ghost use Rattle.dft_sweep.specs.Places.{AreBusy, ArePlaces, is_busy, place_at};
ghost use Rattle.dft_sweep.specs.Fields.{is_needed as are_needed};

use dft_lanes::put;
use dft_logic::Circuit;
use dft_netlist::NetId;
use std::alloc::{AllocError, Global};

// The places of a word.
const WORD: usize = 64;

/// Which nets are marked, by net, and at which places of the circuit's order a marked net may stand, as packed bits: at one past
/// the last word one may.
#[derive(Drop)]
pub struct Marks {
    pub marked: Vec<bool>,
    pub busy: Vec<u64>,
}

// The place of a net in the order, by the places of nets.
fn place_of(places: &[u32], net: NetId) -> usize
    ensures { result ≡ place_at places.now net.0 }
{
    match places.get(net.0 as usize) {
        Some(place) => *place as usize,
        None => 0,
    }
}

// Whether a net is needed.
pub(crate) fn is_needed(needed: &[bool], net: NetId) -> bool
    ensures { result ≡ are_needed needed.now net.0 }
{
    match needed.get(net.0 as usize) {
        Some(needed) => *needed,
        None => true,
    }
}

// From now on a marked net may stand at a place.
fn note(busy: &mut [u64], place: usize)
    ensures here { is_busy busy.new place ≡ true }
    ensures other { (p : ℕ) → is_busy busy.old p ≡ true → is_busy busy.new p ≡ true }
{
    if place / WORD < busy.len() {
        put(busy, place, true);
    }
}

// No marked net stands anywhere.
pub(crate) fn rest(busy: &mut [u64]) {
    for word in busy.iter_mut() {
        *word = 0;
    }
}

// The first place of a word from this one on whose bit is 1.
fn ahead(word: u64, from: usize) -> Option<usize>
    requires { from < 64 }
    ensures { MatchOption result ((i : ℕ) → from ≤ i → i < 64 → bit_at word i ≡ 0) (λ i. (from ≤ i) × (i < 64) × ((k : ℕ) → from ≤ k → k < i → bit_at word k ≡ 0)) }
{
    let rest = word & (u64::MAX << from);
    if rest == 0 {
        None
    } else {
        Some(rest.trailing_zeros() as usize)
    }
}

// The first place from this one on at which a marked net may stand, or one past the end.
pub(crate) fn next_busy(busy: &[u64], from: usize, end: usize) -> usize
    requires { end < 2 ^ 62 }
    ensures low { from ≤ result }
    ensures idle { (p : ℕ) → from ≤ p → p < result → is_busy busy.now p ≡ false }
{
    let mut at = from;
    for word in from / WORD..busy.len().min(end / WORD + 1) {
        if let Some(place) = ahead(busy[word], at % WORD) {
            return word * WORD + place;
        }
        at = word * WORD + WORD;
    }
    at
}

// So many flags, all up or all down.
fn flags(alloc: Global, count: usize, up: bool) -> Result<Vec<bool>, AllocError>
    ensures { IfOk result (λ flags. flags.items ≡ replicate count up) }
{
    vec![in alloc; up; count]
}

// So many words, of ones or of zeros.
fn words(alloc: Global, count: usize, up: bool) -> Result<Vec<u64>, AllocError>
    ensures { IfOk result (λ words. words.items ≡ replicate count (if up then 2 ^ 64 - 1 else 0)) }
{
    let word = if up { u64::MAX } else { 0 };
    vec![in alloc; word; count]
}

// So many places 0.
fn zeros(alloc: Global, count: usize) -> Result<Vec<u32>, AllocError>
    ensures { IfOk result (λ places. places.items ≡ replicate count 0) }
{
    vec![in alloc; 0; count]
}

impl Marks {
    /// Marks for so many nets, all of which are marked or none.
    pub fn new(alloc: Global, count: usize, marked: bool) -> Result<Marks, AllocError>
        ensures marked { IfOk result (λ marks. marks.marked.items ≡ replicate count marked) }
        ensures busy { IfOk result (λ marks. (places : List ℕ) → AreBusy places marks) }
    {
        Ok(Marks {
            marked: flags(alloc, count, marked)?,
            busy: words(alloc, count / WORD + 1, marked)?,
        })
    }

    // Marks a net, by the places of nets.
    fn raise(&mut self, places: &[u32], net: NetId)
        requires { net.0 < length self.old.marked.items }
        ensures marked { self.new.marked.items ≡ slice_set self.old.marked.items net.0 true }
        ensures busy { AreBusy places.now self.old → AreBusy places.now self.new }
    {
        self.marked[net.0 as usize] = true;
        note(&mut self.busy, place_of(places, net));
    }

    /// Marks a net, if it is needed, by the places of nets.
    pub fn mark(&mut self, places: &[u32], needed: &[bool], net: NetId)
        requires { net.0 < length self.old.marked.items }
        ensures marked { self.new.marked.items ≡ (if are_needed needed.now net.0 then slice_set self.old.marked.items net.0 true else self.old.marked.items) }
        ensures busy { AreBusy places.now self.old → AreBusy places.now self.new }
    {
        if is_needed(needed, net) {
            self.raise(places, net);
        }
    }
}

/// The place of each net in a circuit's order, by net.
pub fn places(alloc: Global, circuit: &Circuit) -> Result<Vec<u32>, AllocError>
    requires few { length circuit.now.ops < 2 ^ 32 }
    ensures { IfOk result (λ places. ArePlaces circuit.now places.items) }
{
    let mut places = zeros(alloc, circuit.ops.len())?;
    for place in 0..circuit.order.len() {
        places[circuit.order[place].0 as usize] = place as u32;
    }
    Ok(places)
}
