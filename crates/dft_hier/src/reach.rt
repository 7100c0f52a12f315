//! The first module that stands below itself.

ghost use Rattle.std.specs.Prelude.{◌≡◌, ◌<◌, ◌≤◌, ℕ, [], true, false, length, replicate, slice_get, slice_index_or, IfOk, IfSome, OnOk};
ghost use Rattle.dft_hier.specs.Reach.{AreBelow, AreWithin, HasCircle, IsFirstOnCircle, Leads, NeverFalls, StandsIn, HasOwn};
ghost use Rattle.dft_hier.specs.Searches.{added, found, found_all};

use crate::children::Children;
use crate::components::components;
use std::alloc::{AllocError, Global};
use std::marker::Model;

// The modules that were met on a search, each once, in the order in which they were met.
#[derive(Debug)]
struct Search {
    met: Vec<bool>,
    ahead: Vec<usize>,
}

// One call for all fields, so that the proof of what owns a value stays short.
impl Drop for Search {
    fn drop(self) {
        let Search { met: _, ahead: _ } = self;
    }
}

impl Model for Search {
    ghost use Rattle.dft_hier.specs.Searches.{Met};

    ghost Value = { Met };

    ghost use Rattle.dft_hier.specs.SearchShown.{met_of};

    ghost view = { met_of };
}

impl Search {
    // No module of so many was met.
    fn new(alloc: Global, count: usize) -> Result<Search, AllocError>
        ensures { IfOk result (λ search. search ≡ record { met = replicate count false; ahead = [] }) }
    {
        let met = vec![in alloc; false; count]?;
        Ok(Search {
            met,
            ahead: Vec::new(alloc),
        })
    }

    // Whether a module was met.
    fn has_met(&self, number: usize) -> bool
        requires { number < length self.now.met }
        ensures { result ≡ slice_index_or self.now.met number false }
    {
        self.met[number]
    }

    // The module that was met at this place.
    fn at(&self, place: usize) -> Option<usize>
        ensures { result ≡ slice_get self.now.ahead place }
    {
        self.ahead.get(place).copied()
    }

    // Puts a module behind those before.
    fn add(&mut self, number: usize) -> Result<(), AllocError>
        requires { number < length self.old.met }
        ensures { OnOk result (self.new ≡ added self.old number) }
    {
        self.met[number] = true;
        self.ahead.push(number)?;
        Ok(())
    }

    // Meets a module.
    fn meet(&mut self, number: usize) -> Result<(), AllocError>
        requires { number < length self.old.met }
        ensures { OnOk result (self.new ≡ found self.old number) }
    {
        if !self.has_met(number) {
            self.add(number)?;
        }
        Ok(())
    }

    // Meets all of these.
    fn meet_all(&mut self, numbers: &[usize]) -> Result<(), AllocError>
        requires { AreBelow (length self.old.met) numbers.now }
        ensures { OnOk result (self.new ≡ found_all self.old numbers.now) }
    {
        for number in numbers {
            self.meet(*number)?;
        }
        Ok(())
    }
}

// Whether a module stands below itself.
fn is_in_itself(alloc: Global, children: &[Children], number: usize) -> Result<bool, AllocError>
    requires live { number < length children.now }
    requires within { AreWithin (length children.now) children.now }
    ensures yes { IfOk result (λ is. is ≡ true → Leads children.now number number) }
    ensures no { IfOk result (λ is. is ≡ false → Leads children.now number number → ⊥) }
{
    let mut search = Search::new(alloc, children.len())?;
    search.meet_all(children[number].as_slice())?;
    for place in 0..children.len() {
        match search.at(place) {
            Some(next) => search.meet_all(children[next].as_slice())?,
            None => return Ok(search.has_met(number)),
        }
    }
    Ok(search.has_met(number))
}

// Whether one of these modules has a lower number than this.
fn has_lower(numbers: &[usize], number: usize, children: &[usize]) -> bool
    requires { AreBelow (length numbers.now) children.now }
    ensures { result ≡ false → (child : ℕ) → StandsIn children.now child → number ≤ slice_index_or numbers.now child 0 }
{
    for child in children {
        if numbers[*child] < number {
            return true;
        }
    }
    false
}

// Whether one of these modules has this number.
fn has_own(numbers: &[usize], number: usize, children: &[usize]) -> bool
    requires { AreBelow (length numbers.now) children.now }
    ensures { result ≡ false → (child : ℕ) → StandsIn children.now child → number ≡ slice_index_or numbers.now child 0 → ⊥ }
{
    for child in children {
        if numbers[*child] == number {
            return true;
        }
    }
    false
}

// Whether no module has a higher number than those of its instances.
fn never_falls(numbers: &[usize], children: &[Children]) -> bool
    requires count { length numbers.now ≡ length children.now }
    requires within { AreWithin (length children.now) children.now }
    ensures { result ≡ true → NeverFalls children.now numbers.now }
{
    for (number, one) in children.iter().enumerate() {
        if has_lower(numbers, numbers[number], one.as_slice()) {
            return false;
        }
    }
    true
}

// The first module that has an instance of a module of its own number.
fn first_with_own(numbers: &[usize], children: &[Children]) -> Option<usize>
    requires count { length numbers.now ≡ length children.now }
    requires within { AreWithin (length children.now) children.now }
    ensures live { IfSome result (λ first. first < length children.now) }
    ensures first { IfSome result (λ first. (number : ℕ) → number < first → HasOwn children.now numbers.now number → ⊥) }
{
    for (number, one) in children.iter().enumerate() {
        if has_own(numbers, numbers[number], one.as_slice()) {
            return Some(number);
        }
    }
    None
}

// The first module that stands below itself, by a search from each.
fn first_by_search(alloc: Global, children: &[Children]) -> Result<usize, AllocError>
    requires within { AreWithin (length children.now) children.now }
    requires circle { HasCircle children.now }
    ensures { IfOk result (λ first. IsFirstOnCircle children.now first) }
{
    for number in 0..children.len() {
        if is_in_itself(alloc, children, number)? {
            return Ok(number);
        }
    }
    unreachable!()
}

// The first module that has an instance of a module of its own number, where the numbers show that it is the first below
// itself: no module has a higher number than those of its instances, so those before it have higher ones below them alone.
fn first_by_numbers(
    alloc: Global,
    numbers: &[usize],
    children: &[Children],
) -> Result<Option<usize>, AllocError>
    requires count { length numbers.now ≡ length children.now }
    requires within { AreWithin (length children.now) children.now }
    ensures { IfOk result (λ found. IfSome found (λ first. IsFirstOnCircle children.now first)) }
{
    if !never_falls(numbers, children) {
        return Ok(None);
    }
    match first_with_own(numbers, children) {
        Some(number) => {
            if is_in_itself(alloc, children, number)? {
                Ok(Some(number))
            } else {
                Ok(None)
            }
        }
        None => Ok(None),
    }
}

/// The first module in the order of the text that stands below itself, for a walk that finished the modules in this order. It
/// is found by numbers of components; where they do not show it, by a search.
pub fn first_in_itself(
    alloc: Global,
    children: &[Children],
    order: &[usize],
) -> Result<usize, AllocError>
    requires within { AreWithin (length children.now) children.now }
    requires order { AreBelow (length children.now) order.now }
    requires circle { HasCircle children.now }
    ensures { IfOk result (λ first. IsFirstOnCircle children.now first) }
{
    let numbers = components(alloc, children, order)?;
    match first_by_numbers(alloc, &numbers, children)? {
        Some(number) => Ok(number),
        None => first_by_search(alloc, children),
    }
}
