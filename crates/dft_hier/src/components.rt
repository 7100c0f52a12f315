//! Modules that stand below each other, by a number that they share. No module has a higher number than those of its
//! instances.

ghost use Rattle.std.specs.Prelude.{◌≡◌, ◌<◌, length, IfOk, OnOk};
ghost use Rattle.dft_hier.specs.Reach.{AreBelow, AreWithin};

use crate::children::Children;
use std::alloc::{AllocError, Global};

// No module's instances yet.
fn no_parents(alloc: Global, count: usize) -> Result<Vec<Children>, AllocError>
    ensures count { IfOk result (λ parents. length parents.items ≡ count) }
    ensures within { IfOk result (λ parents. AreWithin count parents.items) }
{
    let mut parents = Vec::with_capacity(alloc, count)?;
    for _number in 0..count {
        parents
            .push(Children::new(alloc))
            .map_err(AllocError::from)?;
    }
    Ok(parents)
}

// A module has these instances.
fn add_parent(parents: &mut [Children], number: usize, children: &[usize]) -> Result<(), AllocError>
    requires live { number < length parents.old }
    requires below { AreBelow (length parents.old) children.now }
    requires within { AreWithin (length parents.old) parents.old }
    ensures { OnOk result (AreWithin (length parents.old) parents.new) }
{
    for child in children {
        parents[*child].push(number)?;
    }
    Ok(())
}

// Which modules have instances of each.
fn all_parents(alloc: Global, children: &[Children]) -> Result<Vec<Children>, AllocError>
    requires { AreWithin (length children.now) children.now }
    ensures count { IfOk result (λ parents. length parents.items ≡ length children.now) }
    ensures within { IfOk result (λ parents. AreWithin (length children.now) parents.items) }
{
    let mut parents = no_parents(alloc, children.len())?;
    for (number, one) in children.iter().enumerate() {
        add_parent(&mut parents, number, one.as_slice())?;
    }
    Ok(parents)
}

// Gives this number to the modules among these that have none, and puts them behind those before.
fn number_parents(
    numbers: &mut [Option<usize>],
    ahead: &mut Vec<usize>,
    parents: &[usize],
    number: usize,
) -> Result<(), AllocError>
    requires below { AreBelow (length numbers.old) parents.now }
    requires ahead { AreBelow (length numbers.old) ahead.old.items }
    ensures { OnOk result (AreBelow (length numbers.old) ahead.new.items) }
{
    for parent in parents {
        if numbers[*parent].is_none() {
            numbers[*parent] = Some(number);
            ahead.push(*parent)?;
        }
    }
    Ok(())
}

// Gives this number to a module and to all above it that have none.
fn number_all(
    alloc: Global,
    numbers: &mut [Option<usize>],
    parents: &[Children],
    from: usize,
    number: usize,
) -> Result<(), AllocError>
    requires live { from < length parents.now }
    requires count { length numbers.old ≡ length parents.now }
    requires within { AreWithin (length parents.now) parents.now }
{
    numbers[from] = Some(number);
    let mut ahead = Vec::new(alloc);
    ahead.push(from)?;
    for place in 0..parents.len() {
        match ahead.get(place).copied() {
            Some(next) => number_parents(numbers, &mut ahead, parents[next].as_slice(), number)?,
            None => return Ok(()),
        }
    }
    Ok(())
}

// The numbers that were given, or 0.
fn given(alloc: Global, numbers: &[Option<usize>]) -> Result<Vec<usize>, AllocError>
    ensures { IfOk result (λ given. length given.items ≡ length numbers.now) }
{
    let mut given = Vec::with_capacity(alloc, numbers.len())?;
    for number in numbers {
        given
            .push((*number).unwrap_or(0))
            .map_err(AllocError::from)?;
    }
    Ok(given)
}

/// A number for each module, the same for modules that stand below each other, for a walk that finished the modules in this
/// order: from the last that was finished on, each gets a number with all above it that have none.
pub fn components(
    alloc: Global,
    children: &[Children],
    order: &[usize],
) -> Result<Vec<usize>, AllocError>
    requires within { AreWithin (length children.now) children.now }
    requires order { AreBelow (length children.now) order.now }
    ensures { IfOk result (λ numbers. length numbers.items ≡ length children.now) }
{
    let parents = all_parents(alloc, children)?;
    let mut numbers = vec![in alloc; None; children.len()]?;
    for place in (0..order.len()).rev() {
        let from = order[place];
        if numbers[from].is_none() {
            number_all(alloc, &mut numbers, &parents, from, order.len() - place)?;
        }
    }
    given(alloc, &numbers)
}
