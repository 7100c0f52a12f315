//! Lists of numbers as the values of a table hold them.

ghost use Rattle.std.specs.Prelude.{◌≡◌, ◌≤◌, IfSome, IfOk, IfErr, Ok, Err, Some, None};
ghost use Rattle.toml.specs.View.{view, array_view};
ghost use Rattle.dft_config_text.specs.Faults.{IsFault};
ghost use Rattle.dft_config_text.specs.Settings as spec;

use crate::fault::{Fault, Key};
use dft_base::Listed;
use std::alloc::{AllocError, Global};
use toml::Value;
use toml::value::Array;

/// Two numbers of a list.
#[derive(Clone, Copy, Debug, PartialEq, Eq)]
pub struct Pair {
    pub first: i64,
    pub second: i64,
}

/// The number of a text, where it is between two bounds.
pub fn bounded(low: u64, high: u64, number: i64) -> Option<u64>
    ensures value { result ≡ spec.bounded low high number }
    ensures bounds { IfSome result (λ n. (low ≤ n) × (n ≤ high)) }
{
    match u64::try_from(number) {
        Ok(n) => if low <= n && n <= high { Some(n) } else { None },
        Err(_) => None,
    }
}

/// The number of a text, where it is below a bound.
pub fn bounded_below(bound: u16, number: i64) -> Option<u16>
    ensures { result ≡ spec.bounded_below bound number }
{
    match u16::try_from(number) {
        Ok(n) => if n < bound { Some(n) } else { None },
        Err(_) => None,
    }
}

fn below(key: Key, bound: u16, number: i64) -> Result<u16, Fault>
    ensures { result ≡ spec.below key bound number }
{
    match bounded_below(bound, number) {
        Some(n) => Ok(n),
        None => Err(Fault::Outside(key, number)),
    }
}

/// The numbers of a list, each below the bound.
pub fn all_below(alloc: Global, key: Key, bound: u16, numbers: &[i64]) -> Result<Listed<u16>, Fault>
    ensures ok { IfOk result (λ list. spec.all_below key bound numbers.now ≡ Ok list) }
    ensures refused { IfErr result (λ e. IsFault e → spec.all_below key bound numbers.now ≡ Err e) }
{
    let mut list = Vec::new(alloc);
    for number in numbers {
        list.push(below(key, bound, *number)?)?;
    }
    Ok(Listed::from_vec(list))
}

/// A number of a list, below a small bound.
pub fn small_below(key: Key, bound: u8, number: i64) -> Result<u8, Fault>
    ensures { result ≡ spec.below key bound number }
{
    match u8::try_from(number) {
        Ok(n) => if n < bound {
            Ok(n)
        } else {
            Err(Fault::Outside(key, number))
        },
        Err(_) => Err(Fault::Outside(key, number)),
    }
}

fn small_all_below(alloc: Global, key: Key, bound: u8, numbers: &[i64]) -> Result<Listed<u8>, Fault>
    ensures ok { IfOk result (λ list. spec.all_below key bound numbers.now ≡ Ok list) }
    ensures refused { IfErr result (λ e. IsFault e → spec.all_below key bound numbers.now ≡ Err e) }
{
    let mut list = Vec::new(alloc);
    for number in numbers {
        list.push(small_below(key, bound, *number)?)?;
    }
    Ok(Listed::from_vec(list))
}

/// The lists of numbers, each number below the small bound.
pub fn small_lists_below(
    alloc: Global,
    key: Key,
    bound: u8,
    lists: &[Listed<i64>],
) -> Result<Listed<Listed<u8>>, Fault>
    ensures ok { IfOk result (λ found. spec.lists_below key bound lists.now ≡ Ok found) }
    ensures refused { IfErr result (λ e. IsFault e → spec.lists_below key bound lists.now ≡ Err e) }
{
    let mut found = Vec::new(alloc);
    for list in lists {
        found.push(small_all_below(alloc, key, bound, list.as_slice())?)?;
    }
    Ok(Listed::from_vec(found))
}

/// The lists of numbers, each number below the bound.
pub fn lists_below(
    alloc: Global,
    key: Key,
    bound: u16,
    lists: &[Listed<i64>],
) -> Result<Listed<Listed<u16>>, Fault>
    ensures ok { IfOk result (λ found. spec.lists_below key bound lists.now ≡ Ok found) }
    ensures refused { IfErr result (λ e. IsFault e → spec.lists_below key bound lists.now ≡ Err e) }
{
    let mut found = Vec::new(alloc);
    for list in lists {
        found.push(all_below(alloc, key, bound, list.as_slice())?)?;
    }
    Ok(Listed::from_vec(found))
}

fn integers_in(alloc: Global, items: &Array) -> Result<Option<Listed<i64>>, AllocError>
    ensures { IfOk result (λ found. found ≡ spec.integers_in (array_view items.now)) }
{
    let mut list = Vec::new(alloc);
    for item in items {
        match item.as_integer() {
            Some(number) => list.push(number)?,
            None => return Ok(None),
        }
    }
    Ok(Some(Listed::from_vec(list)))
}

/// The numbers of a value that is a list of numbers.
pub fn integers_of(alloc: Global, value: &Value) -> Result<Option<Listed<i64>>, AllocError>
    ensures { IfOk result (λ found. found ≡ spec.integers_of (view value.now)) }
{
    match value.as_array() {
        Some(items) => integers_in(alloc, items),
        None => Ok(None),
    }
}

fn lists_in(alloc: Global, items: &Array) -> Result<Option<Listed<Listed<i64>>>, AllocError>
    ensures { IfOk result (λ found. found ≡ spec.lists_in (array_view items.now)) }
{
    let mut lists = Vec::new(alloc);
    for item in items {
        match integers_of(alloc, item)? {
            Some(list) => lists.push(list)?,
            None => return Ok(None),
        }
    }
    Ok(Some(Listed::from_vec(lists)))
}

/// The lists of a value that is a list of lists of numbers.
pub fn lists_of(alloc: Global, value: &Value) -> Result<Option<Listed<Listed<i64>>>, AllocError>
    ensures { IfOk result (λ found. found ≡ spec.lists_of (view value.now)) }
{
    match value.as_array() {
        Some(items) => lists_in(alloc, items),
        None => Ok(None),
    }
}

fn pair_of(numbers: &[i64]) -> Option<Pair>
    ensures { result ≡ spec.pair_of numbers.now }
{
    if numbers.len() == 2 {
        Some(Pair {
            first: numbers[0],
            second: numbers[1],
        })
    } else {
        None
    }
}

/// Lists of two numbers as pairs, where each list is one.
pub fn pairs_of(alloc: Global, lists: &[Listed<i64>]) -> Result<Option<Listed<Pair>>, AllocError>
    ensures { IfOk result (λ found. found ≡ spec.pairs_of lists.now) }
{
    let mut pairs = Vec::new(alloc);
    for list in lists {
        match pair_of(list.as_slice()) {
            Some(pair) => pairs.push(pair)?,
            None => return Ok(None),
        }
    }
    Ok(Some(Listed::from_vec(pairs)))
}
