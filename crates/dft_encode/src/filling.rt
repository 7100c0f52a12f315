//! The vectors of all patterns.

ghost use Rattle.std.specs.Prelude.{ℕ, ◌≡◌, ◌+◌, ◌<◌, ◌≤◌, ◌++◌, ◌∷◌, [], List, None, Some, length, count_by, slice_get, IfOk, IfSome, OnOk};
ghost use Rattle.dft_cubes.specs.declared.cube.Merged.{Merged};
ghost use Rattle.dft_cubes.specs.Domains.{captures_of};
ghost use Rattle.dft_expect.specs.Captures.{IsCapture};
ghost use Rattle.dft_vectors.specs.Listing.{Lists};
ghost use Rattle.dft_vectors.specs.PatternData.{PatternData};
ghost use Rattle.dft_vectors.specs.VectorList.{last_of};
ghost use Rattle.dft_encode.specs.Counts.{is_set};
ghost use Rattle.dft_encode.specs.Finding.{AreLoads, Captured, FitsFound, HasPatterns, IsFinder, IsLoad, data_found, last_found};

use crate::captures::captures;
use crate::finder::Finder;
use crate::found::{Found, find};
use crate::loads::{Load, loads};
use dft_expect::{Capturer, Response};
use dft_vectors::VectorList;
use std::alloc::AllocError;

// So many patterns are captured at once.
const GROUP: usize = 512;

// What was found of the last pattern, and how many chains are masked, each once for each pattern.
#[derive(Debug)]
pub(crate) struct Filled {
    pub(crate) last: Option<Found>,
    pub(crate) masked: u64,
}

// One call for all fields, so that the proof of what owns a value stays short.
impl Drop for Filled {
    fn drop(self) {
        let Filled { last: _, masked: _ } = self;
    }
}

// How many chains are masked.
fn masked(masks: &[bool]) -> usize
    ensures value { result ≡ count_by is_set masks.now }
    ensures few { result ≤ length masks.now }
{
    masks.iter().filter(|bit| **bit).count()
}

// Adds a pattern to a list of vectors, behind the one before it.
fn add(list: &mut VectorList<'_>, last: &Option<Found>, found: &Found) -> Result<(), AllocError>
    requires few { length list.old.captures < 65536 }
    requires last { IfSome last.now (FitsFound list.old.config list.old.plan) }
    requires found { FitsFound list.old.config list.old.plan found.now }
    ensures same { OnOk result (list.new ≡ record list.old { vectors = list.new.vectors; captures = list.old.captures ++ captures_of found.now.merged ∷ [] }) }
    ensures added { OnOk result ((patterns : List PatternData) → Lists list.old patterns → last_found list.old.config list.old.plan last.now ≡ last_of None patterns
        → Lists list.new (patterns ++ data_found list.old.config list.old.plan found.now ∷ [])) }
{
    match last {
        None => list.add(None, found.pattern()),
        Some(last) => list.add(Some(last.pattern()), found.pattern()),
    }
}

// Adds the pattern of this number, which is the next one.
fn step(
    finder: &Finder<'_>,
    list: &mut VectorList<'_>,
    filled: &mut Filled,
    number: usize,
    load: &Load,
    response: &Response,
) -> Result<(), AllocError>
    requires finder { IsFinder finder.now }
    requires number { number < length finder.now.merger.now.patterns }
    requires load { IsLoad finder.now number load.now }
    requires captured { (merged : Merged) → slice_get finder.now.merger.now.patterns number ≡ Some merged →
        IsCapture finder.now.loads.now.design finder.now.loads.now.config finder.now.loads.now.plan.chains merged load.now.cells response.now }
    requires before { HasPatterns finder.now number filled.old list.old }
    ensures { OnOk result (HasPatterns finder.now (number + 1) filled.new list.new) }
{
    let found = find(finder, number, load, response)?;
    add(list, &filled.last, &found)?;
    filled.masked += masked(found.masks.as_slice()) as u64;
    filled.last = Some(found);
    Ok(())
}

// Adds the patterns from this number on, with these loads and responses.
fn steps(
    finder: &Finder<'_>,
    list: &mut VectorList<'_>,
    filled: &mut Filled,
    first: usize,
    loads: &[Load],
    responses: &[Response],
) -> Result<(), AllocError>
    requires finder { IsFinder finder.now }
    requires count { first + length loads.now ≤ length finder.now.merger.now.patterns }
    requires loads { AreLoads finder.now first loads.now }
    requires captured { Captured finder.now first loads.now responses.now }
    requires before { HasPatterns finder.now first filled.old list.old }
    ensures { OnOk result (HasPatterns finder.now (first + length loads.now) filled.new list.new) }
{
    for k in 0..loads.len() {
        step(finder, list, filled, first + k, &loads[k], &responses[k])?;
    }
    Ok(())
}

// Adds the next patterns, so many, which are captured at once.
fn group(
    finder: &Finder<'_>,
    capturer: &mut Capturer<'_>,
    list: &mut VectorList<'_>,
    filled: &mut Filled,
    first: usize,
    count: usize,
) -> Result<(), AllocError>
    requires finder { IsFinder finder.now }
    requires capturer { capturer.old ≡ record { design = finder.now.loads.now.design; config = finder.now.loads.now.config } }
    requires few { count ≤ 512 }
    requires count { first + count ≤ length finder.now.merger.now.patterns }
    requires before { HasPatterns finder.now first filled.old list.old }
    ensures same { capturer.new ≡ capturer.old }
    ensures after { OnOk result (HasPatterns finder.now (first + count) filled.new list.new) }
{
    let loads = loads(finder, first, count)?;
    let responses = captures(finder, capturer, first, &loads)?;
    steps(finder, list, filled, first, &loads, &responses)
}

// Adds all patterns to a list of vectors that has none.
pub(crate) fn fill(
    finder: &Finder<'_>,
    capturer: &mut Capturer<'_>,
    list: &mut VectorList<'_>,
) -> Result<Filled, AllocError>
    requires finder { IsFinder finder.now }
    requires capturer { capturer.old ≡ record { design = finder.now.loads.now.design; config = finder.now.loads.now.config } }
    requires list { list.old ≡ record { design = finder.now.loads.now.design; config = finder.now.loads.now.config; plan = finder.now.loads.now.plan; vectors = []; captures = [] } }
    ensures { IfOk result (λ filled. HasPatterns finder.now (length finder.now.merger.now.patterns) filled list.new) }
{
    let mut filled = Filled {
        last: None,
        masked: 0,
    };
    let all = finder.merger.patterns().len();
    let mut first = 0;
    while first < all {
        let count = (all - first).min(GROUP);
        group(finder, capturer, list, &mut filled, first, count)?;
        first += count;
    }
    Ok(filled)
}
