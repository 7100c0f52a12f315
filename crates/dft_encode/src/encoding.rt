//! The patterns of merged cubes.

ghost use Rattle.std.specs.Prelude.{◌≡◌, ◌≤◌, List, None, [], length, IfOk, IfSome};
ghost use Rattle.dft_vectors.specs.Listing.{Lists};
ghost use Rattle.dft_vectors.specs.PatternData.{PatternData};
ghost use Rattle.dft_vectors.specs.VectorList.{last_of, patterns_of};
ghost use Rattle.dft_encode.specs.Encoding.{IsEncoded};
ghost use Rattle.dft_encode.specs.Finding.{FitsFound, HasPatterns, IsFinder, last_found};

use crate::filling::{Filled, fill};
use crate::finder::Finder;
use crate::found::Found;
use crate::settings::always_masked;
use dft_expect::Capturer;
use dft_merge::Closed;
use dft_netlist::Design;
use dft_patterns::PatternSet;
use dft_vectors::VectorList;
use std::alloc::{AllocError, Global};

/// Patterns in the signals of a scanned netlist.
pub struct Encoded {
    pub set: PatternSet,
    /// How many chains are masked, each once for each pattern.
    pub masked: u64,
}

// One call for all fields, so that the proof of what owns a value stays short.
impl Drop for Encoded {
    fn drop(self) {
        let Encoded { set: _, masked: _ } = self;
    }
}

// Adds all patterns to a list of vectors that has none.
fn fill_all(finder: &Finder<'_>, list: &mut VectorList<'_>) -> Result<Filled, AllocError>
    requires finder { IsFinder finder.now }
    requires list { list.old ≡ record { design = finder.now.loads.now.design; config = finder.now.loads.now.config; plan = finder.now.loads.now.plan; vectors = []; captures = [] } }
    ensures { IfOk result (λ filled. HasPatterns finder.now (length finder.now.merger.now.patterns) filled list.new) }
{
    let loads = finder.loads;
    let mut capturer = Capturer::prepare(finder.alloc, loads.planned())?;
    fill(finder, &mut capturer, list)
}

// The patterns of a list of vectors, behind the last of which nothing else comes.
fn finished(
    list: VectorList<'_>,
    written: &Design,
    last: &Option<Found>,
) -> Result<PatternSet, AllocError>
    requires last { IfSome last.now (FitsFound list.config list.plan) }
    ensures { IfOk result (λ set. (patterns : List PatternData) → Lists list.entry patterns → last_found list.entry.config list.entry.plan last.now ≡ last_of None patterns
        → set ≡ patterns_of written.now list.entry.design list.entry.config list.entry.plan patterns) }
{
    match last {
        None => list.finish(written, None),
        Some(last) => list.finish(written, Some(last.pattern())),
    }
}

// The patterns of all merged cubes.
fn patterns(finder: &Finder<'_>, written: &Design) -> Result<Encoded, AllocError>
    requires { IsFinder finder.now }
    ensures { IfOk result (IsEncoded written.now finder.now.loads.now.design finder.now.loads.now.config finder.now.loads.now.plan finder.now.merger.now.loads.rows finder.now.merger.now.patterns) }
{
    let loads = finder.loads;
    let mut list = VectorList::new(finder.alloc, loads.planned())?;
    let filled = fill_all(finder, &mut list)?;
    Ok(Encoded {
        set: finished(list, written, &filled.last)?,
        masked: filled.masked,
    })
}

/// The patterns of all merged cubes of a design, in the signals of its written netlist: their channel bits, what they capture, 512 at a time,
/// which chains are masked, and the vectors of all that.
pub fn encode(alloc: Global, merger: &Closed<'_>, written: &Design) -> Result<Encoded, AllocError>
    requires few { length merger.now.patterns ≤ 65536 }
    ensures { IfOk result (IsEncoded written.now merger.now.loads.design merger.now.loads.config merger.now.loads.plan merger.now.loads.rows merger.now.patterns) }
{
    let loads = merger.loads();
    loads.soundness();
    let always = always_masked(alloc, loads.config())?;
    let finder = Finder {
        alloc,
        loads,
        always: &always,
        merger,
    };
    patterns(&finder, written)
}
