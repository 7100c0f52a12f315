//! What is counted of a compilation.

ghost use Rattle.std.specs.Prelude.{◌≡◌, ◌≤◌, ◌+◌, length, count_by};
ghost use Rattle.dft_vectors.specs.VectorList.{captures_in};
ghost use Rattle.dft_encode.specs.Laws as laws;
ghost use Rattle.dft_compile.specs.Texts as spec;

use dft_cubes::Merged;
use dft_merge::Placed;

// How many cubes a pattern loads, no channel bits load, and are skipped.
#[derive(Clone, Copy, Debug, PartialEq, Eq)]
pub(crate) struct Fates {
    pub(crate) encoded: u32,
    pub(crate) unsolvable: u32,
    pub(crate) skipped: u32,
}

// Counts what became of cubes.
pub(crate) fn fates_of(placed: &[Placed]) -> Fates
    requires { length placed.now ≤ 65536 }
    ensures encoded { result.encoded ≡ count_by spec.is_encoded placed.now }
    ensures unsolvable { result.unsolvable ≡ count_by spec.is_unsolvable placed.now }
    ensures skipped { result.skipped ≡ count_by spec.is_skipped placed.now }
{
    let mut fates = Fates {
        encoded: 0,
        unsolvable: 0,
        skipped: 0,
    };
    for fate in placed {
        match fate {
            Placed::Into(_) => fates.encoded += 1,
            Placed::Unsolvable(_) => fates.unsolvable += 1,
            Placed::Skipped(_) => fates.skipped += 1,
        }
    }
    fates
}

// How many vectors patterns take.
pub(crate) fn vectors_in(cycles: u16, patterns: &[Merged]) -> u64
    requires cycles { cycles ≤ 4096 }
    requires patterns { length patterns.now ≤ 65536 }
    ensures { result ≡ laws.vectors_in cycles (captures_in patterns.now) }
{
    if patterns.is_empty() {
        return 0;
    }
    let mut vectors = 1 + u64::from(cycles);
    for pattern in 0..patterns.len() {
        let captures = patterns[pattern].domains.count();
        vectors += u64::from(cycles) + u64::from(captures);
    }
    vectors
}
