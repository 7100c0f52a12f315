//! What patterns capture.

ghost use Rattle.std.specs.Prelude.{ℕ, ◌≡◌, ◌+◌, ◌≤◌, Some, length, slice_get, IfOk};
ghost use Rattle.dft_cubes.specs.declared.cube.Merged.{Merged};
ghost use Rattle.dft_expect.specs.Capturing.{AreCaptures};
ghost use Rattle.dft_expect.specs.declared.pattern.Pattern.{Pattern};
ghost use Rattle.dft_expect.specs.declared.response.Response.{Response};
ghost use Rattle.dft_encode.specs.Finding.{AreLoaded, Captured, IsFinder};
ghost use Rattle.dft_encode.specs.declared.loads.Load.{Load};

use crate::finder::Finder;
use crate::loads::Load;
use dft_cubes::Merged;
use dft_expect::{Capturer, Pattern, Response};
use std::alloc::{AllocError, Global};

// These patterns with their loads.
fn loaded<'a>(
    alloc: Global,
    merged: &'a [Merged],
    first: usize,
    loads: &'a [Load],
) -> Result<Vec<Pattern<'a>>, AllocError>
    requires { first + length loads.now ≤ length merged.now }
    ensures { IfOk result (λ patterns. AreLoaded merged.now first loads.now patterns.items) }
{
    let mut patterns = Vec::with_capacity(alloc, loads.len())?;
    for (k, load) in loads.iter().enumerate() {
        patterns.push(Pattern {
            merged: &merged[first + k],
            loaded: load.cells.as_slice(),
        })?;
    }
    Ok(patterns)
}

// What 512 patterns at most capture, from this number on, with these loads.
pub(crate) fn captures(
    finder: &Finder<'_>,
    capturer: &mut Capturer<'_>,
    first: usize,
    loads: &[Load],
) -> Result<Vec<Response>, AllocError>
    requires finder { IsFinder finder.now }
    requires capturer { capturer.old ≡ record { design = finder.now.loads.now.design; config = finder.now.loads.now.config } }
    requires few { length loads.now ≤ 512 }
    requires count { first + length loads.now ≤ length finder.now.merger.now.patterns }
    ensures same { capturer.new ≡ capturer.old }
    ensures captured { IfOk result (λ responses. Captured finder.now first loads.now responses.items) }
{
    let patterns = loaded(finder.alloc, finder.merger.patterns(), first, loads)?;
    capturer.capture_all(finder.alloc, &patterns)
}
