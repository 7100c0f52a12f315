//! The placement of all cubes.

ghost use Rattle.std.specs.Prelude.{◌≡◌, ◌+◌, ◌<◌, ◌≤◌, ◌^◌, length, IfOk, OnOk};
ghost use Rattle.std.specs.List.{All};
ghost use Rattle.dft_merge.specs.Merging.{columns_in, rows_in};
ghost use Rattle.dft_merge.specs.Placement.{PlacesAll};
ghost use Rattle.dft_encode.specs.Named.{AreCubesNamed};

use dft_cubes::Cube;
use dft_merge::{Merger, Placed};
use std::alloc::{AllocError, Global};

/// Places cubes one after another, and tells what became of each. Their names are names.
pub fn place_all(
    alloc: Global,
    merger: &mut Merger<'_>,
    cubes: &[Cube],
) -> Result<Vec<Placed>, AllocError>
    requires cells { All (λ cube. length cube.cells < 2 ^ 32) cubes.now }
    requires patterns { length merger.old.patterns + length cubes.now ≤ 65536 }
    ensures placed { IfOk result (λ placed. PlacesAll (columns_in merger.old) (rows_in merger.old) merger.old.window merger.old.patterns cubes.now placed.items merger.new.patterns) }
    ensures same { OnOk result (merger.new ≡ record merger.old { patterns = merger.new.patterns }) }
    ensures few { OnOk result (length merger.new.patterns ≤ length merger.old.patterns + length cubes.now) }
    ensures named { IfOk result (λ placed. AreCubesNamed cubes.now) }
{
    let mut placed = Vec::with_capacity(alloc, cubes.len())?;
    for cube in cubes {
        cube.name.soundness();
        placed.push(merger.take(cube)?)?;
    }
    Ok(placed)
}
