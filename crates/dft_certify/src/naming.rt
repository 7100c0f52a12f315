//! Cubes, found by their names.

ghost use Rattle.std.specs.Prelude.{IfOk};
ghost use Rattle.dft_numbered.specs.Numbers.{Finds};
ghost use Rattle.dft_certify.specs.Certifying.{cube_names};

use dft_cubes::Cube;
use dft_numbered::Numbered;
use std::alloc::{AllocError, Global};

// The cubes by their names.
pub(crate) fn cube_numbers<'a>(alloc: Global, cubes: &'a [Cube]) -> Result<Numbered<'a>, AllocError>
    ensures { IfOk result (λ numbers. Finds numbers (cube_names cubes.now)) }
{
    let mut numbers = Numbered::new(alloc);
    for (number, cube) in cubes.iter().enumerate() {
        numbers.put(cube.name.as_slice(), number)?;
    }
    Ok(numbers)
}
