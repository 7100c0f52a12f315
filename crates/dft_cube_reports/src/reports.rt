//! What became of all cubes.

ghost use Rattle.std.specs.Prelude.{◌≡◌, ◌+◌, IfOk, length};
ghost use Rattle.dft_cube_reports.specs.Outcomes as spec;
ghost use Rattle.dft_cube_reports.specs.Lengths as lengths;
ghost use Rattle.dft_cube_reports.specs.Lengths.{option_length};
ghost use Rattle.dft_merge.specs.LoadPlan.{rows_by};

use crate::outcomes::{add, cube_report};
use dft_cubes::Cube;
use dft_merge::{Loads, Placed};
use dft_report::{CubeReport, cube_length};
use std::alloc::{AllocError, Global};

/// What became of the cubes, in their order.
pub fn cube_reports(
    alloc: Global,
    loads: &Loads<'_>,
    cubes: &[Cube],
    placed: &[Placed],
) -> Result<Vec<CubeReport>, AllocError>
    requires count { length placed.now ≡ length cubes.now }
    ensures { IfOk result (λ reports. reports.items ≡ spec.cube_reports loads.now.design loads.now.config.ring (rows_by loads.now) cubes.now placed.now) }
{
    let mut reports = Vec::new(alloc);
    for (place, cube) in cubes.iter().enumerate() {
        let report = cube_report(alloc, loads, cube, &placed[place])?;
        add(&mut reports, report)?;
    }
    Ok(reports)
}

// How many bytes the lines of a cube have.
fn length_of(
    alloc: Global,
    loads: &Loads<'_>,
    cube: &Cube,
    placed: &Placed,
) -> Result<u64, AllocError>
    ensures { IfOk result (λ bytes. bytes ≡ option_length (spec.cube_report loads.now.design loads.now.config.ring (rows_by loads.now) cube.now placed.now)) }
{
    match cube_report(alloc, loads, cube, placed)? {
        Some(report) => Ok(cube_length(alloc, &report)? as u64),
        None => Ok(0),
    }
}

/// How many bytes the lines of all cubes have. The lines of one cube at a time are made.
pub fn lines_length(
    alloc: Global,
    loads: &Loads<'_>,
    cubes: &[Cube],
    placed: &[Placed],
) -> Result<u64, AllocError>
    requires count { length placed.now ≡ length cubes.now }
    ensures { IfOk result (λ bytes. bytes ≡ lengths.lines_length (spec.cube_reports loads.now.design loads.now.config.ring (rows_by loads.now) cubes.now placed.now)) }
{
    let mut bytes: u64 = 0;
    for (place, cube) in cubes.iter().enumerate() {
        let more = length_of(alloc, loads, cube, &placed[place])?;
        bytes = bytes.checked_add(more).ok_or(AllocError)?;
    }
    Ok(bytes)
}
