//! What became of a cube.

ghost use Rattle.std.specs.Prelude.{◌≡◌, IfOk, OnOk, ◌++◌};
ghost use Rattle.std.specs.Option.{option_to_list};
ghost use Rattle.dft_cube_reports.specs.Outcomes as spec;
ghost use Rattle.dft_merge.specs.LoadPlan.{rows_by};

use crate::cell_sums::{name_of, sum_of};
use dft_base::Listed;
use dft_cubes::Cube;
use dft_merge::{Loads, Placed};
use dft_netlist::InstanceId;
use dft_report::{CubeLine, CubeReport, SumLine};
use std::alloc::{AllocError, Global};

// The sum of the cell at a position of a cube.
fn sum_at(
    alloc: Global,
    loads: &Loads<'_>,
    cells: &[(InstanceId, bool)],
    position: u32,
) -> Result<Option<SumLine>, AllocError>
    ensures { IfOk result (λ line. line ≡ spec.sum_at loads.now.design loads.now.config.ring (rows_by loads.now) cells.now position) }
{
    match cells.get(position as usize) {
        Some(given) => sum_of(alloc, loads, given.0, given.1),
        None => Ok(None),
    }
}

// The sums of the cells at these positions of a cube.
fn sums_of(
    alloc: Global,
    loads: &Loads<'_>,
    cells: &[(InstanceId, bool)],
    positions: &[u32],
) -> Result<Vec<SumLine>, AllocError>
    ensures { IfOk result (λ lines. lines.items ≡ spec.sums_of loads.now.design loads.now.config.ring (rows_by loads.now) cells.now positions.now) }
{
    let mut lines = Vec::new(alloc);
    for position in positions {
        let line = sum_at(alloc, loads, cells, *position)?;
        add(&mut lines, line)?;
    }
    Ok(lines)
}

// Adds an item, if there is one.
pub(crate) fn add<T: Drop>(items: &mut Vec<T>, item: Option<T>) -> Result<(), AllocError>
    ensures { OnOk result (items.new.items ≡ items.old.items ++ option_to_list item) }
{
    if let Some(item) = item {
        items.push(item)?;
    }
    Ok(())
}

fn outcome(
    alloc: Global,
    loads: &Loads<'_>,
    cube: &Cube,
    placed: &Placed,
) -> Result<Option<CubeLine>, AllocError>
    ensures { IfOk result (λ line. line ≡ spec.outcome_of loads.now.design loads.now.config.ring (rows_by loads.now) cube.now placed.now) }
{
    match placed {
        Placed::Into(pattern) => Ok(Some(CubeLine::Encoded(*pattern))),
        Placed::Unsolvable(positions) => {
            let lines = sums_of(alloc, loads, cube.cells.as_slice(), positions.as_slice())?;
            Ok(Some(CubeLine::Unsolvable(Listed::from_vec(lines))))
        }
        Placed::Skipped(cell) => Ok(name_of(alloc, loads.design(), *cell)?.map(CubeLine::Skipped)),
    }
}

// What became of a cube, under its name.
pub(crate) fn cube_report(
    alloc: Global,
    loads: &Loads<'_>,
    cube: &Cube,
    placed: &Placed,
) -> Result<Option<CubeReport>, AllocError>
    ensures { IfOk result (λ report. report ≡ spec.cube_report loads.now.design loads.now.config.ring (rows_by loads.now) cube.now placed.now) }
{
    let Some(outcome) = outcome(alloc, loads, cube, placed)? else {
        return Ok(None);
    };
    let name = cube.name.copy(alloc)?;
    Ok(Some(CubeReport { name, outcome }))
}
