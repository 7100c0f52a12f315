//! The lines of cubes.

ghost use Rattle.std.specs.Prelude.{◌≡◌, ◌++◌, IfOk, OnOk, flat_map, length};
ghost use Rattle.dft_report.specs.Written as form;

use crate::numbers::add_number;
use crate::report::{CubeLine, CubeReport, SumLine, Variable};
use std::alloc::{AllocError, Global};

fn bit_text(bit: bool) -> &'static [u8]
    ensures { result.now ≡ form.bit_text bit }
{
    if bit { b" 1" } else { b" 0" }
}

// Adds variables, with a blank before each.
fn add_each(out: &mut Vec<u8>, variables: &[Variable]) -> Result<(), AllocError>
    ensures { OnOk result (out.new.items ≡ out.old.items ++ flat_map form.variable_text variables.now) }
{
    for variable in variables {
        out.extend_from_slice(b" ")?;
        add_number(out, u64::from(variable.channel))?;
        out.extend_from_slice(b".")?;
        add_number(out, u64::from(variable.cycle))?;
    }
    Ok(())
}

// Adds variables, or a stroke where there is none.
#[tactic(auto, using(crate::proofs::TextLemmas::some_variables, crate::proofs::TextLemmas::no_variables))]
fn add_variables(out: &mut Vec<u8>, variables: &[Variable]) -> Result<(), AllocError>
    ensures { OnOk result (out.new.items ≡ out.old.items ++ form.variables_text variables.now) }
{
    if variables.is_empty() {
        out.extend_from_slice(b" -")
    } else {
        add_each(out, variables)
    }
}

// Adds the lines of sums.
#[tactic(auto, unfolding(crate::specs::Written::sum_line))]
fn add_sums(out: &mut Vec<u8>, sums: &[SumLine]) -> Result<(), AllocError>
    ensures { OnOk result (out.new.items ≡ out.old.items ++ flat_map form.sum_line sums.now) }
{
    for line in sums {
        out.extend_from_slice(b"sum ")?;
        out.extend_from_slice(line.name.as_slice())?;
        out.extend_from_slice(bit_text(line.bit))?;
        add_variables(out, line.variables.as_slice())?;
        out.extend_from_slice(b"\n")?;
    }
    Ok(())
}

fn add_encoded(out: &mut Vec<u8>, pattern: u32) -> Result<(), AllocError>
    ensures { OnOk result (out.new.items ≡ out.old.items ++ form.outcome_text (CubeLine.Encoded pattern)) }
{
    out.extend_from_slice(b" encoded ")?;
    add_number(out, u64::from(pattern))?;
    out.extend_from_slice(b"\n")
}

// Adds how many sums there are, and their lines.
#[tactic(auto, unfolding(crate::specs::Written::unsolvable_text))]
fn add_unsolvable(out: &mut Vec<u8>, sums: &[SumLine]) -> Result<(), AllocError>
    ensures { OnOk result (out.new.items ≡ out.old.items ++ form.unsolvable_text sums.now) }
{
    out.extend_from_slice(b" unsolvable ")?;
    add_number(out, sums.len() as u64)?;
    out.extend_from_slice(b"\n")?;
    add_sums(out, sums)?;
    Ok(())
}

// Adds what became of a cube.
fn add_outcome(out: &mut Vec<u8>, outcome: &CubeLine) -> Result<(), AllocError>
    ensures { OnOk result (out.new.items ≡ out.old.items ++ form.outcome_text outcome.now) }
{
    match outcome {
        CubeLine::Encoded(pattern) => add_encoded(out, *pattern),
        CubeLine::Unsolvable(sums) => add_unsolvable(out, sums.as_slice()),
        CubeLine::Skipped(cell) => {
            out.extend_from_slice(b" skipped ")?;
            out.extend_from_slice(cell.as_slice())?;
            out.extend_from_slice(b"\n")
        }
    }
}

// Adds the lines of a cube.
#[tactic(auto, unfolding(crate::specs::Written::cube_lines))]
fn add_cube(out: &mut Vec<u8>, cube: &CubeReport) -> Result<(), AllocError>
    ensures { OnOk result (out.new.items ≡ out.old.items ++ form.cube_lines cube.now) }
{
    out.extend_from_slice(b"cube ")?;
    out.extend_from_slice(cube.name.as_slice())?;
    add_outcome(out, &cube.outcome)
}

// Adds the lines of cubes.
pub(crate) fn add_cubes(out: &mut Vec<u8>, cubes: &[CubeReport]) -> Result<(), AllocError>
    ensures { OnOk result (out.new.items ≡ out.old.items ++ flat_map form.cube_lines cubes.now) }
{
    for cube in cubes {
        add_cube(out, cube)?;
    }
    Ok(())
}

/// How many bytes the lines of a cube have.
pub fn cube_length(alloc: Global, cube: &CubeReport) -> Result<usize, AllocError>
    ensures { IfOk result (λ bytes. bytes ≡ length (form.cube_lines cube.now)) }
{
    let mut lines = Vec::new(alloc);
    add_cube(&mut lines, cube)?;
    Ok(lines.len())
}
