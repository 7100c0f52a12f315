//! The cubes of a report, one by one.

ghost use Rattle.std.specs.Prelude.{◌≡◌, None, IfErr, IfOk, OnOk, option_copied};
ghost use Rattle.dft_merge.specs.LoadPlan.{columns_by, rows_by};
ghost use Rattle.dft_report.specs.declared.report.CubeLine.TheVariants.{Unsolvable};
ghost use Rattle.dft_certify.specs.Certifying as spec;
ghost use Rattle.dft_certify.specs.Certifying.{IsFault, cube_names};
ghost use Rattle.dft_numbered.specs.Numbers.{Finds};

use crate::error::CertifyError;
use crate::naming::cube_numbers;
use crate::parity::is_certificate;
use crate::sums::take_sums;
use dft_base::Name;
use dft_cubes::Cube;
use dft_merge::Loads;
use dft_numbered::Numbered;
use dft_report::{CubeLine, CubeReport, Report, SumLine};
use std::alloc::{AllocError, Global};

// The cube of this name.
fn cube_named<'a>(cubes: &'a [Cube], names: &Numbered<'_>, name: &[u8]) -> Option<&'a Cube>
    requires { Finds names.now (cube_names cubes.now) }
    ensures { option_copied result ≡ spec.cube_named cubes.now name.now }
{
    cubes.get(names.find(name)?)
}

// Tests the lines of an unsolvable cube, behind the one with this number.
fn certify_lines(
    alloc: Global,
    loads: &Loads<'_>,
    cubes: &[Cube],
    names: &Numbered<'_>,
    number: u64,
    name: &Name,
    lines: &[SumLine],
) -> Result<(), CertifyError>
    requires names { Finds names.now (cube_names cubes.now) }
    ensures passed { OnOk result (spec.outcome_refusal loads.now.design loads.now.config.ring (rows_by loads.now) (columns_by loads.now) cubes.now number name.now (Unsolvable lines.now) ≡ None) }
    ensures refused { IfErr result (IsFault (spec.outcome_refusal loads.now.design loads.now.config.ring (rows_by loads.now) (columns_by loads.now) cubes.now number name.now (Unsolvable lines.now))) }
{
    let Some(cube) = cube_named(cubes, names, name.as_slice()) else {
        let name = name.copy(alloc)?;
        return Err(CertifyError::K5 { name });
    };
    let first = number.checked_add(1).ok_or(AllocError)?;
    take_sums(alloc, loads, cube.cells.as_slice(), first, lines)?;
    if !is_certificate(alloc, loads, lines)? {
        let name = name.copy(alloc)?;
        return Err(CertifyError::K3 { name });
    }
    Ok(())
}

// Tests an entry, whose line has this number.
fn certify_entry(
    alloc: Global,
    loads: &Loads<'_>,
    cubes: &[Cube],
    names: &Numbered<'_>,
    number: u64,
    entry: &CubeReport,
) -> Result<(), CertifyError>
    requires names { Finds names.now (cube_names cubes.now) }
    ensures passed { OnOk result (spec.outcome_refusal loads.now.design loads.now.config.ring (rows_by loads.now) (columns_by loads.now) cubes.now number entry.now.name entry.now.outcome ≡ None) }
    ensures refused { IfErr result (IsFault (spec.outcome_refusal loads.now.design loads.now.config.ring (rows_by loads.now) (columns_by loads.now) cubes.now number entry.now.name entry.now.outcome)) }
{
    match &entry.outcome {
        CubeLine::Unsolvable(lines) => certify_lines(
            alloc,
            loads,
            cubes,
            names,
            number,
            &entry.name,
            lines.as_slice(),
        ),
        CubeLine::Encoded(_pattern) => Ok(()),
        CubeLine::Skipped(_cell) => Ok(()),
    }
}

// How many lines an entry has.
fn lines_of(outcome: &CubeLine) -> Result<u64, AllocError>
    ensures { IfOk result (λ lines. lines ≡ spec.outcome_lines outcome.now) }
{
    match outcome {
        CubeLine::Unsolvable(lines) => {
            let count = lines.as_slice().len() as u64;
            count.checked_add(1).ok_or(AllocError)
        }
        CubeLine::Encoded(_pattern) => Ok(1),
        CubeLine::Skipped(_cell) => Ok(1),
    }
}

// Tests entries, of which the first has its line at this number.
fn certify_entries(
    alloc: Global,
    loads: &Loads<'_>,
    cubes: &[Cube],
    names: &Numbered<'_>,
    first: u64,
    entries: &[CubeReport],
) -> Result<(), CertifyError>
    requires names { Finds names.now (cube_names cubes.now) }
    ensures passed { OnOk result (spec.entries_refusal loads.now.design loads.now.config.ring (rows_by loads.now) (columns_by loads.now) cubes.now first entries.now ≡ None) }
    ensures refused { IfErr result (IsFault (spec.entries_refusal loads.now.design loads.now.config.ring (rows_by loads.now) (columns_by loads.now) cubes.now first entries.now)) }
{
    let mut number = first;
    for entry in entries {
        certify_entry(alloc, loads, cubes, names, number, entry)?;
        let lines = lines_of(&entry.outcome)?;
        number = number.checked_add(lines).ok_or(AllocError)?;
    }
    Ok(())
}

// The line of the first cube in the written text.
fn first_line(report: &Report) -> Result<u64, AllocError>
    ensures { IfOk result (λ line. line ≡ spec.first_line report.now) }
{
    let flops = (report.scanned.as_slice().len() as u64)
        .checked_add(report.unscanned.as_slice().len() as u64)
        .ok_or(AllocError)?;
    let lines = (report.chains.as_slice().len() as u64)
        .checked_add(flops)
        .ok_or(AllocError)?;
    lines.checked_add(3).ok_or(AllocError)
}

fn is_unsolvable(outcome: &CubeLine) -> bool
    ensures { result ≡ spec.is_unsolvable outcome.now }
{
    match outcome {
        CubeLine::Unsolvable(_lines) => true,
        CubeLine::Encoded(_pattern) => false,
        CubeLine::Skipped(_cell) => false,
    }
}

// How many cubes are reported unsolvable.
fn unsolvable_in(entries: &[CubeReport]) -> Result<u32, AllocError>
    ensures { IfOk result (λ count. count ≡ spec.unsolvable_in entries.now) }
{
    let mut count: u32 = 0;
    for entry in entries {
        if is_unsolvable(&entry.outcome) {
            count = count.checked_add(1).ok_or(AllocError)?;
        }
    }
    Ok(count)
}

/// Tests a report against the design, its planned chains and their load equations, and the cubes: each cube that is reported unsolvable is one
/// of these by its name (K5); each of its sums is of a scanned cell (K4), for a bit that the cube gives it, with the variables that the cell
/// sums, and the first of the cell (K2); and together no variable is left over, while the bits sum to 1 (K3). The first check that fails is
/// told, by cube in the report's order; else how many cubes are unsolvable. Past 2^32 lines it is as where memory runs out.
pub fn certify(
    alloc: Global,
    loads: &Loads<'_>,
    cubes: &[Cube],
    report: &Report,
) -> Result<u32, CertifyError>
    ensures certified { OnOk result (spec.certify_refusal loads.now.design loads.now.config.ring (rows_by loads.now) (columns_by loads.now) cubes.now report.now ≡ None) }
    ensures count { IfOk result (λ count. count ≡ spec.unsolvable_in report.now.cubes) }
    ensures refused { IfErr result (IsFault (spec.certify_refusal loads.now.design loads.now.config.ring (rows_by loads.now) (columns_by loads.now) cubes.now report.now)) }
{
    let first = first_line(report)?;
    let names = cube_numbers(alloc, cubes)?;
    certify_entries(alloc, loads, cubes, &names, first, report.cubes.as_slice())?;
    Ok(unsolvable_in(report.cubes.as_slice())?)
}
