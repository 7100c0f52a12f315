//! What is gathered of the searches of all faults.

ghost use Rattle.std.specs.Prelude.{[], ◌∷◌, ◌++◌, ◌≡◌, IfOk, List, OnOk};
ghost use Rattle.dft_config.specs.Config.{Config as AConfig};
ghost use Rattle.dft_netlist.specs.Netlist.{Netlist};
ghost use Rattle.dft_base.specs.Lexing.{Text};
ghost use Rattle.dft_cubes_out.specs.Written.{cube_text, cubes_text};
ghost use Rattle.dft_seeking.specs.Gathers.{HasRoom, IsGathered, IsKept};
ghost use Rattle.dft_seeking.specs.Told.{Told, counts_of, cubes_by};

use crate::counting::SeekCounts;
use crate::kept::{Kept, add};
use crate::limits::MAX_TEXT;
use crate::lines::fault_line;
use dft_config::Config;
use dft_cubes::Cube;
use dft_cubes_out::add_cube;
use dft_faults::Fault;
use dft_netlist::Design;
use dft_report::MAX_BYTES;
use dft_seek::Found;
use std::alloc::{AllocError, Global};

// The texts of the cubes and of the lines of a report, and the counts.
#[derive(Debug, Drop)]
pub(crate) struct Gathered {
    pub cubes: Kept,
    pub lines: Kept,
    pub counts: SeekCounts,
}

// Nothing has been gathered.
pub(crate) fn nothing(alloc: Global) -> Gathered
    ensures gathered { (n : Netlist) (config : AConfig) → IsGathered n config [] result }
    ensures counts { result.counts ≡ counts_of [] }
{
    Gathered {
        cubes: Kept {
            text: Vec::new(alloc),
            bytes: 0,
        },
        lines: Kept {
            text: Vec::new(alloc),
            bytes: 0,
        },
        counts: SeekCounts {
            faults: 0,
            cubes: 0,
            not_testable: 0,
            aborted: 0,
        },
    }
}

// One fault more is counted.
fn count(counts: &mut SeekCounts, found: &Found)
    requires { HasRoom counts.old }
    ensures { (told : List Told) (t : Told) → t.found ≡ found.now → counts.old ≡ counts_of told → counts.new ≡ counts_of (told ++ t ∷ []) }
{
    counts.faults += 1;
    match found {
        Found::Cube(_) => counts.cubes += 1,
        Found::NotTestable => counts.not_testable += 1,
        Found::Aborted => counts.aborted += 1,
    }
}

// The lines of a cube.
fn cube_lines(
    alloc: Global,
    design: &Design,
    config: &Config,
    cube: &Cube,
) -> Result<Vec<u8>, AllocError>
    ensures { IfOk result (λ lines. lines.items ≡ cube_text design.now config.now cube.now) }
{
    let mut lines = Vec::new(alloc);
    add_cube(&mut lines, design, config, cube)?;
    Ok(lines)
}

// Adds the lines of the cube that was found, if one was.
fn add_found(
    alloc: Global,
    kept: &mut Kept,
    design: &Design,
    config: &Config,
    found: &Found,
) -> Result<(), AllocError>
    ensures { OnOk result ((text : Text) → IsKept MAX_TEXT text kept.old → IsKept MAX_TEXT (text ++ cubes_text design.now config.now (cubes_by found.now)) kept.new) }
{
    match found {
        Found::Cube(cube) => {
            let lines = cube_lines(alloc, design, config, cube)?;
            add(kept, MAX_TEXT, &lines)
        }
        Found::NotTestable | Found::Aborted => Ok(()),
    }
}

// Gathers what is told of one fault more.
pub(crate) fn gather(
    alloc: Global,
    gathered: &mut Gathered,
    design: &Design,
    config: &Config,
    fault: Fault,
    found: &Found,
) -> Result<(), AllocError>
    requires { HasRoom gathered.old.counts }
    ensures { OnOk result ((told : List Told) → IsGathered design.now config.now told gathered.old → IsGathered design.now config.now (told ++ record { fault = fault; found = found.now } ∷ []) gathered.new) }
{
    add_found(alloc, &mut gathered.cubes, design, config, found)?;
    let line = fault_line(alloc, design, fault, found)?;
    add(&mut gathered.lines, MAX_BYTES, &line)?;
    count(&mut gathered.counts, found);
    Ok(())
}
