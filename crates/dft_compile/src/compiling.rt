//! The compilation of a design and its cubes.

ghost use Rattle.std.specs.Prelude.{◌<◌, ◌≤◌, ◌^◌, length, IfErr, IfOk};
ghost use Rattle.std.specs.List.{All};
ghost use Rattle.dft_netlist_text.specs.NetlistText.{StandsFor};
ghost use Rattle.dft_insert.specs.Statements.{scanned};
ghost use Rattle.dft_insert.specs.declared.style.Style.TheVariants.{Edt};
ghost use Rattle.dft_verilog_out.specs.Named.{GatesAreJoined};
ghost use Rattle.dft_compile.specs.Compilation.{IsCompileOf};
ghost use Rattle.dft_compile.specs.Refusals.{IsLate};

use crate::error::CompileError;
use crate::prepared::Prepared;
use crate::texts::CompileTexts;
use crate::work::Work;
use dft_cubes::Cube;
use dft_encode::place_all;
use dft_merge::Merger;
use std::alloc::Global;

/// Compiles the cubes of a design that is prepared: they are placed into patterns, and the scanned netlist, the patterns and the
/// report are written. It is refused where the text of the patterns, and then where the report would be longer than its limit; that is told
/// before any pattern is made. Every pin of a gate must be joined, as in a design that was read.
pub fn compile(
    alloc: Global,
    prepared: &Prepared<'_>,
    cubes: &[Cube],
) -> Result<CompileTexts, CompileError>
    requires joined { GatesAreJoined prepared.now.design }
    requires cubes { length cubes.now ≤ 65536 }
    requires cells { All (λ cube. length cube.cells < 2 ^ 32) cubes.now }
    ensures compile { IfOk result (IsCompileOf prepared.now.design prepared.now.config cubes.now) }
    ensures reads { IfOk result (λ t. StandsFor prepared.now.design.library t.netlist.items (scanned Edt prepared.now.design prepared.now.config)) }
    ensures refused { IfErr result (IsLate prepared.now.design prepared.now.config cubes.now) }
{
    let loads = prepared.loads();
    loads.design().soundness();
    loads.soundness();
    let mut merger = Merger::new(alloc, loads)?;
    let placed = place_all(alloc, &mut merger, cubes)?;
    let merged = merger.close();
    let work = Work {
        alloc,
        loads,
        scanned: prepared.scanned(),
        merger: &merged,
        cubes,
        placed: &placed,
    };
    work.texts()
}
