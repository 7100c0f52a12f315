//! The text of the patterns.

ghost use Rattle.std.specs.Prelude.{◌≡◌, ◌≤◌, None, length, IfErr, IfOk};
ghost use Rattle.dft_stil_tokens.specs.declared.blanks.TheConstants.{MAX_TEXT};
ghost use Rattle.dft_insert.specs.Statements.{scanned as written};
ghost use Rattle.dft_insert.specs.declared.style.Style.TheVariants.{Edt};
ghost use Rattle.dft_compile.specs.Compilation.{IsPatternText};
ghost use Rattle.dft_compile.specs.Refusals.{IsRefusal, pattern_bytes};

use crate::error::CompileError;
use dft_encode::encode;
use dft_merge::Closed;
use dft_netlist::Design;
use std::alloc::Global;

// The text of patterns, and how many chains are masked in them.
#[derive(Drop)]
pub(crate) struct PatternText {
    pub(crate) text: Vec<u8>,
    pub(crate) masked: u64,
}

// The text of the patterns of all merged cubes, which is short enough.
pub(crate) fn pattern_text(
    alloc: Global,
    scanned: &Design,
    merger: &Closed<'_>,
) -> Result<PatternText, CompileError>
    requires scanned { scanned.now ≡ written Edt merger.now.loads.design merger.now.loads.config }
    requires few { length merger.now.patterns ≤ 65536 }
    requires short { pattern_bytes merger.now.loads.design merger.now.loads.config merger.now.patterns ≤ MAX_TEXT }
    ensures text { IfOk result (IsPatternText merger.now.loads.design merger.now.loads.config merger.now.loads.rows merger.now.patterns) }
    ensures memory { IfErr result (IsRefusal None) }
{
    merger.loads().soundness();
    let encoded = encode(alloc, merger, scanned)?;
    Ok(PatternText {
        text: dft_stil_out::write(alloc, &encoded.set)?,
        masked: encoded.masked,
    })
}
