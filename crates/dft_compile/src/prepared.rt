//! What is ready before the cubes are read.

ghost use Rattle.std.specs.Prelude.{◌≡◌, None, IfErr, IfOk};
ghost use Rattle.dft_scan_frame.specs.Statements.{IsReady};
ghost use Rattle.dft_insert.specs.Statements.{scanned};
ghost use Rattle.dft_insert.specs.declared.style.Style.TheVariants.{Edt};
ghost use Rattle.dft_compile.specs.Prepared.{IsPrepared};
ghost use Rattle.dft_compile.specs.Refusals.{IsRefusal, first_refusal};

use crate::error::CompileError;
use dft_config::Config;
use dft_insert::{Style, insert};
use dft_merge::Loads;
use dft_netlist::Design;
use dft_stitch::Planned;
use std::alloc::Global;
use std::marker::Model;

/// A planned design with its load equations, and its scanned netlist. A clause sees the design and the configuration: all
/// else is theirs.
pub struct Prepared<'a> {
    loads: Loads<'a>,
    scanned: Design,
}

// One call for all fields, so that the proof of what owns a value stays short.
impl Drop for Prepared<'_> {
    fn drop(self) {
        let Prepared {
            loads: _,
            scanned: _,
        } = self;
    }
}

impl<'a> Model for Prepared<'a> {
    ghost use Rattle.dft_stitch.specs.Planning.{Planned};

    ghost Value = { Planned };

    ghost use Rattle.dft_compile.specs.PreparedShown.{prepared_in, AreScanned};

    ghost view = { prepared_in };

    ghost invariant = { AreScanned };
}

impl<'a> Prepared<'a> {
    /// The design with its configuration, its chains and their load equations.
    pub fn loads(&self) -> &Loads<'a>
        ensures { record { design = result.now.design; config = result.now.config } ≡ self.now }
    {
        &self.loads
    }

    /// The scanned netlist.
    pub fn scanned(&self) -> &Design
        ensures { result.now ≡ scanned Edt self.now.design self.now.config }
    {
        &self.scanned
    }
}

/// Judges the flip-flops of a design, plans its chains and inserts them behind compression hardware. It is refused by the first
/// check that fails: of the scan rules, of the plan, then of the insertion.
pub fn prepare<'a>(
    alloc: Global,
    design: &'a Design,
    config: &'a Config,
) -> Result<Prepared<'a>, CompileError>
    ensures prepared { IfOk result (IsPrepared design.entry.now config.entry.now) }
    ensures ready { IfOk result (λ p. IsReady design.entry.now config.entry.now) }
    ensures accepted { IfOk result (λ p. first_refusal design.entry.now config.entry.now ≡ None) }
    ensures refused { IfErr result (IsRefusal (first_refusal design.entry.now config.entry.now)) }
{
    design.soundness();
    let planned = Planned::prepare(alloc, design, config)?;
    planned.soundness();
    let chains = planned.chains();
    let inserted = insert(alloc, design, config, chains, Style::Edt)?;
    let loads = Loads::prepare(alloc, planned)?;
    Ok(Prepared {
        loads,
        scanned: inserted.design,
    })
}
