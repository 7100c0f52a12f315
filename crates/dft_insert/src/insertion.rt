//! The insertion of scan chains.

ghost use Rattle.std.specs.Prelude.{◌≡◌, None, IfErr, IfOk};
ghost use Rattle.dft_rules.specs.Refusals as rules;
ghost use Rattle.dft_stitch.specs.Chains.{plan_of};
ghost use Rattle.dft_scan_frame.specs.Refusals.{IsRefusal};
ghost use Rattle.dft_scan_frame.specs.Statements.{CanFinish, IsReady};
ghost use Rattle.dft_insert.specs.Refusals.{refusal};
ghost use Rattle.dft_insert.specs.Scanned.{added_ids, scanned_netlist};

use crate::scanned::Scanned;
use crate::{Style, Unfinished, make_scanned};
use dft_config::Config;
use dft_netlist::{Design, DesignBuilder};
use dft_scan_frame::{InsertError, memory};
use dft_stitch::Chains;
use std::alloc::{AllocError, Global};

/// Inserts scan chains: the scanned netlist of a design that the scan rules pass, with the chains that are planned for it, and with
/// the hardware of a style between them and the ports. It is refused by the first thing that is added and whose name is taken, or
/// that passes a limit.
pub fn insert(
    alloc: Global,
    design: &Design,
    config: &Config,
    chains: &Chains,
    style: Style,
) -> Result<Scanned, InsertError>
    requires passed { rules.refusal design.now config.now ≡ None }
    requires planned { chains.now ≡ plan_of design.now config.now }
    ensures design { IfOk result (λ s. s.design ≡ scanned_netlist style design.now config.now chains.now) }
    ensures added { IfOk result (λ s. s.added.items ≡ added_ids style design.now config.now) }
    ensures accepted { IfOk result (λ s. refusal style design.now config.now chains.now ≡ None) }
    ensures refused { IfErr result (IsRefusal (refusal style design.now config.now chains.now)) }
{
    see_ready(design, config);
    let Unfinished { builder, added } = make_scanned(alloc, design, config, chains, style)?;
    let design = finish(builder)?;
    Ok(Scanned { design, added })
}

// A design that passes is sound, has an order, and has no net with two drivers.
fn see_ready(design: &Design, config: &Config)
    requires passed { rules.refusal design.now config.now ≡ None }
    ensures { IsReady design.now config.now }
{
    design.soundness();
    config.soundness();
}

// The design of a netlist that has an order and no net with two drivers.
fn finish(builder: DesignBuilder) -> Result<Design, AllocError>
    requires { CanFinish builder }
    ensures { IfOk result (λ design. design ≡ builder) }
{
    match builder.finish() {
        Ok(design) => Ok(design),
        Err(error) => Err(memory(error)),
    }
}
