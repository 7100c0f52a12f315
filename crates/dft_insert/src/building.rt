//! The making of scanned netlists.

ghost use Rattle.std.specs.Prelude.{◌≡◌, ◌≤◌, None, IfErr, IfOk, OnOk, length, option_map};
ghost use Rattle.dft_netlist.specs.declared.limits.TheConstants.{MAX_NETS};
ghost use Rattle.dft_parts.specs.Parts.{parts_refusal};
ghost use Rattle.dft_parts.specs.Recipes.{Makes};
ghost use Rattle.dft_stitch.specs.Chains.{plan_of};
ghost use Rattle.dft_scan_frame.specs.Refusals.{IsRefusal};
ghost use Rattle.dft_insert.specs.Frame.{frame};
ghost use Rattle.dft_insert.specs.Ports.{gap_in};
ghost use Rattle.dft_insert.specs.Refusals.{as_told, frame_refusal, refusal};
ghost use Rattle.dft_insert.specs.Scanned.{added_ids, framed, parts_of, recipe, scanned_netlist};

use crate::edt::make_edt;
use crate::frame::build_frame;
use crate::plain::make_plain;
use crate::style::Style;
use crate::told::told;
use dft_config::Config;
use dft_netlist::{Design, DesignBuilder, NetlistError, PortId};
use dft_parts::{Made, PartsBuilder};
use dft_scan_frame::{Gap, InsertError, port_ids};
use dft_stitch::Chains;
use std::alloc::Global;

/// The netlist of a design with its scan chains, which is not finished yet.
#[derive(Debug, Drop)]
pub struct Unfinished {
    pub builder: DesignBuilder,
    /// The ports that were added, in order.
    pub added: Vec<PortId>,
}

/// Makes the scanned netlist of a design, with the chains that are planned for it: the frame, and in it the hardware of a style.
/// It is refused by the first thing that is added and whose name is taken, or that passes a limit.
pub fn make_scanned(
    alloc: Global,
    design: &Design,
    config: &Config,
    chains: &Chains,
    style: Style,
) -> Result<Unfinished, InsertError>
    requires planned { chains.now ≡ plan_of design.now config.now }
    ensures netlist { IfOk result (λ s. s.builder ≡ scanned_netlist style design.now config.now chains.now) }
    ensures added { IfOk result (λ s. s.added.items ≡ added_ids style design.now config.now) }
    ensures accepted { IfOk result (λ s. refusal style design.now config.now chains.now ≡ None) }
    ensures refused { IfErr result (IsRefusal (refusal style design.now config.now chains.now)) }
{
    let builder = build_frame(alloc, design, config, chains, style)?;
    let first = design.ports().len();
    let added = port_ids(alloc, first, builder.ports().len() - first)?;
    let builder = fill(alloc, builder, design, config, chains, style)?;
    Ok(Unfinished { builder, added })
}

// Makes the hardware of a style in its frame.
fn fill(
    alloc: Global,
    builder: DesignBuilder,
    design: &Design,
    config: &Config,
    chains: &Chains,
    style: Style,
) -> Result<DesignBuilder, InsertError>
    requires planned { chains.now ≡ plan_of design.now config.now }
    requires frame { builder ≡ frame style design.now config.now }
    ensures netlist { IfOk result (λ builder. builder ≡ scanned_netlist style design.now config.now chains.now) }
    ensures accepted { IfOk result (λ builder. parts_refusal (framed style design.now config.now) (parts_of style design.now config.now chains.now) ≡ None) }
    ensures refused { IfErr result (IsRefusal (option_map as_told (parts_refusal (framed style design.now config.now) (parts_of style design.now config.now chains.now)))) }
{
    let width = builder.ports().len() - design.ports().len();
    let gap = Gap::new(design, width as u32);
    let made = Made {
        nets: 0,
        instances: 0,
    };
    let mut parts = PartsBuilder::new(alloc, builder, made);
    match make(&mut parts, design, config, chains, style, &gap) {
        Ok(()) => Ok(parts.into_builder()),
        Err(error) => Err(told(error)),
    }
}

// Makes the recipe of a style in its frame.
fn make(
    parts: &mut PartsBuilder,
    design: &Design,
    config: &Config,
    chains: &Chains,
    style: Style,
    gap: &Gap,
) -> Result<(), NetlistError>
    requires planned { chains.now ≡ plan_of design.now config.now }
    requires frame { parts.old.netlist ≡ frame style design.now config.now }
    requires few { length parts.old.netlist.nets ≤ MAX_NETS }
    requires gap { gap.now ≡ gap_in style design.now config.now }
    ensures makes { Makes (λ _. tt) (recipe style design.now config.now chains.now) parts.old result parts.new }
{
    design.soundness();
    config.soundness();
    match style {
        Style::Plain => make_plain(parts, design, config, chains, gap),
        Style::Edt => make_edt(parts, design, config, chains, gap),
    }
}
