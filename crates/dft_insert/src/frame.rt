//! The frame: the design with the added ports, and with scan cells whose scan inputs are open.

ghost use Rattle.std.specs.Prelude.{◌≡◌, ◌≤◌, None, IfErr, IfOk, OnOk, length};
ghost use Rattle.dft_stitch.specs.Chains.{plan_of};
ghost use Rattle.dft_scan_frame.specs.Refusals.{IsRefusal};
ghost use Rattle.dft_insert.specs.Frame.{frame};
ghost use Rattle.dft_insert.specs.Ports as spec;
ghost use Rattle.dft_insert.specs.Refusals.{frame_refusal, ports_alone, room_refusal, with_ports};

use crate::adding::add_ports;
use crate::framing::frame_instances;
use crate::ports::added_ports;
use crate::style::Style;
use dft_config::Config;
use dft_netlist::{Counted, Design, DesignBuilder, MAX_NETS};
use dft_scan_frame::{Gap, InsertError, bare_module, carry_joins, carry_nets, carry_ports};
use dft_stitch::Chains;
use std::alloc::{AllocError, Global};

// The frame of a design, or the first added port that is refused, or the limit of nets.
pub(crate) fn build_frame(
    alloc: Global,
    design: &Design,
    config: &Config,
    chains: &Chains,
    style: Style,
) -> Result<DesignBuilder, InsertError>
    requires planned { chains.now ≡ plan_of design.now config.now }
    ensures frame { IfOk result (λ builder. builder ≡ frame style design.now config.now) }
    ensures accepted { IfOk result (λ builder. frame_refusal style design.now config.now ≡ None) }
    ensures refused { IfErr result (IsRefusal (frame_refusal style design.now config.now)) }
{
    let mut builder = bare_ports(alloc, design)?;
    fill_frame(alloc, &mut builder, design, config, chains, style)?;
    Ok(builder)
}

// The ports of a design and their nets, over its cells.
fn bare_ports(alloc: Global, design: &Design) -> Result<DesignBuilder, AllocError>
    ensures { IfOk result (λ builder. builder ≡ ports_alone design.now) }
{
    let mut builder = bare_module(alloc, design)?;
    carry_ports(alloc, &mut builder, design.ports())?;
    Ok(builder)
}

// Adds to the ports of the design the added ports, and the rest of the design.
fn fill_frame(
    alloc: Global,
    builder: &mut DesignBuilder,
    design: &Design,
    config: &Config,
    chains: &Chains,
    style: Style,
) -> Result<(), InsertError>
    requires planned { chains.now ≡ plan_of design.now config.now }
    requires bare { builder.old ≡ ports_alone design.now }
    ensures frame { OnOk result (builder.new ≡ frame style design.now config.now) }
    ensures accepted { OnOk result (frame_refusal style design.now config.now ≡ None) }
    ensures refused { IfErr result (IsRefusal (frame_refusal style design.now config.now)) }
{
    design.soundness();
    let ports = added_ports(alloc, style, config)?;
    add_ports(alloc, builder, design, &ports)?;
    check_room(design, ports.len())?;
    let gap = Gap::new(design, ports.len() as u32);
    carry_rest(alloc, builder, design, config, chains, style, &gap)?;
    Ok(())
}

// Refuses so many nets more where they pass the limit.
fn check_room(design: &Design, added: usize) -> Result<(), InsertError>
    ensures accepted { OnOk result (room_refusal design.now added ≡ None) }
    ensures refused { IfErr result (IsRefusal (room_refusal design.now added)) }
{
    if added > MAX_NETS - design.net_count() as usize {
        return Err(InsertError::TooMany {
            what: Counted::Nets,
            limit: MAX_NETS as i64,
        });
    }
    Ok(())
}

// Adds the rest of the design behind all ports.
fn carry_rest(
    alloc: Global,
    builder: &mut DesignBuilder,
    design: &Design,
    config: &Config,
    chains: &Chains,
    style: Style,
    gap: &Gap,
) -> Result<(), AllocError>
    requires planned { chains.now ≡ plan_of design.now config.now }
    requires accepted { frame_refusal style design.now config.now ≡ None }
    requires gap { gap.now ≡ spec.gap_in style design.now config.now }
    requires ports { builder.old ≡ with_ports (ports_alone design.now) (spec.added_ports style config.now) }
    ensures { OnOk result (builder.new ≡ frame style design.now config.now) }
{
    let _ = style;
    design.soundness();
    carry_nets(alloc, builder, design, gap.before())?;
    carry_joins(builder, design.joins(), gap)?;
    frame_instances(alloc, builder, design, config, chains, gap)
}
