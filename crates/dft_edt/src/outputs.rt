//! The compactor.

ghost use Rattle.std.specs.Prelude.{ℕ, ◌≡◌, ◌<◌, ◌≤◌, IfOk, OnOk, length, map};
ghost use Rattle.std.specs.List.{All, range_with_len};
ghost use Rattle.dft_edt.specs.Hardware.{group_of};
ghost use Rattle.dft_parts.specs.Recipes.{AreThere, Makes, collect, each, net_at};
ghost use Rattle.dft_parts.specs.Sums.{a_sum};
ghost use Rattle.dft_edt.specs.Bounds.{AreMade};
ghost use Rattle.dft_edt.specs.CompactorRecipe.{a_gated, an_output, masks_at};

use crate::mask_nets::MaskNets;
use dft_cells::Gate;
use dft_config::Config;
use dft_netlist::{NetId, NetlistError};
use dft_parts::{EdtPorts, PartsBuilder, push_net};
use std::alloc::{AllocError, Global};

// Makes for each chain what the compactor takes of it.
pub(crate) fn make_gated(
    parts: &mut PartsBuilder,
    masks: &[MaskNets],
    ends: &[NetId],
) -> Result<Vec<NetId>, NetlistError>
    requires count { length masks.now ≡ length ends.now }
    requires masks { AreMade parts.old.netlist masks.now }
    requires ends { AreThere parts.old.netlist ends.now }
    ensures makes { Makes (λ gated. gated.items) (collect (λ chain. a_gated (masks_at masks.now chain).hold (net_at ends.now chain)) (range_with_len 0 (length ends.now))) parts.old result parts.new }
    ensures there { IfOk result (λ gated. AreThere parts.new.netlist gated.items) }
    ensures count { IfOk result (λ gated. length gated.items ≡ length ends.now) }
    ensures nets { OnOk result (length parts.old.netlist.nets ≤ length parts.new.netlist.nets) }
{
    let mut gated = Vec::new(parts.alloc());
    for chain in 0..ends.len() {
        let net = gate_end(parts, masks[chain].hold, ends[chain])?;
        push_net(&mut gated, net)?;
    }
    Ok(gated)
}

// Makes what the compactor takes of a chain: its end, where the hold bit is 0.
fn gate_end(parts: &mut PartsBuilder, hold: NetId, end: NetId) -> Result<NetId, NetlistError>
    requires hold { hold.0 < length parts.old.netlist.nets }
    requires end { end.0 < length parts.old.netlist.nets }
    ensures makes { Makes (λ net. net) (a_gated hold end) parts.old result parts.new }
    ensures there { IfOk result (λ net. net.0 < length parts.new.netlist.nets) }
    ensures nets { OnOk result (length parts.old.netlist.nets ≤ length parts.new.netlist.nets) }
{
    let shown = parts.driving_gate(Gate::Inv, &[hold])?;
    parts.driving_gate(Gate::And, &[shown, end])
}

// Makes the outputs.
pub(crate) fn make_outputs(
    parts: &mut PartsBuilder,
    config: &Config,
    ports: &EdtPorts,
    gated: &[NetId],
) -> Result<(), NetlistError>
    requires outputs { length ports.now.outputs ≡ length config.now.compactor.groups }
    requires chains { length gated.now ≡ config.now.chains }
    requires shown { AreThere parts.old.netlist ports.now.outputs }
    requires there { AreThere parts.old.netlist gated.now }
    ensures makes { Makes (λ _. tt) (each (an_output config.now ports.now gated.now) (range_with_len 0 (length config.now.compactor.groups))) parts.old result parts.new }
    ensures nets { OnOk result (length parts.old.netlist.nets ≤ length parts.new.netlist.nets) }
{
    let count = config.compactor().groups.as_slice().len();
    for output in 0..count {
        make_output(parts, config, ports, gated, output)?;
    }
    Ok(())
}

// Makes an output: the sum of its group, and a buffer to its port.
fn make_output(
    parts: &mut PartsBuilder,
    config: &Config,
    ports: &EdtPorts,
    gated: &[NetId],
    output: usize,
) -> Result<(), NetlistError>
    requires output { output < length config.now.compactor.groups }
    requires outputs { length ports.now.outputs ≡ length config.now.compactor.groups }
    requires chains { length gated.now ≡ config.now.chains }
    requires shown { AreThere parts.old.netlist ports.now.outputs }
    requires there { AreThere parts.old.netlist gated.now }
    ensures makes { Makes (λ _. tt) (an_output config.now ports.now gated.now output) parts.old result parts.new }
    ensures nets { OnOk result (length parts.old.netlist.nets ≤ length parts.new.netlist.nets) }
{
    let sum = sum_group(parts, config, gated, output)?;
    parts.gate(Gate::Buf, &[sum], ports.outputs.as_slice()[output])
}

// Makes the sum of the group of an output.
fn sum_group(
    parts: &mut PartsBuilder,
    config: &Config,
    gated: &[NetId],
    output: usize,
) -> Result<NetId, NetlistError>
    requires output { output < length config.now.compactor.groups }
    requires chains { length gated.now ≡ config.now.chains }
    requires there { AreThere parts.old.netlist gated.now }
    ensures makes { Makes (λ sum. sum) (a_sum (map (net_at gated.now) (group_of config.now output))) parts.old result parts.new }
    ensures there { IfOk result (λ sum. sum.0 < length parts.new.netlist.nets) }
    ensures nets { OnOk result (length parts.old.netlist.nets ≤ length parts.new.netlist.nets) }
{
    config.soundness();
    let group = config.compactor().groups.as_slice()[output].as_slice();
    let terms = group_terms(parts.alloc(), gated, group)?;
    parts.sum(&terms)
}

// The nets of these chains.
fn group_terms(alloc: Global, gated: &[NetId], group: &[u16]) -> Result<Vec<NetId>, AllocError>
    requires { All (λ chain. chain < length gated.now) group.now }
    ensures nets { IfOk result (λ terms. terms.items ≡ map (net_at gated.now) group.now) }
    ensures below { IfOk result (λ terms. (bound : ℕ) → All (λ net. net.0 < bound) gated.now → All (λ net. net.0 < bound) terms.items) }
{
    let mut terms = Vec::new(alloc);
    for chain in group {
        push_net(&mut terms, gated[*chain as usize])?;
    }
    Ok(terms)
}
