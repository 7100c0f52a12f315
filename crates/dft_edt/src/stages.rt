//! The stages of the ring.

ghost use Rattle.std.specs.Prelude.{ℕ, ◌≡◌, ◌<◌, ◌≤◌, ◌++◌, IfOk, OnOk, length};
ghost use Rattle.std.specs.List.{All, range_with_len};
ghost use Rattle.dft_config.specs.Range.{IsRingInRange};
ghost use Rattle.dft_parts.specs.Recipes.{AreThere, Makes, each, nets_made};
ghost use Rattle.dft_edt.specs.RingRecipe as spec;
ghost use Rattle.dft_edt.specs.RingRecipe.{a_stage, injector_nets, tap_nets};

use dft_cells::Gate;
use dft_config::{Injector, RingConfig, Tap};
use dft_netlist::{NetId, NetlistError};
use dft_parts::{EdtPorts, PartsBuilder, push_net};
use std::alloc::{AllocError, Global};

// Makes so many nets.
pub(crate) fn make_nets(parts: &mut PartsBuilder, count: u8) -> Result<Vec<NetId>, NetlistError>
    ensures makes { Makes (λ nets. nets.items) (nets_made count) parts.old result parts.new }
    ensures there { IfOk result (λ nets. AreThere parts.new.netlist nets.items) }
    ensures count { IfOk result (λ nets. length nets.items ≡ count) }
    ensures nets { OnOk result (length parts.old.netlist.nets ≤ length parts.new.netlist.nets) }
{
    let mut nets = Vec::new(parts.alloc());
    for number in 0..count {
        let _ = number;
        let net = parts.net()?;
        push_net(&mut nets, net)?;
    }
    Ok(nets)
}

// Makes the stages of the ring, at nets that are there.
pub(crate) fn make_stages(
    parts: &mut PartsBuilder,
    ring: &RingConfig,
    ports: &EdtPorts,
    run: NetId,
    stages: &[NetId],
) -> Result<(), NetlistError>
    requires range { IsRingInRange (length ring.now.phase) ring.now }
    requires channels { length ports.now.channels ≡ ring.now.channels }
    requires stages { length stages.now ≡ ring.now.stages }
    requires clock { ports.now.edt_clock.0 < length parts.old.netlist.nets }
    requires fed { AreThere parts.old.netlist ports.now.channels }
    requires run { run.0 < length parts.old.netlist.nets }
    requires there { AreThere parts.old.netlist stages.now }
    ensures makes { Makes (λ _. tt) (each (a_stage ring.now ports.now run stages.now) (range_with_len 0 ring.now.stages)) parts.old result parts.new }
    ensures nets { OnOk result (length parts.old.netlist.nets ≤ length parts.new.netlist.nets) }
{
    for stage in 0..ring.stages {
        make_stage(parts, ring, ports, run, stages, stage)?;
    }
    Ok(())
}

// Makes a stage of the ring: a flip-flop that takes the sum of what feeds the stage where `run` is 1, and else 0.
fn make_stage(
    parts: &mut PartsBuilder,
    ring: &RingConfig,
    ports: &EdtPorts,
    run: NetId,
    stages: &[NetId],
    stage: u8,
) -> Result<(), NetlistError>
    requires range { IsRingInRange (length ring.now.phase) ring.now }
    requires channels { length ports.now.channels ≡ ring.now.channels }
    requires stages { length stages.now ≡ ring.now.stages }
    requires stage { stage < ring.now.stages }
    requires clock { ports.now.edt_clock.0 < length parts.old.netlist.nets }
    requires fed { AreThere parts.old.netlist ports.now.channels }
    requires run { run.0 < length parts.old.netlist.nets }
    requires there { AreThere parts.old.netlist stages.now }
    ensures makes { Makes (λ _. tt) (a_stage ring.now ports.now run stages.now stage) parts.old result parts.new }
    ensures nets { OnOk result (length parts.old.netlist.nets ≤ length parts.new.netlist.nets) }
{
    let terms = stage_terms(
        parts.alloc(),
        ring,
        ports.channels.as_slice(),
        stages,
        stage,
    )?;
    let sum = parts.sum(&terms)?;
    let kept = parts.driving_gate(Gate::And, &[sum, run])?;
    parts.flop(ports.edt_clock, kept, stages[stage as usize])
}

// The nets that a stage sums: that of the stage after it, those of its taps, then those of its injectors' channels.
fn stage_terms(
    alloc: Global,
    ring: &RingConfig,
    channels: &[NetId],
    stages: &[NetId],
    stage: u8,
) -> Result<Vec<NetId>, AllocError>
    requires range { IsRingInRange (length ring.now.phase) ring.now }
    requires channels { length channels.now ≡ ring.now.channels }
    requires stages { length stages.now ≡ ring.now.stages }
    requires stage { stage < ring.now.stages }
    ensures nets { IfOk result (λ terms. terms.items ≡ spec.stage_terms ring.now channels.now stages.now stage) }
    ensures below { IfOk result (λ terms. (bound : ℕ) → All (λ net. net.0 < bound) stages.now → All (λ net. net.0 < bound) channels.now → All (λ net. net.0 < bound) terms.items) }
{
    let next = (stage as usize + 1) % stages.len();
    let mut terms = Vec::new(alloc);
    push_net(&mut terms, stages[next])?;
    push_taps(&mut terms, ring.taps.as_slice(), stages, stage)?;
    push_injectors(&mut terms, ring.injectors.as_slice(), channels, stage)?;
    Ok(terms)
}

// Adds the nets of the taps to a stage.
fn push_taps(
    terms: &mut Vec<NetId>,
    taps: &[Tap],
    stages: &[NetId],
    stage: u8,
) -> Result<(), AllocError>
    requires { All (λ tap. tap.from < length stages.now) taps.now }
    ensures { OnOk result (terms.new.items ≡ terms.old.items ++ tap_nets taps.now stages.now stage) }
{
    for tap in taps {
        if tap.to == stage {
            push_net(terms, stages[tap.from as usize])?;
        }
    }
    Ok(())
}

// Adds the nets of the channels of the injectors to a stage.
fn push_injectors(
    terms: &mut Vec<NetId>,
    injectors: &[Injector],
    channels: &[NetId],
    stage: u8,
) -> Result<(), AllocError>
    requires { All (λ injector. injector.channel < length channels.now) injectors.now }
    ensures { OnOk result (terms.new.items ≡ terms.old.items ++ injector_nets injectors.now channels.now stage) }
{
    for injector in injectors {
        if injector.stage == stage {
            push_net(terms, channels[injector.channel as usize])?;
        }
    }
    Ok(())
}
