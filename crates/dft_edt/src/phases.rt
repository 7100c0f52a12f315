//! The phase shifter.

ghost use Rattle.std.specs.Prelude.{ℕ, ◌≡◌, ◌<◌, ◌≤◌, IfOk, OnOk, length, map};
ghost use Rattle.std.specs.List.{All, range_with_len};
ghost use Rattle.dft_config.specs.Range.{IsRingInRange};
ghost use Rattle.dft_parts.specs.Recipes.{AreThere, Makes, collect, net_at};
ghost use Rattle.dft_edt.specs.RingRecipe.{a_phase};

use dft_config::RingConfig;
use dft_netlist::{NetId, NetlistError};
use dft_parts::{PartsBuilder, push_net};
use std::alloc::{AllocError, Global};

// Makes for each chain the sum of its phase set.
pub(crate) fn make_phases(
    parts: &mut PartsBuilder,
    ring: &RingConfig,
    stages: &[NetId],
    chains: u16,
) -> Result<Vec<NetId>, NetlistError>
    requires range { IsRingInRange chains ring.now }
    requires stages { length stages.now ≡ ring.now.stages }
    requires there { AreThere parts.old.netlist stages.now }
    ensures makes { Makes (λ phases. phases.items) (collect (a_phase ring.now stages.now) (range_with_len 0 chains)) parts.old result parts.new }
    ensures there { IfOk result (λ phases. AreThere parts.new.netlist phases.items) }
    ensures count { IfOk result (λ phases. length phases.items ≡ chains) }
    ensures nets { OnOk result (length parts.old.netlist.nets ≤ length parts.new.netlist.nets) }
{
    let mut phases = Vec::new(parts.alloc());
    for chain in 0..chains {
        let phase = make_phase(parts, ring, stages, chain)?;
        push_net(&mut phases, phase)?;
    }
    Ok(phases)
}

// Makes the sum of the phase set of a chain.
fn make_phase(
    parts: &mut PartsBuilder,
    ring: &RingConfig,
    stages: &[NetId],
    chain: u16,
) -> Result<NetId, NetlistError>
    requires range { IsRingInRange (length ring.now.phase) ring.now }
    requires chain { chain < length ring.now.phase }
    requires stages { length stages.now ≡ ring.now.stages }
    requires there { AreThere parts.old.netlist stages.now }
    ensures makes { Makes (λ phase. phase) (a_phase ring.now stages.now chain) parts.old result parts.new }
    ensures there { IfOk result (λ phase. phase.0 < length parts.new.netlist.nets) }
    ensures nets { OnOk result (length parts.old.netlist.nets ≤ length parts.new.netlist.nets) }
{
    let set = ring.phase.as_slice()[chain as usize].as_slice();
    let terms = phase_terms(parts.alloc(), stages, set)?;
    parts.sum(&terms)
}

// The nets of these stages.
fn phase_terms(alloc: Global, stages: &[NetId], set: &[u8]) -> Result<Vec<NetId>, AllocError>
    requires { All (λ stage. stage < length stages.now) set.now }
    ensures nets { IfOk result (λ terms. terms.items ≡ map (net_at stages.now) set.now) }
    ensures below { IfOk result (λ terms. (bound : ℕ) → All (λ net. net.0 < bound) stages.now → All (λ net. net.0 < bound) terms.items) }
{
    let mut terms = Vec::new(alloc);
    for stage in set {
        push_net(&mut terms, stages[*stage as usize])?;
    }
    Ok(terms)
}
