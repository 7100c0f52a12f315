//! Nets that are stuck in some lanes.

ghost use Rattle.std.specs.Prelude.{◌≡◌, ◌==◌, ◌<◌, ◌≤◌, ℕ, length, slice_get, Some, None, if◌then◌else◌};
ghost use Rattle.dft_faults.specs.declared.fault.Fault.{Fault as AFault};
ghost use Rattle.dft_base.specs.declared.tri.Tri.{Tri as ATri};
ghost use Rattle.dft_base.specs.Tri.{known};
ghost use Rattle.dft_evaluator.specs.Wides.{IsWide, value_in};
ghost use Rattle.dft_fault_lanes.specs.Lanes.{AreClamps, IsClamp, IsStuck, clamp_at, clamped};

use dft_base::Tri;
use dft_evaluator::{all, set_value};
use dft_faults::Fault;
use dft_lanes::{Wide, wide_and, wide_or};

/// The bounds of a net's value in each lane: it is 0 where the upper one is 0, and 1 where the lower one is 1.
#[derive(Clone, Copy)]
pub struct Clamp {
    pub most: Wide,
    pub least: Wide,
}

// What a net can be between its bounds.
pub(crate) fn within(bounds: &Option<Clamp>, wide: &Wide) -> Wide
    requires { IsClamp bounds.now }
    ensures { (values : ℕ → ATri) → IsWide wide.now values → IsWide result (λ lane. clamped bounds.now lane (values lane)) }
{
    match bounds {
        Some(bounds) => wide_or(&wide_and(wide, &bounds.most), &bounds.least),
        None => *wide,
    }
}

// Bounds that bind in no lane.
fn loose() -> Clamp
    ensures most { IsWide result.most (λ lane. ATri.One) }
    ensures least { IsWide result.least (λ lane. ATri.Zero) }
{
    Clamp {
        most: all(Tri::One),
        least: all(Tri::Zero),
    }
}

// A bit as a value.
pub(crate) fn known_bit(bit: bool) -> Tri
    ensures { result ≡ known bit }
{
    if bit { Tri::One } else { Tri::Zero }
}

// The bounds of a net that is stuck in one lane more.
fn tightened(bounds: Option<Clamp>, lane: u16, value: bool) -> Clamp
    requires lane { lane < 512 }
    requires bounds { IsClamp bounds }
    ensures each { (k : ℕ) (given : ATri) → k < 512 → clamped (Some result) k given ≡ (if k == lane then known value else clamped bounds k given) }
    ensures bounds { IsClamp (Some result) }
{
    let mut bounds = bounds.unwrap_or(loose());
    set_value(&mut bounds.most, lane, known_bit(value));
    set_value(&mut bounds.least, lane, known_bit(value));
    bounds
}

/// Each of these faults in a lane of its own, in their order.
pub fn stick(faults: &[Fault], clamps: &mut [Option<Clamp>])
    requires few { length faults.now ≤ 512 }
    requires live { (place : ℕ) (fault : AFault) → slice_get faults.now place ≡ Some fault → fault.net.0 < length clamps.old }
    requires clear { (net : ℕ) → clamp_at clamps.old net ≡ None }
    ensures clamps { AreClamps clamps.new }
    ensures stuck { (lane : ℕ) (fault : AFault) → slice_get faults.now lane ≡ Some fault → IsStuck clamps.new lane fault.net.0 fault.value }
{
    for (lane, fault) in faults.iter().enumerate() {
        let net = fault.net.0 as usize;
        let bounds = tightened(clamps[net], lane as u16, fault.value);
        clamps[net] = Some(bounds);
    }
}
