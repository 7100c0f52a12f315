//! Where the flip-flops of a circuit lie: those of a chain one behind the other.

ghost use Rattle.std.specs.Prelude.{◌≡◌, length, replicate, IfOk};

use dft_base::Tri;
use dft_logic::{Circuit, FlipFlop, Operand};
use dft_netlist::InstanceId;
use dft_registers::Cells;
use dft_takings::{Pulse, find_origins};
use std::alloc::{AllocError, Global};

// The flip-flop whose bit one takes as it shifts.
fn origin_of(flop: &FlipFlop, origins: &[Option<InstanceId>]) -> Option<InstanceId> {
    let source = match flop.scan {
        Some(pins) => pins.input,
        None => flop.input,
    };
    match source {
        Operand::Net(net) => match origins.get(net.0 as usize) {
            Some(origin) => *origin,
            None => None,
        },
        _ => None,
    }
}

// Whether two flip-flops take their bits by the same clock.
fn share_clock(one: &FlipFlop, other: &FlipFlop) -> bool {
    one.domain.0 == other.domain.0
}

// The flip-flop before one of the other edge, if it takes its bit at the edge of this one, by the same clock.
fn flop_past(
    flops: &[FlipFlop],
    flop: &FlipFlop,
    between: &FlipFlop,
    origins: &[Option<InstanceId>],
) -> Option<u32> {
    let origin = origin_of(between, origins)?;
    let other = flops.get(origin.0 as usize)?;
    if share_clock(flop, other) && other.falling == flop.falling {
        Some(origin.0)
    } else {
        None
    }
}

// The flip-flop that one lies behind: the one whose bit it takes as it shifts, if both take theirs at the same edge of the
// same clock. Where that one takes its bit at the other edge, so that in each phase one of both stays, it is the one before
// that.
fn flop_before(flops: &[FlipFlop], flop: &FlipFlop, origins: &[Option<InstanceId>]) -> Option<u32> {
    let origin = origin_of(flop, origins)?;
    let other = flops.get(origin.0 as usize)?;
    if !share_clock(flop, other) {
        None
    } else if other.falling == flop.falling {
        Some(origin.0)
    } else {
        flop_past(flops, flop, other, origins)
    }
}

// The flip-flops of a circuit, whose values nobody knows, laid one behind the other where they shift so.
pub(crate) fn lay_out(alloc: Global, circuit: &Circuit) -> Result<Cells<Tri>, AllocError>
    ensures { IfOk result (λ cells. cells.values ≡ replicate (length circuit.now.flops) Tri.Unknown) }
{
    let nothing = Cells::new(alloc, &[])?;
    let pulse = Pulse {
        rising: true,
        ports: &[],
        pulsed: &[],
        old: &nothing,
    };
    let mut origins = vec![in alloc; None; circuit.ops.len()]?;
    find_origins(circuit, pulse, &mut origins);
    let mut before = vec![in alloc; None; circuit.flops.len()]?;
    for (place, flop) in circuit.flops.iter().enumerate() {
        before[place] = flop_before(&circuit.flops, flop, &origins);
    }
    Cells::new(alloc, &before)
}
