//! Which flip-flop or lock-up a net shows before the edges of a phase, through joins and lock-ups that are wires.

ghost use Rattle.std.specs.Prelude.{◌≡◌, length};
ghost use Rattle.dft_takings.specs.Takes.{origin_of, origin_given, AreOrigins};
ghost use Rattle.dft_abstract.specs.Cycle.{level_before};
ghost use Rattle.dft_logic.specs.Circuit.{meaning, source_at, logic_at};
ghost use Rattle.dft_takings.specs.Views.{pulse_at};
ghost use Rattle.dft_takings.specs.EntryTables as tables;
ghost use Rattle.dft_takings.specs.EntryTables.{number_of};

use crate::settling::{Pulse, is_wire};
use dft_logic::{Circuit, Op, Operand};
use dft_netlist::{InstanceId, NetId};

// The flip-flop that a net shows, if it shows one; past the end none does.
pub(crate) fn origin_at(origins: &[Option<InstanceId>], net: NetId) -> Option<InstanceId>
    ensures { number_of result ≡ tables.origin_at origins.now net.0 }
{
    match origins.get(net.0 as usize) {
        Some(origin) => *origin,
        None => None,
    }
}

// The flip-flop that an operand shows.
fn operand_origin(operand: &Operand, origins: &[Option<InstanceId>]) -> Option<InstanceId>
    ensures { number_of result ≡ origin_of (tables.origin_at origins.now) (source_at operand.now) }
{
    match operand {
        Operand::Net(net) => origin_at(origins, *net),
        Operand::Tied(_) => None,
        Operand::Loose(_, _) => None,
    }
}

// The flip-flop that a net shows by its driver.
fn op_origin(op: &Op, pulse: Pulse<'_>, origins: &[Option<InstanceId>]) -> Option<InstanceId>
    ensures { number_of result ≡ origin_given (level_before (pulse_at pulse.entry)) (tables.origin_at origins.now) (meaning op.now) }
{
    match op {
        Op::Joined(source) => operand_origin(source, origins),
        Op::Flop(instance, inverted) => if *inverted { None } else { Some(*instance) },
        Op::Lockup(instance, clock, high, source) => if is_wire(*high, pulse.level(*clock)) {
            operand_origin(source, origins)
        } else {
            Some(*instance)
        },
        Op::Input => None,
        Op::Clock => None,
        Op::Gate(_, _) => None,
        Op::Free => None,
    }
}

/// Finds the flip-flop that each net shows before the edges of a phase, in the circuit's order.
pub fn find_origins(circuit: &Circuit, pulse: Pulse<'_>, origins: &mut [Option<InstanceId>])
    requires origins { length origins.old ≡ length circuit.now.ops }
    ensures { AreOrigins (logic_at circuit.now) (level_before (pulse_at pulse.entry)) (tables.origin_at origins.new) }
{
    for net in &circuit.order {
        let origin = op_origin(&circuit.ops[net.0 as usize], pulse, origins);
        origins[net.0 as usize] = origin;
    }
}
