//! Lists of nets that are settled in their order.

ghost use Rattle.std.specs.Prelude.{◌≡◌, ℕ, [], length, map, true};
ghost use Rattle.dft_netlist.specs.Orders.{Has, numbers_of};
ghost use Rattle.dft_behavior.specs.Settled.{value_given};
ghost use Rattle.dft_takings.specs.Needs.{before_from};
ghost use Rattle.dft_logic.specs.Values as spec;
ghost use Rattle.dft_logic.specs.Circuit.{AreOrdered, meaning, op_at};
ghost use Rattle.dft_takings.specs.Views.{pulse_at};

use crate::settling::{Pulse, op_before};
use dft_base::Tri;
use dft_logic::{Circuit, differ, value_at};
use dft_netlist::NetId;

/// Settles these nets before the edges of a phase, whatever the values before.
pub fn settle_list(circuit: &Circuit, pulse: Pulse<'_>, nets: &[NetId], values: &mut [Tri])
    requires values { length values.old ≡ length circuit.now.ops }
    requires ordered { AreOrdered circuit.now.ops [] (numbers_of nets.now) }
    ensures { (k : ℕ) → Has (numbers_of nets.now) k → spec.value_at values.new k ≡ value_given (before_from (pulse_at pulse.entry) (spec.value_at values.new)) (spec.value_at values.new) k (meaning (op_at circuit.now.ops k)) }
{
    for net in nets {
        let value = op_before(&circuit.ops[net.0 as usize], *net, pulse, values);
        values[net.0 as usize] = value;
    }
}

/// Reads the values of nets, in their order.
pub fn read_list(nets: &[NetId], values: &[Tri], row: &mut [Tri])
    requires { length row.old ≡ length nets.now }
    ensures { row.new ≡ map (λ net. spec.value_at values.now net.0) nets.now }
{
    for (place, net) in nets.iter().enumerate() {
        row[place] = value_at(values, net.0);
    }
}

/// Whether nets have the values of a row, in their order, and it has no more.
pub fn has_row(nets: &[NetId], row: &[Tri], values: &[Tri]) -> bool
    ensures { result ≡ true → row.now ≡ map (λ net. spec.value_at values.now net.0) nets.now }
{
    if row.len() != nets.len() {
        return false;
    }
    for (place, net) in nets.iter().enumerate() {
        if differ(row[place], value_at(values, net.0)) {
            return false;
        }
    }
    true
}
