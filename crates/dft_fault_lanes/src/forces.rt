//! The ports of resets and sets.

ghost use Rattle.std.specs.Prelude.{◌≡◌, ◌<◌, ◌≤◌, ◌+◌, [], ℕ, length, true};
ghost use Rattle.std.specs.Vec.{vec_capacity};
ghost use Rattle.dft_base.specs.declared.tri.Tri.{Tri as ATri};
ghost use Rattle.dft_netlist.specs.Orders.{Has, numbers_of};
ghost use Rattle.dft_logic.specs.Circuit.{force_at, force_nets};
ghost use Rattle.dft_logic.specs.Values as spec;
ghost use Rattle.dft_fault_lanes.specs.Moves.{HasForces};

use crate::comparing::is_one;
use dft_base::Tri;
use dft_logic::{Acting, FlipFlop, force_net, value_at};
use dft_netlist::NetId;

// Whether two nets are the same.
fn same_net(one: NetId, other: NetId) -> bool
    ensures { result ≡ true → one.0 ≡ other.0 }
{
    one.0 == other.0
}

// Whether a net is one of these.
fn has_net(nets: &[NetId], net: NetId) -> bool
    ensures { result ≡ true → Has (numbers_of nets.now) net.0 }
{
    for other in nets {
        if same_net(*other, net) {
            return true;
        }
    }
    false
}

// Adds a net to a list, if it has it not.
fn add_net(net: NetId, list: &mut Vec<NetId>)
    requires { length list.old.items < vec_capacity list.old }
    ensures room { vec_capacity list.new ≡ vec_capacity list.old }
    ensures size { length list.new.items ≤ length list.old.items + 1 }
    ensures kept { (k : ℕ) → Has (numbers_of list.old.items) k → Has (numbers_of list.new.items) k }
    ensures here { Has (numbers_of list.new.items) net.0 }
{
    if !has_net(list, net) {
        list.push_reserved(net);
    }
}

// Adds the port of a reset or set, if there is one.
fn add_force(force: Option<Acting>, list: &mut Vec<NetId>)
    requires { length list.old.items < vec_capacity list.old }
    ensures room { vec_capacity list.new ≡ vec_capacity list.old }
    ensures size { length list.new.items ≤ length list.old.items + 1 }
    ensures kept { (k : ℕ) → Has (numbers_of list.old.items) k → Has (numbers_of list.new.items) k }
    ensures here { (k : ℕ) → Has (force_nets (force_at force)) k → Has (numbers_of list.new.items) k }
{
    match force_net(force) {
        Some(port) => add_net(port, list),
        None => (),
    }
}

// Lists the ports of all resets and sets.
pub(crate) fn list_forces(flops: &[FlipFlop], list: &mut Vec<NetId>)
    requires room { length flops.now ≤ vec_capacity list.old }
    requires none { list.old.items ≡ [] }
    ensures { HasForces flops.now (numbers_of list.new.items) }
{
    for flop in flops {
        add_force(flop.force, list);
    }
}

// Whether each of these ports is 1, so that no reset or set acts.
pub(crate) fn are_ones(forces: &[NetId], ports: &[Tri]) -> bool
    ensures { result ≡ true → (net : ℕ) → Has (numbers_of forces.now) net → spec.value_at ports.now net ≡ ATri.One }
{
    for net in forces {
        if !is_one(value_at(ports, net.0)) {
            return false;
        }
    }
    true
}
