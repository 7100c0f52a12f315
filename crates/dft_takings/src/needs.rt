//! What some nets are settled from.

ghost use Rattle.std.specs.Prelude.{◌≡◌, ◌⊎◌, ℕ, ◌<◌, ◌≤◌, [], length, take, true, false};
ghost use Rattle.dft_behavior.specs.Logic.{reads};
ghost use Rattle.dft_netlist.specs.Orders.{Has, numbers_of};
ghost use Rattle.dft_takings.specs.Needs.{IsStrobeClosed};
ghost use Rattle.dft_logic.specs.Circuit.{meaning, op_at, logic_at, AreOrdered, flag_at as is_up};

use dft_logic::{Circuit, flag_at, list_of};
use dft_netlist::NetId;

// Whether one of these nets is marked.
fn any_marked(nets: &[u32], marked: &[bool]) -> bool
    ensures { result ≡ false → (k : ℕ) → Has nets.now k → is_up marked.now k ≡ false }
{
    for net in nets {
        if flag_at(marked, *net) {
            return true;
        }
    }
    false
}

// Marks a net if one that is settled from it is marked.
fn mark_read(circuit: &Circuit, net: NetId, marked: &mut [bool])
    requires live { net.0 < length circuit.now.ops }
    requires marked { length marked.old ≡ length circuit.now.ops }
    ensures read { (k : ℕ) → is_up marked.old k ≡ true → Has (reads (meaning (op_at circuit.now.ops k))) net.0 → is_up marked.new net.0 ≡ true }
    ensures kept { (k : ℕ) → is_up marked.old k ≡ true → is_up marked.new k ≡ true }
    ensures only { (k : ℕ) → is_up marked.new k ≡ true → (k ≡ net.0) ⊎ (is_up marked.old k ≡ true) }
{
    if any_marked(list_of(&circuit.readers, net), marked) {
        marked[net.0 as usize] = true;
    }
}

/// Marks all that the marked nets are settled from.
pub fn mark_needed(circuit: &Circuit, marked: &mut [bool])
    requires marked { length marked.old ≡ length circuit.now.ops }
    ensures closed { IsStrobeClosed (logic_at circuit.now) (is_up marked.new) }
    ensures kept { (k : ℕ) → is_up marked.old k ≡ true → is_up marked.new k ≡ true }
{
    for place in (0..circuit.order.len()).rev() {
        mark_read(circuit, circuit.order[place], marked);
    }
}

/// Lists the marked nets in the circuit's order, at the front of a list: how many.
pub fn list_marked(circuit: &Circuit, marked: &[bool], list: &mut [NetId]) -> usize
    requires list { length list.old ≡ length circuit.now.ops }
    requires marked { length marked.now ≡ length circuit.now.ops }
    ensures room { result ≤ length list.new }
    ensures ordered { IsStrobeClosed (logic_at circuit.now) (is_up marked.now) → AreOrdered circuit.now.ops [] (numbers_of (take result list.new)) }
    ensures listed { (k : ℕ) → is_up marked.now k ≡ true → Has (numbers_of (take result list.new)) k }
{
    let mut count = 0;
    for net in &circuit.order {
        if flag_at(marked, net.0) {
            list[count] = *net;
            count += 1;
        }
    }
    count
}
