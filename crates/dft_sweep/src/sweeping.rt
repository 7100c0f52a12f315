//! From the settled values of some sources to those of others: what differs is marked and evaluated.

ghost use Rattle.std.specs.Prelude.{◌≡◌, ◌⊎◌, ℕ, ◌<◌, ◌≤◌, ◌+◌, ◌*◌, length, true, false};
ghost use Rattle.dft_behavior.specs.Logic.{reads};
ghost use Rattle.dft_netlist.specs.Orders.{Has};
ghost use Rattle.dft_behavior.specs.Settled.{value_given};
ghost use Rattle.dft_logic.specs.Circuit.{meaning, op_at, flag_at as is_up};
ghost use Rattle.dft_logic.specs.Values as spec;
ghost use Rattle.dft_sweep.specs.Places.{AreBusy, ArePlaces};
ghost use Rattle.dft_sweep.specs.Fields.{IsGiven, bit_at, is_needed as are_needed, meaning_at, sources_of};
ghost use Rattle.dft_sweep.specs.Sweepings.{AreSwept};

use crate::field::{Field, Stuck};
use crate::gates::op_value;
use crate::marks::{Marks, is_needed, next_busy, rest};
use dft_base::Tri;
use dft_logic::{differ, list_of};
use dft_netlist::NetId;

// The bit at which a net is stuck, if it is.
fn stuck_at(stuck: Option<Stuck>, net: NetId) -> Option<bool>
    ensures { result ≡ bit_at stuck net.0 }
{
    match stuck {
        Some(stuck) if stuck.net.0 == net.0 => Some(stuck.value),
        _ => None,
    }
}

// The value that a net has from its driver, or because it is stuck.
fn value_of(field: &Field<'_>, net: NetId, values: &[Tri]) -> Tri
    requires live { net.0 < length field.now.circuit.now.ops }
    ensures { result ≡ value_given (sources_of field.now.sources) (spec.value_at values.now) net.0 (meaning_at field.now net.0) }
{
    match stuck_at(field.stuck, net) {
        Some(bit) => if bit { Tri::One } else { Tri::Zero },
        None => {
            let circuit = field.circuit;
            op_value(&circuit.ops[net.0 as usize], net, &field.sources, values)
        }
    }
}

/// Marks those of these nets that are needed, by the places of nets.
pub fn mark_all(places: &[u32], needed: &[bool], nets: &[u32], marks: &mut Marks)
    requires live { (k : ℕ) → Has nets.now k → k < length marks.old.marked.items }
    ensures size { length marks.new.marked.items ≡ length marks.old.marked.items }
    ensures lowered { (k : ℕ) → is_up marks.new.marked.items k ≡ false → is_up marks.old.marked.items k ≡ false }
    ensures marked { (k : ℕ) → are_needed needed.now k ≡ true → is_up marks.new.marked.items k ≡ false → Has nets.now k → ⊥ }
    ensures raised { (k : ℕ) → is_up marks.new.marked.items k ≡ true → (is_up marks.old.marked.items k ≡ true) ⊎ Has nets.now k }
    ensures busy { AreBusy places.now marks.old → AreBusy places.now marks.new }
{
    for net in nets {
        marks.mark(places, needed, NetId(*net));
    }
}

// Gives a net its value, and marks its needed readers where that is new. Whether it is.
fn renew(field: &Field<'_>, net: NetId, values: &mut [Tri], marks: &mut Marks) -> bool
    requires live { net.0 < length field.now.circuit.now.ops }
    requires values { length values.old ≡ length field.now.circuit.now.ops }
    requires marked { length marks.old.marked.items ≡ length field.now.circuit.now.ops }
    ensures size { length marks.new.marked.items ≡ length marks.old.marked.items }
    ensures given { (k : ℕ) → is_up marks.new.marked.items k ≡ false → (k ≡ net.0) ⊎ IsGiven field.now values.old k → IsGiven field.now values.new k }
    ensures lowered { (k : ℕ) → is_up marks.new.marked.items k ≡ false → is_up marks.old.marked.items k ≡ false }
    ensures raised { (k : ℕ) → is_up marks.new.marked.items k ≡ true → (is_up marks.old.marked.items k ≡ true) ⊎ Has (reads (meaning (op_at field.now.circuit.now.ops k))) net.0 }
    ensures none { result ≡ false → (k : ℕ) → is_up marks.old.marked.items k ≡ false → is_up marks.new.marked.items k ≡ false }
    ensures busy { AreBusy field.now.places.now marks.old → AreBusy field.now.places.now marks.new }
{
    let value = value_of(field, net, values);
    if !differ(value, values[net.0 as usize]) {
        return false;
    }
    values[net.0 as usize] = value;
    let circuit = field.circuit;
    let readers = list_of(&circuit.readers, net);
    mark_all(field.places, field.needed, readers, marks);
    true
}

// Gives a net its value, if it is needed, and marks its needed readers where that is new.
fn refresh_one(field: &Field<'_>, net: NetId, values: &mut [Tri], marks: &mut Marks)
    requires live { net.0 < length field.now.circuit.now.ops }
    requires values { length values.old ≡ length field.now.circuit.now.ops }
    requires marked { length marks.old.marked.items ≡ length field.now.circuit.now.ops }
    ensures size { length marks.new.marked.items ≡ length marks.old.marked.items }
    ensures given { (k : ℕ) → is_up marks.new.marked.items k ≡ false → (k ≡ net.0) ⊎ IsGiven field.now values.old k → IsGiven field.now values.new k }
    ensures lowered { (k : ℕ) → is_up marks.new.marked.items k ≡ false → is_up marks.old.marked.items k ≡ false }
    ensures busy { AreBusy field.now.places.now marks.old → AreBusy field.now.places.now marks.new }
{
    if is_needed(field.needed, net) {
        let _ = renew(field, net, values, marks);
    }
}

// Gives each of these nets its value, if it is needed, and marks the needed readers of those that change.
fn refresh(field: &Field<'_>, nets: &[u32], values: &mut [Tri], marks: &mut Marks)
    requires live { (k : ℕ) → Has nets.now k → k < length field.now.circuit.now.ops }
    requires values { length values.old ≡ length field.now.circuit.now.ops }
    requires marked { length marks.old.marked.items ≡ length field.now.circuit.now.ops }
    ensures size { length marks.new.marked.items ≡ length marks.old.marked.items }
    ensures given { ((k : ℕ) → is_up marks.old.marked.items k ≡ false → Has nets.now k ⊎ IsGiven field.now values.old k) → (k : ℕ) → is_up marks.new.marked.items k ≡ false → IsGiven field.now values.new k }
    ensures busy { AreBusy field.now.places.now marks.old → AreBusy field.now.places.now marks.new }
{
    for net in nets {
        refresh_one(field, NetId(*net), values, marks);
    }
}

// Evaluates a net if it is marked, and takes its mark away.
fn settle_marked(field: &Field<'_>, net: NetId, values: &mut [Tri], marks: &mut Marks)
    requires live { net.0 < length field.now.circuit.now.ops }
    requires values { length values.old ≡ length field.now.circuit.now.ops }
    requires marked { length marks.old.marked.items ≡ length field.now.circuit.now.ops }
    requires given { (k : ℕ) → is_up marks.old.marked.items k ≡ false → IsGiven field.now values.old k }
    ensures size { length marks.new.marked.items ≡ length marks.old.marked.items }
    ensures given { (k : ℕ) → is_up marks.new.marked.items k ≡ false → IsGiven field.now values.new k }
    ensures raised { (k : ℕ) → is_up marks.new.marked.items k ≡ true → ((is_up marks.old.marked.items k ≡ true) × (k ≡ net.0 → ⊥)) ⊎ Has (reads (meaning (op_at field.now.circuit.now.ops k))) net.0 }
    ensures busy { AreBusy field.now.places.now marks.old → AreBusy field.now.places.now marks.new }
{
    if marks.marked[net.0 as usize] {
        marks.marked[net.0 as usize] = false;
        let _ = renew(field, net, values, marks);
    }
}

// Evaluates the marked nets, in the circuit's order, and the needed readers of those that change.
fn sweep(field: &Field<'_>, values: &mut [Tri], marks: &mut Marks)
    requires places { ArePlaces field.now.circuit.now field.now.places.now }
    requires values { length values.old ≡ length field.now.circuit.now.ops }
    requires marked { length marks.old.marked.items ≡ length field.now.circuit.now.ops }
    requires busy { AreBusy field.now.places.now marks.old }
    requires given { (k : ℕ) → is_up marks.old.marked.items k ≡ false → IsGiven field.now values.old k }
    ensures size { length marks.new.marked.items ≡ length marks.old.marked.items }
    ensures given { (k : ℕ) → IsGiven field.now values.new k }
    ensures clear { (k : ℕ) → is_up marks.new.marked.items k ≡ false }
{
    let circuit = field.circuit;
    let end = circuit.order.as_slice().len();
    let mut place = next_busy(&marks.busy, 0, end);
    while place < end {
        settle_marked(field, circuit.order[place], values, marks);
        place = next_busy(&marks.busy, place + 1, end);
    }
}

/// Settles the needed nets, where each of them that is not marked has its value or is one of these.
pub fn settle(field: &Field<'_>, nets: &[u32], values: &mut [Tri], marks: &mut Marks)
    requires places { ArePlaces field.now.circuit.now field.now.places.now }
    requires live { (k : ℕ) → Has nets.now k → k < length field.now.circuit.now.ops }
    requires values { length values.old ≡ length field.now.circuit.now.ops }
    requires marked { length marks.old.marked.items ≡ length field.now.circuit.now.ops }
    requires busy { AreBusy field.now.places.now marks.old }
    requires near { (k : ℕ) → is_up marks.old.marked.items k ≡ false → Has nets.now k ⊎ IsGiven field.now values.old k }
    ensures size { length marks.new.marked.items ≡ length marks.old.marked.items }
    ensures given { (k : ℕ) → IsGiven field.now values.new k }
    ensures clear { (k : ℕ) → is_up marks.new.marked.items k ≡ false }
{
    refresh(field, nets, values, marks);
    sweep(field, values, marks);
    rest(&mut marks.busy);
}
