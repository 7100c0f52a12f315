//! From the settled values of one view to those of another: what differs is marked and evaluated.

ghost use Rattle.std.specs.Prelude.{◌≡◌, ◌⊎◌, ℕ, List, ◌<◌, length, true, false};
ghost use Rattle.dft_behavior.specs.Logic.{reads};
ghost use Rattle.dft_netlist.specs.Orders.{Has};
ghost use Rattle.dft_logic.specs.Circuit.{meaning, op_at, flag_at as is_up};
ghost use Rattle.dft_takings.specs.Views.{IsGivenIn, IsGiven, IsReady};
ghost use Rattle.dft_logic.specs.Tables.{list_at};

use dft_base::Tri;
use dft_logic::{Circuit, differ, list_of};
use dft_netlist::NetId;
use dft_takings::{View, op_value};

// Marks these nets.
fn mark_all(nets: &[u32], marked: &mut [bool])
    requires { (k : ℕ) → Has nets.now k → k < length marked.old }
    ensures lowered { (k : ℕ) → is_up marked.new k ≡ false → (is_up marked.old k ≡ false) × (Has nets.now k → ⊥) }
    ensures raised { (k : ℕ) → is_up marked.new k ≡ true → (is_up marked.old k ≡ true) ⊎ Has nets.now k }
{
    for net in nets {
        marked[*net as usize] = true;
    }
}

// Gives a net its driver's value, and marks its readers where that is new. Whether one was marked.
fn renew(
    circuit: &Circuit,
    view: &View<'_, '_, '_>,
    net: NetId,
    values: &mut [Tri],
    marked: &mut [bool],
) -> bool
    requires live { net.0 < length circuit.now.ops }
    requires values { length values.old ≡ length circuit.now.ops }
    requires marked { length marked.old ≡ length circuit.now.ops }
    ensures given { (k : ℕ) → is_up marked.new k ≡ false → (k ≡ net.0) ⊎ IsGiven circuit.now view.now values.old k → IsGiven circuit.now view.now values.new k }
    ensures lowered { (k : ℕ) → is_up marked.new k ≡ false → is_up marked.old k ≡ false }
    ensures raised { (k : ℕ) → is_up marked.new k ≡ true → (is_up marked.old k ≡ true) ⊎ Has (reads (meaning (op_at circuit.now.ops k))) net.0 }
    ensures none { result ≡ false → (k : ℕ) → is_up marked.old k ≡ false → is_up marked.new k ≡ false }
{
    let value = op_value(
        &circuit.ops[net.0 as usize],
        net,
        &circuit.flops,
        view,
        values,
    );
    if !differ(value, values[net.0 as usize]) {
        return false;
    }
    values[net.0 as usize] = value;
    let readers = list_of(&circuit.readers, net);
    mark_all(readers, marked);
    !readers.is_empty()
}

// Gives each of these nets its driver's value, and marks the readers of those that change. Whether one was marked.
fn refresh(
    circuit: &Circuit,
    view: &View<'_, '_, '_>,
    nets: &[u32],
    values: &mut [Tri],
    marked: &mut [bool],
) -> bool
    requires live { (k : ℕ) → Has nets.now k → k < length circuit.now.ops }
    requires values { length values.old ≡ length circuit.now.ops }
    requires marked { length marked.old ≡ length circuit.now.ops }
    ensures given { (others : List ℕ) → ((k : ℕ) → is_up marked.old k ≡ false → Has nets.now k ⊎ (Has others k ⊎ IsGiven circuit.now view.now values.old k)) → (k : ℕ) → is_up marked.new k ≡ false → Has others k ⊎ IsGiven circuit.now view.now values.new k }
    ensures none { result ≡ false → (k : ℕ) → is_up marked.old k ≡ false → is_up marked.new k ≡ false }
{
    let mut any = false;
    for net in nets {
        let moved = renew(circuit, view, NetId(*net), values, marked);
        any = any || moved;
    }
    any
}

// Evaluates a net if it is marked, and takes its mark away.
fn settle_marked(
    circuit: &Circuit,
    view: &View<'_, '_, '_>,
    net: NetId,
    values: &mut [Tri],
    marked: &mut [bool],
)
    requires live { net.0 < length circuit.now.ops }
    requires values { length values.old ≡ length circuit.now.ops }
    requires marked { length marked.old ≡ length circuit.now.ops }
    requires given { (k : ℕ) → is_up marked.old k ≡ false → IsGiven circuit.now view.now values.old k }
    ensures given { (k : ℕ) → is_up marked.new k ≡ false → IsGiven circuit.now view.now values.new k }
    ensures raised { (k : ℕ) → is_up marked.new k ≡ true → ((is_up marked.old k ≡ true) × (k ≡ net.0 → ⊥)) ⊎ Has (reads (meaning (op_at circuit.now.ops k))) net.0 }
{
    if marked[net.0 as usize] {
        marked[net.0 as usize] = false;
        let _ = renew(circuit, view, net, values, marked);
    }
}

// Evaluates the marked nets, in the circuit's order, and the readers of those that change.
fn sweep(circuit: &Circuit, view: &View<'_, '_, '_>, values: &mut [Tri], marked: &mut [bool])
    requires values { length values.old ≡ length circuit.now.ops }
    requires marked { length marked.old ≡ length circuit.now.ops }
    requires given { (k : ℕ) → is_up marked.old k ≡ false → IsGiven circuit.now view.now values.old k }
    ensures given { (k : ℕ) → IsGiven circuit.now view.now values.new k }
    ensures clear { (k : ℕ) → is_up marked.new k ≡ false }
{
    for net in &circuit.order {
        settle_marked(circuit, view, *net, values, marked);
    }
}

// Settles all nets in a view, where only the leaves of its domain and of another may lack their values in it.
pub(crate) fn change_view(
    circuit: &Circuit,
    view: &View<'_, '_, '_>,
    last: NetId,
    values: &mut [Tri],
    marked: &mut [bool],
)
    requires values { length values.old ≡ length circuit.now.ops }
    requires marked { length marked.old ≡ length circuit.now.ops }
    requires clear { (k : ℕ) → is_up marked.old k ≡ false }
    requires near { (k : ℕ) → Has (list_at circuit.now.leaves last.0) k ⊎ (Has (list_at circuit.now.leaves view.now.domain.0) k ⊎ IsGiven circuit.now view.now values.old k) }
    ensures given { (k : ℕ) → IsGiven circuit.now view.now values.new k }
    ensures clear { (k : ℕ) → is_up marked.new k ≡ false }
{
    let left = refresh(
        circuit,
        view,
        list_of(&circuit.leaves, last),
        values,
        marked,
    );
    let entered = refresh(
        circuit,
        view,
        list_of(&circuit.leaves, view.domain),
        values,
        marked,
    );
    if left || entered {
        sweep(circuit, view, values, marked);
    }
}

// Settles all nets in a view, where they have the values that they have from any sources.
pub(crate) fn settle_again(
    circuit: &Circuit,
    view: &View<'_, '_, '_>,
    values: &mut [Tri],
    marked: &mut [bool],
)
    requires values { length values.old ≡ length circuit.now.ops }
    requires marked { length marked.old ≡ length circuit.now.ops }
    requires clear { (k : ℕ) → is_up marked.old k ≡ false }
    requires ready { IsReady circuit.now values.old }
    ensures given { (k : ℕ) → IsGiven circuit.now view.now values.new k }
    ensures clear { (k : ℕ) → is_up marked.new k ≡ false }
{
    let sources = list_of(&circuit.sources, NetId(0));
    if refresh(circuit, view, sources, values, marked) {
        sweep(circuit, view, values, marked);
    }
}

// Settles all nets in a view, where they are settled in that of another domain.
pub(crate) fn enter(
    circuit: &Circuit,
    view: &View<'_, '_, '_>,
    last: NetId,
    values: &mut [Tri],
    marked: &mut [bool],
)
    requires values { length values.old ≡ length circuit.now.ops }
    requires marked { length marked.old ≡ length circuit.now.ops }
    requires live { (last.0 < length circuit.now.ops) × (view.now.domain.0 < length circuit.now.ops) }
    requires clear { (k : ℕ) → is_up marked.old k ≡ false }
    requires given { (k : ℕ) → IsGivenIn circuit.now view.now last.0 values.old k }
    ensures given { (k : ℕ) → IsGiven circuit.now view.now values.new k }
    ensures clear { (k : ℕ) → is_up marked.new k ≡ false }
{
    circuit.soundness();
    if last.0 != view.domain.0 {
        change_view(circuit, view, last, values, marked);
    }
}
