//! The next values of flip-flops, and the values that lock-ups are held at.

ghost use Rattle.std.specs.Prelude.{◌≡◌, ℕ, ◌<◌, ◌==◌, length, map, true, false, if◌then◌else◌};
ghost use Rattle.dft_base.specs.Tri.{join};
ghost use Rattle.dft_cells.specs.FlipFlops.{tri_forced, tri_chosen};
ghost use Rattle.dft_behavior.specs.Settled.{value_from};
ghost use Rattle.dft_cycle.specs.Machine as spec;
ghost use Rattle.dft_logic.specs.Circuit as circuits;
ghost use Rattle.dft_logic.specs.Circuit.{cell_of, cell_at, latch_at};
ghost use Rattle.dft_cycle.specs.Views.{taken_at, next_at, next_by, held_by};

use dft_base::Tri;
use dft_logic::{Circuit, Latch, differ, list_of, value_at};
use dft_netlist::NetId;

// Each flip-flop of a domain takes its next value in the domain's view.
pub(crate) fn take_next(
    circuit: &Circuit,
    domain: NetId,
    ports: &[Tri],
    values: &[Tri],
    next: &mut [Tri],
)
    requires live { domain.0 < length circuit.now.ops }
    requires next { length next.old ≡ length circuit.now.flops }
    ensures { (c : ℕ) → c < length circuit.now.flops → spec.value_at next.new c ≡ next_by (cell_at (map cell_of circuit.now.flops) c) domain.0 (spec.value_at ports.now) (spec.value_at values.now) (spec.value_at next.old c) }
{
    for cell in list_of(&circuit.cells, domain) {
        let place = *cell as usize;
        next[place] = circuit.flops[place].next(ports, values);
    }
}

// What a lock-up is held at after the view of a domain.
fn held_value(latch: Option<Latch>, domain: NetId, values: &[Tri], old: Tri) -> Tri
    ensures { result ≡ held_by (circuits.latch_of latch) domain.0 (spec.value_at values.now) old }
{
    match latch {
        Some(latch) => if latch.domain.0 == domain.0 {
            latch.input.value(values)
        } else {
            old
        },
        None => old,
    }
}

// Each lock-up of a domain is held at its input's value in the domain's view. Whether one changed.
pub(crate) fn hold(circuit: &Circuit, domain: NetId, values: &[Tri], held: &mut [Tri]) -> bool
    requires live { domain.0 < length circuit.now.ops }
    requires held { length held.old ≡ length circuit.now.latches }
    ensures each { (c : ℕ) → c < length circuit.now.latches → spec.value_at held.new c ≡ held_by (latch_at circuit.now.latches c) domain.0 (spec.value_at values.now) (spec.value_at held.old c) }
    ensures same { result ≡ false → held.new ≡ held.old }
{
    let mut changed = false;
    for latch in list_of(&circuit.holders, domain) {
        let place = *latch as usize;
        let old = value_at(held, *latch);
        let value = held_value(circuit.latches[place], domain, values, old);
        held[place] = value;
        changed = changed || differ(value, old);
    }
    changed
}
