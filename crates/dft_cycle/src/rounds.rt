//! The views of a pulse: lock-ups by rounds over the domains, then the next values of flip-flops.

ghost use Rattle.std.specs.Prelude.{◌≡◌, ◌⊎◌, ◌&&◌, ℕ, suc, ◌<◌, length, map, count_by, is_some, true, false};
ghost use Rattle.std.specs.List.{list_any};
ghost use Rattle.dft_base.specs.Tri.{AboveTri, is_known};
ghost use Rattle.dft_behavior.specs.Runs.{takes};
ghost use Rattle.dft_abstract.specs.Cycle.{AreViews, IsLeast};
ghost use Rattle.dft_cycle.specs.Machine.{AreNets};
ghost use Rattle.dft_cycle.specs.Machine as spec;
ghost use Rattle.dft_logic.specs.Circuit.{logic_at, cell_of, cell_at, flag_at as is_up};
ghost use Rattle.dft_takings.specs.Views.{IsReady, pulse_at};
ghost use Rattle.dft_cycle.specs.Views.{IsHeld, OwnsLatches, PulsesAmong, HasNext, raised_by, StaysBelow, AreNext, IsAlone, IsSearch};

use crate::flops::{hold, take_next};
use crate::phases::{Phase, Search, Views};
use crate::sweeping::{change_view, enter, settle_again};
use dft_base::Tri;
use dft_logic::{Circuit, FlipFlop, Latch, differ, flag_at};
use dft_netlist::NetId;
use dft_takings::{Pulse, View};

// The first clock.
fn first(clocks: &[NetId]) -> NetId
    ensures { (count : ℕ) → AreNets count clocks.now → 0 < count → result.0 < count }
{
    match clocks.first() {
        Some(clock) => *clock,
        None => NetId(0),
    }
}

// One round: each domain's lock-ups are held at their inputs in its view. Whether one changed.
fn round(
    phase: Phase<'_>,
    poss: &[Tri],
    held: &mut [Tri],
    values: &mut [Tri],
    marked: &mut [bool],
) -> bool
    requires held { length held.old ≡ length phase.circuit.now.flops }
    requires values { length values.old ≡ length phase.circuit.now.ops }
    requires marked { length marked.old ≡ length phase.circuit.now.ops }
    requires live { AreNets (length phase.circuit.now.ops) phase.clocks.now }
    requires owned { OwnsLatches phase.circuit.now phase.clocks.now }
    requires clear { (k : ℕ) → is_up marked.old k ≡ false }
    requires ready { IsReady phase.circuit.now values.old }
    ensures rises { (view : ℕ → ℕ → Tri) (r : ℕ) → AreViews (logic_at phase.entry.circuit.now) (pulse_at phase.entry.pulse) (spec.value_at poss.now) view → IsHeld phase.entry.circuit.now view held.old r → IsHeld phase.entry.circuit.now view held.new (suc r) }
    ensures same { result ≡ false → held.new ≡ held.old }
    ensures clear { (k : ℕ) → is_up marked.new k ≡ false }
    ensures ready { IsReady phase.entry.circuit.now values.new }
{
    let circuit = phase.circuit;
    circuit.soundness();
    let mut last = first(phase.clocks);
    let view = View {
        pulse: phase.pulse,
        domain: last,
        poss,
        held,
    };
    settle_again(circuit, &view, values, marked);
    let mut changed = false;
    for clock in phase.clocks {
        let view = View {
            pulse: phase.pulse,
            domain: *clock,
            poss,
            held,
        };
        change_view(circuit, &view, last, values, marked);
        last = *clock;
        let moved = hold(circuit, *clock, values, held);
        changed = changed || moved;
    }
    changed
}

// Whether there is a lock-up.
fn has_latch(latches: &[Option<Latch>]) -> bool
    ensures { result ≡ list_any (λ latch. is_some latch) latches.now }
{
    latches.iter().any(|latch| latch.is_some())
}

// Holds all lock-ups at their inputs in the views of their domains: a round for each net at most, since each round
// gets one more level of them right.
fn hold_lockups(
    phase: Phase<'_>,
    poss: &[Tri],
    held: &mut [Tri],
    values: &mut [Tri],
    marked: &mut [bool],
)
    requires held { length held.old ≡ length phase.circuit.now.flops }
    requires values { length values.old ≡ length phase.circuit.now.ops }
    requires marked { length marked.old ≡ length phase.circuit.now.ops }
    requires live { AreNets (length phase.circuit.now.ops) phase.clocks.now }
    requires owned { OwnsLatches phase.circuit.now phase.clocks.now }
    requires clear { (k : ℕ) → is_up marked.old k ≡ false }
    requires ready { IsReady phase.circuit.now values.old }
    ensures held { (view : ℕ → ℕ → Tri) → AreViews (logic_at phase.entry.circuit.now) (pulse_at phase.entry.pulse) (spec.value_at poss.now) view → IsHeld phase.entry.circuit.now view held.new (length phase.entry.circuit.now.ops) }
    ensures clear { (k : ℕ) → is_up marked.new k ≡ false }
    ensures ready { IsReady phase.entry.circuit.now values.new }
{
    let circuit = phase.circuit;
    if !has_latch(&circuit.latches) {
        return;
    }
    for _level in 0..values.len() {
        if !round(phase, poss, held, values, marked) {
            return;
        }
    }
}

// The next values of the flip-flops of the pulsed domains, each in the view of its domain.
fn next_values(views: Views<'_>, values: &mut [Tri], marked: &mut [bool], next: &mut [Tri])
    requires values { length values.old ≡ length views.phase.circuit.now.ops }
    requires marked { length marked.old ≡ length views.phase.circuit.now.ops }
    requires live { AreNets (length views.phase.circuit.now.ops) views.phase.clocks.now }
    requires next { length next.old ≡ length views.phase.circuit.now.flops }
    requires clear { (k : ℕ) → is_up marked.old k ≡ false }
    requires ready { IsReady views.phase.circuit.now values.old }
    ensures next { (view : ℕ → ℕ → Tri) → AreViews (logic_at views.entry.phase.circuit.now) (pulse_at views.entry.phase.pulse) (spec.value_at views.entry.poss.now) view → IsHeld views.entry.phase.circuit.now view views.entry.held.now (length views.entry.phase.circuit.now.ops) → HasNext views.entry.phase.circuit.now (pulse_at views.entry.phase.pulse) view views.entry.phase.clocks.now (length views.entry.phase.clocks.now) next.new }
    ensures clear { (k : ℕ) → is_up marked.new k ≡ false }
    ensures ready { IsReady views.entry.phase.circuit.now values.new }
{
    let phase = views.phase;
    let circuit = phase.circuit;
    circuit.soundness();
    let mut last = first(phase.clocks);
    let view = View {
        pulse: phase.pulse,
        domain: last,
        poss: views.poss,
        held: views.held,
    };
    settle_again(circuit, &view, values, marked);
    for clock in phase.clocks {
        if flag_at(phase.pulse.pulsed, clock.0) {
            let view = View {
                pulse: phase.pulse,
                domain: *clock,
                poss: views.poss,
                held: views.held,
            };
            enter(circuit, &view, last, values, marked);
            last = *clock;
            take_next(circuit, *clock, phase.pulse.ports, values, next);
        }
    }
}

// The map with the next value where the flip-flop takes one.
fn raised(up: bool, next: Tri, old: Tri) -> Tri
    ensures { result ≡ raised_by up next old }
{
    if up { old.join(next) } else { old }
}

// Joins the next values of the flip-flops that take one to the map. Whether one changed.
fn raise(flops: &[FlipFlop], rising: bool, pulsed: &[bool], next: &[Tri], poss: &mut [Tri]) -> bool
    requires poss { length poss.old ≡ length flops.now }
    requires next { length next.now ≡ length flops.now }
    ensures each { (c : ℕ) → c < length flops.now → spec.value_at poss.new c ≡ raised_by (is_up pulsed.now (cell_at (map cell_of flops.now) c).domain && takes rising (cell_at (map cell_of flops.now) c).falling) (spec.value_at next.now c) (spec.value_at poss.old c) }
    ensures same { result ≡ false → poss.new ≡ poss.old }
    ensures fewer { result ≡ true → count_by is_known poss.new < count_by is_known poss.old }
{
    let mut changed = false;
    for (place, flop) in flops.iter().enumerate() {
        let old = poss[place];
        let value = raised(flop.changes(rising, pulsed), next[place], old);
        let moved = differ(value, old);
        poss[place] = value;
        changed = changed || moved;
    }
    changed
}

// How many of the clocks pulse.
fn pulsing(pulsed: &[bool], clocks: &[NetId]) -> usize
    ensures { result ≡ count_by (λ clock. is_up pulsed.now clock.0) clocks.now }
{
    clocks
        .iter()
        .filter(|clock| flag_at(pulsed, clock.0))
        .count()
}

// Whether one domain pulses at most, and there is no lock-up: then its next values do not depend on the map.
fn is_alone(circuit: &Circuit, pulsed: &[bool], clocks: &[NetId]) -> bool
    requires pulsing { PulsesAmong pulsed.now clocks.now }
    ensures { result ≡ true → IsAlone (logic_at circuit.now) (is_up pulsed.now) }
{
    let latched = has_latch(&circuit.latches);
    let many = pulsing(pulsed, clocks);
    !latched && many < 2
}

// Whether a turn that changed the map, or not, is followed by another.
fn goes_on(changed: bool, alone: bool) -> bool
    ensures on { result ≡ true → changed ≡ true }
    ensures off { result ≡ false → (changed ≡ false) ⊎ (alone ≡ true) }
{
    changed && !alone
}

// One turn of the search for the least map: the next values at the map, joined to it. Whether there is another turn.
fn turn(
    phase: Phase<'_>,
    alone: bool,
    search: &mut Search,
    values: &mut [Tri],
    marked: &mut [bool],
) -> bool
    requires owned { OwnsLatches phase.circuit.now phase.clocks.now }
    requires pulsing { PulsesAmong phase.pulse.pulsed.now phase.clocks.now }
    requires alone { alone ≡ true → IsAlone (logic_at phase.circuit.now) (is_up phase.pulse.pulsed.now) }
    requires search { IsSearch phase.circuit.now search.old }
    requires values { length values.old ≡ length phase.circuit.now.ops }
    requires marked { length marked.old ≡ length phase.circuit.now.ops }
    requires live { AreNets (length phase.circuit.now.ops) phase.clocks.now }
    requires clear { (k : ℕ) → is_up marked.old k ≡ false }
    requires ready { IsReady phase.circuit.now values.old }
    ensures search { IsSearch phase.entry.circuit.now search.new }
    ensures above { (c : ℕ) → AboveTri (spec.value_at search.new.poss.items c) (spec.value_at search.old.poss.items c) }
    ensures below { StaysBelow (logic_at phase.entry.circuit.now) (pulse_at phase.entry.pulse) search.old.poss.items search.new.poss.items }
    ensures done { result ≡ false → (view : ℕ → ℕ → Tri) → AreViews (logic_at phase.entry.circuit.now) (pulse_at phase.entry.pulse) (spec.value_at search.new.poss.items) view → AreNext (logic_at phase.entry.circuit.now) (pulse_at phase.entry.pulse) view search.new.poss.items search.new.next.items }
    ensures fewer { result ≡ true → count_by is_known search.new.poss.items < count_by is_known search.old.poss.items }
    ensures clear { (k : ℕ) → is_up marked.new k ≡ false }
    ensures ready { IsReady phase.entry.circuit.now values.new }
{
    let circuit = phase.circuit;
    hold_lockups(phase, &search.poss, &mut search.held, values, marked);
    let views = Views {
        phase,
        poss: &search.poss,
        held: &search.held,
    };
    next_values(views, values, marked, &mut search.next);
    let changed = raise(
        &circuit.flops,
        phase.pulse.rising,
        phase.pulse.pulsed,
        &search.next,
        &mut search.poss,
    );
    goes_on(changed, alone)
}

// Finds the least map above the old values and above the next value of each flip-flop that takes one, and these next
// values.
pub(crate) fn find_least(
    phase: Phase<'_>,
    search: &mut Search,
    values: &mut [Tri],
    marked: &mut [bool],
)
    requires owned { OwnsLatches phase.circuit.now phase.clocks.now }
    requires pulsing { PulsesAmong phase.pulse.pulsed.now phase.clocks.now }
    requires search { IsSearch phase.circuit.now search.old }
    requires begins { search.old.poss.items ≡ phase.pulse.old.now.values }
    requires values { length values.old ≡ length phase.circuit.now.ops }
    requires marked { length marked.old ≡ length phase.circuit.now.ops }
    requires live { AreNets (length phase.circuit.now.ops) phase.clocks.now }
    requires clear { (k : ℕ) → is_up marked.old k ≡ false }
    requires ready { IsReady phase.circuit.now values.old }
    ensures search { IsSearch phase.entry.circuit.now search.new }
    ensures least { (view : ℕ → ℕ → Tri) → AreViews (logic_at phase.entry.circuit.now) (pulse_at phase.entry.pulse) (spec.value_at search.new.poss.items) view → IsLeast (logic_at phase.entry.circuit.now) (pulse_at phase.entry.pulse) (spec.value_at search.new.poss.items) view }
    ensures next { (view : ℕ → ℕ → Tri) → AreViews (logic_at phase.entry.circuit.now) (pulse_at phase.entry.pulse) (spec.value_at search.new.poss.items) view → AreNext (logic_at phase.entry.circuit.now) (pulse_at phase.entry.pulse) view search.new.poss.items search.new.next.items }
    ensures clear { (k : ℕ) → is_up marked.new k ≡ false }
    ensures ready { IsReady phase.entry.circuit.now values.new }
{
    let alone = is_alone(phase.circuit, phase.pulse.pulsed, phase.clocks);
    while turn(phase, alone, search, values, marked) {}
}
