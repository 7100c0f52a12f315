//! All plans: which is for a pulse, and which is noted or made.

ghost use Rattle.std.specs.Prelude.{◌≡◌, ℕ, ◌<◌, length, true, false, IfSome};
ghost use Rattle.dft_logic.specs.Values as spec;
ghost use Rattle.dft_logic.specs.Circuit.{flag_at as is_up};
ghost use Rattle.dft_takings.specs.Views.{pulse_at};
ghost use Rattle.dft_cycle.specs.Views.{PulsesAmong};
ghost use Rattle.dft_cycle.specs.Plans.{ArePlans, LooseAreUnknown, IsFoundAt};

use crate::phases::Phase;
use crate::plans::{Pins, Plan, Sketch, Stage, draw};
use dft_base::Tri;
use dft_netlist::NetId;
use dft_takings::{Pulse, settle_list};

// The plans of the last phases that came again, and what they are made from, with room for a list. Then the places of the plan that was noted
// last and of the one that was taken last.
pub(crate) struct Plans {
    pub pins: Pins,
    pub sketch: Sketch,
    pub list: Vec<NetId>,
    pub plans: Vec<Plan>,
    pub noted: usize,
    pub taken: usize,
}

// One call for all fields, so that the proof of what owns a value stays short.
impl Drop for Plans {
    fn drop(self) {
        let Plans {
            pins: _,
            sketch: _,
            list: _,
            plans: _,
            noted: _,
            taken: _,
        } = self;
    }
}

// The place of the plan for a pulse, where nets have these values.
fn find_plan(
    plans: &[Plan],
    clocks: &[NetId],
    pins: &Pins,
    pulse: Pulse<'_>,
    values: &[Tri],
) -> Option<usize>
    ensures { IfSome result (λ place. place < length plans.now) }
{
    for (place, plan) in plans.iter().enumerate() {
        if plan.fits(clocks, pins, pulse, values) {
            return Some(place);
        }
    }
    None
}

// The place that is noted next: the one after the last, but not the one that was taken last.
pub(crate) fn next_place(noted: usize, taken: usize, count: usize) -> usize
    requires { 0 < count }
    ensures { result < count }
{
    let place = place_after(noted, count);
    if place == taken {
        place_after(place, count)
    } else {
        place
    }
}

// The place after one, round about.
fn place_after(place: usize, count: usize) -> usize
    requires { 0 < count }
    ensures { result < count }
{
    if place < count - 1 { place + 1 } else { 0 }
}

impl Plans {
    // Notes a plan for a phase, in place of another.
    fn note(&mut self, phase: Phase<'_>, values: &[Tri])
        requires plans { ArePlans phase.circuit.now phase.clocks.now phase.pulse.old.now.layout self.old }
        ensures { ArePlans phase.entry.circuit.now phase.entry.clocks.now phase.entry.pulse.old.now.layout self.new }
    {
        let place = next_place(self.noted, self.taken, self.plans.len());
        self.plans[place].note(phase, &self.pins, values, Stage::Noted);
        self.noted = place;
    }

    // Makes the plan at a place for a phase, if all flip-flops take what is still.
    fn make(&mut self, phase: Phase<'_>, place: usize, values: &mut [Tri], marked: &mut [bool])
        requires plans { ArePlans phase.circuit.now phase.clocks.now phase.pulse.old.now.layout self.old }
        requires live { place < length self.old.plans.items }
        requires among { PulsesAmong phase.pulse.pulsed.now phase.clocks.now }
        requires ports { length phase.pulse.ports.now ≡ length phase.circuit.now.ops }
        requires values { length values.old ≡ length phase.circuit.now.ops }
        requires marked { length marked.old ≡ length phase.circuit.now.ops }
        requires clear { (k : ℕ) → is_up marked.old k ≡ false }
        requires cells { length phase.pulse.old.now.values ≡ length phase.circuit.now.flops }
        ensures plans { ArePlans phase.entry.circuit.now phase.entry.clocks.now phase.entry.pulse.old.now.layout self.new }
        ensures count { length self.new.plans.items ≡ length self.old.plans.items }
        ensures clear { (k : ℕ) → is_up marked.new k ≡ false }
    {
        let plan = &mut self.plans[place];
        if draw(phase, &mut self.sketch, values) {
            plan.fill(
                phase.circuit,
                phase.pulse.old,
                &self.sketch.entries,
                marked,
                &mut self.list,
            );
            plan.note(phase, &self.pins, values, Stage::Made);
        } else {
            plan.stage = Stage::Barred;
        }
    }

    // The place of the plan for a phase, which is made if the phase came before. Where there is none, one is noted.
    fn choose(&mut self, phase: Phase<'_>, values: &mut [Tri], marked: &mut [bool]) -> Option<usize>
        requires plans { ArePlans phase.circuit.now phase.clocks.now phase.pulse.old.now.layout self.old }
        requires among { PulsesAmong phase.pulse.pulsed.now phase.clocks.now }
        requires ports { length phase.pulse.ports.now ≡ length phase.circuit.now.ops }
        requires values { length values.old ≡ length phase.circuit.now.ops }
        requires marked { length marked.old ≡ length phase.circuit.now.ops }
        requires clear { (k : ℕ) → is_up marked.old k ≡ false }
        requires cells { length phase.pulse.old.now.values ≡ length phase.circuit.now.flops }
        ensures plans { ArePlans phase.entry.circuit.now phase.entry.clocks.now phase.entry.pulse.old.now.layout self.new }
        ensures live { IfSome result (λ place. place < length self.new.plans.items) }
        ensures clear { (k : ℕ) → is_up marked.new k ≡ false }
    {
        let nets = &self.pins.list[..self.pins.count];
        settle_list(phase.circuit, phase.pulse, nets, values);
        match find_plan(&self.plans, phase.clocks, &self.pins, phase.pulse, values) {
            Some(place) => {
                self.taken = place;
                if self.plans[place].is_noted() {
                    self.make(phase, place, values, marked);
                }
                Some(place)
            }
            None => {
                self.note(phase, values);
                None
            }
        }
    }

    // Finds what flip-flops take in a phase by a plan, if there is one for it: the place of the plan.
    pub(crate) fn find(
        &mut self,
        phase: Phase<'_>,
        values: &mut [Tri],
        marked: &mut [bool],
        row: &mut [Tri],
    ) -> Option<usize>
        requires plans { ArePlans phase.circuit.now phase.clocks.now phase.pulse.old.now.layout self.old }
        requires among { PulsesAmong phase.pulse.pulsed.now phase.clocks.now }
        requires ports { length phase.pulse.ports.now ≡ length phase.circuit.now.ops }
        requires values { length values.old ≡ length phase.circuit.now.ops }
        requires marked { length marked.old ≡ length phase.circuit.now.ops }
        requires clear { (k : ℕ) → is_up marked.old k ≡ false }
        requires row { length row.old ≡ length phase.circuit.now.flops }
        requires cells { length phase.pulse.old.now.values ≡ length phase.circuit.now.flops }
        requires loose { LooseAreUnknown phase.circuit.now (spec.value_at phase.pulse.old.now.values) }
        ensures plans { ArePlans phase.entry.circuit.now phase.entry.clocks.now phase.entry.pulse.old.now.layout self.new }
        ensures clear { (k : ℕ) → is_up marked.new k ≡ false }
        ensures live { IfSome result (λ place. place < length self.new.plans.items) }
        ensures found { IfSome result (λ place. IsFoundAt phase.entry.circuit.now (pulse_at phase.entry.pulse) phase.entry.pulse.old.now self.new.plans.items place row.new) }
    {
        match self.choose(phase, values, marked) {
            Some(place) => if self.plans[place].find(phase, &self.pins, values, row) {
                Some(place)
            } else {
                None
            },
            None => None,
        }
    }
}
