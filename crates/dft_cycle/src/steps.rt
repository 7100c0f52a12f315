//! Steps: what the nets of a list take their values from, packed for lists that are settled again and again.

ghost use Rattle.std.specs.Prelude.{◌≡◌, ℕ, ◌<◌, ◌≤◌, true, [], ◌∷◌, All, length, map};
ghost use Rattle.std.specs.Vec.{vec_capacity};
ghost use Rattle.dft_netlist.specs.Drivers as drivers;
ghost use Rattle.dft_behavior.specs.Logic as meanings;
ghost use Rattle.dft_netlist.specs.Orders.{Has, numbers_of};
ghost use Rattle.dft_behavior.specs.Settled.{value_given};
ghost use Rattle.dft_abstract.specs.Cycle.{level_before};
ghost use Rattle.dft_takings.specs.Needs.{before_from, strobe_from};
ghost use Rattle.dft_logic.specs.Values as spec;
ghost use Rattle.dft_logic.specs.Circuit.{AreOrdered, Fits, meaning, op_at, source_at};
ghost use Rattle.dft_takings.specs.Views.{pulse_at};
ghost use Rattle.dft_cycle.specs.Steps.{told, told_by, step_nets, IsWithin, IsStep};

use dft_base::Tri;
use dft_cells::{Gate, and, mux, not, or, xor};
use dft_logic::{Circuit, Op, Operand, flag_at, value_at};
use dft_netlist::NetId;
use dft_registers::Cells;
use dft_takings::{Pulse, inverted, is_wire, op_before};

// What a step's net takes its value from.
#[derive(Clone, Copy)]
pub(crate) enum What {
    // A gate whose inputs are nets.
    Buf,
    Inv,
    And,
    Nand,
    Or,
    Nor,
    Xor,
    Xnor,
    Mux2,
    // Another net.
    Joined,
    // The flip-flop of an instance, or its inverse.
    Flop,
    Inverse,
    // A lock-up that is a wire while its clock is low, or high: a net, its instance, and the net of its clock.
    Low,
    High,
    // What the circuit says of the net.
    Other,
}

// How a net gets its value: by up to three numbers, of nets and instances.
#[derive(Clone, Copy)]
pub(crate) struct Step {
    pub net: NetId,
    pub what: What,
    pub first: u32,
    pub second: u32,
    pub third: u32,
}

// ---- making steps

// A gate of this kind with one input.
fn gate_of_one(kind: Gate) -> What
    ensures { (a b c : ℕ) → meanings.Gate kind (drivers.Net a ∷ []) ≡ told result a b c (meanings.Gate kind (drivers.Net a ∷ [])) }
{
    match kind {
        Gate::Buf => What::Buf,
        Gate::Inv => What::Inv,
        _ => What::Other,
    }
}

// A gate of this kind with two inputs.
fn gate_of_two(kind: Gate) -> What
    ensures { (a b c : ℕ) → meanings.Gate kind (drivers.Net a ∷ drivers.Net b ∷ []) ≡ told result a b c (meanings.Gate kind (drivers.Net a ∷ drivers.Net b ∷ [])) }
{
    match kind {
        Gate::And => What::And,
        Gate::Nand => What::Nand,
        Gate::Or => What::Or,
        Gate::Nor => What::Nor,
        Gate::Xor => What::Xor,
        Gate::Xnor => What::Xnor,
        _ => What::Other,
    }
}

// A gate of this kind with three inputs.
fn gate_of_three(kind: Gate) -> What
    ensures { (a b c : ℕ) → meanings.Gate kind (drivers.Net a ∷ drivers.Net b ∷ drivers.Net c ∷ []) ≡ told result a b c (meanings.Gate kind (drivers.Net a ∷ drivers.Net b ∷ drivers.Net c ∷ [])) }
{
    match kind {
        Gate::Mux2 => What::Mux2,
        _ => What::Other,
    }
}

// The step of a net that a gate drives.
fn step_of_gate(net: NetId, kind: Gate, inputs: &[Operand]) -> Step
    ensures net { result.net ≡ net }
    ensures told { meanings.Gate kind (map source_at inputs.now) ≡ told_by result (meanings.Gate kind (map source_at inputs.now)) }
{
    match inputs {
        [Operand::Net(one)] => Step {
            net,
            what: gate_of_one(kind),
            first: one.0,
            second: 0,
            third: 0,
        },
        [Operand::Net(one), Operand::Net(two)] => Step {
            net,
            what: gate_of_two(kind),
            first: one.0,
            second: two.0,
            third: 0,
        },
        [Operand::Net(one), Operand::Net(two), Operand::Net(three)] => Step {
            net,
            what: gate_of_three(kind),
            first: one.0,
            second: two.0,
            third: three.0,
        },
        _ => other(net),
    }
}

// The step of a net that the circuit is asked for.
fn other(net: NetId) -> Step
    ensures { result ≡ record { net = net; what = What.Other; first = 0; second = 0; third = 0 } }
{
    Step {
        net,
        what: What::Other,
        first: 0,
        second: 0,
        third: 0,
    }
}

// The step of a net that takes its value so.
fn step_of(net: NetId, op: &Op) -> Step
    ensures net { result.net ≡ net }
    ensures told { meaning op.now ≡ told_by result (meaning op.now) }
{
    match op {
        Op::Gate(kind, inputs) => step_of_gate(net, *kind, inputs.as_slice()),
        Op::Joined(Operand::Net(source)) => Step {
            net,
            what: What::Joined,
            first: source.0,
            second: 0,
            third: 0,
        },
        Op::Flop(instance, inverse) => Step {
            net,
            what: if *inverse { What::Inverse } else { What::Flop },
            first: instance.0,
            second: 0,
            third: 0,
        },
        Op::Lockup(instance, clock, high, Operand::Net(source)) => Step {
            net,
            what: if *high { What::High } else { What::Low },
            first: source.0,
            second: instance.0,
            third: clock.0,
        },
        _ => other(net),
    }
}

// Whether the nets that a step reads are below this number.
fn is_within(step: &Step, count: usize) -> bool
    ensures { result ≡ true → IsWithin step.now.what step.now.first step.now.second step.now.third count }
{
    match step.what {
        What::Flop | What::Inverse | What::Other => true,
        _ => {
            let first = (step.first as usize) < count;
            let second = (step.second as usize) < count;
            first && second && (step.third as usize) < count
        }
    }
}

// The step of a net of a circuit.
fn step_at(circuit: &Circuit, net: NetId) -> Step
    ensures net { result.net ≡ net }
    ensures step { IsStep circuit.now result }
{
    match circuit.ops.get(net.0 as usize) {
        Some(op) => {
            let step = step_of(net, op);
            if is_within(&step, circuit.ops.len()) {
                step
            } else {
                other(net)
            }
        }
        None => other(net),
    }
}

// Lists the steps of nets, in their order.
pub(crate) fn list_steps(circuit: &Circuit, nets: &[NetId], steps: &mut Vec<Step>)
    requires { length nets.now ≤ vec_capacity steps.old }
    ensures nets { step_nets steps.new.items ≡ nets.now }
    ensures steps { All (IsStep circuit.now) steps.new.items }
    ensures room { vec_capacity steps.new ≡ vec_capacity steps.old }
{
    steps.clear();
    for net in nets {
        steps.push_reserved(step_at(circuit, *net));
    }
}

// ---- settling by steps

// The level of a clock before the edges of a phase.
fn level(pulse: Pulse<'_>, clock: u32) -> bool
    ensures { result ≡ level_before (pulse_at pulse.entry) clock }
{
    flag_at(pulse.pulsed, clock) && !pulse.rising
}

// The value that the circuit gives a net before the edges of a phase.
#[inline(never)]
fn net_before(circuit: &Circuit, net: NetId, pulse: Pulse<'_>, values: &[Tri]) -> Tri
    ensures { result ≡ value_given (before_from (pulse_at pulse.entry) (spec.value_at values.now)) (spec.value_at values.now) net.0 (meaning (op_at circuit.now.ops net.0)) }
{
    match circuit.ops.get(net.0 as usize) {
        Some(op) => op_before(op, net, pulse, values),
        None => Tri::Unknown,
    }
}

// The value of a net that is there.
fn at(values: &[Tri], net: u32) -> Tri
    requires { net < length values.now }
    ensures { result ≡ spec.value_at values.now net }
{
    values[net as usize]
}

impl Step {
    // What a lock-up shows.
    fn shown(&self, high: bool, pulse: Pulse<'_>, values: &[Tri]) -> Tri
        requires { self.now.first < length values.now }
        ensures { result ≡ value_given (before_from (pulse_at pulse.entry) (spec.value_at values.now)) (spec.value_at values.now) self.now.net.0 (meanings.Lockup self.now.second self.now.third high (drivers.Net self.now.first)) }
    {
        if is_wire(high, level(pulse, self.third)) {
            at(values, self.first)
        } else {
            pulse.old.at(self.second as usize)
        }
    }

    // The value that it gives its net before the edges of a phase.
    fn value(&self, circuit: &Circuit, pulse: Pulse<'_>, values: &[Tri]) -> Tri
        requires within { IsWithin self.now.what self.now.first self.now.second self.now.third (length values.now) }
        ensures { result ≡ value_given (before_from (pulse_at pulse.entry) (spec.value_at values.now)) (spec.value_at values.now) self.now.net.0 (told_by self.now (meaning (op_at circuit.now.ops self.now.net.0))) }
    {
        match self.what {
            What::Buf => at(values, self.first),
            What::Inv => not(at(values, self.first)),
            What::And => and(at(values, self.first), at(values, self.second)),
            What::Nand => not(and(at(values, self.first), at(values, self.second))),
            What::Or => or(at(values, self.first), at(values, self.second)),
            What::Nor => not(or(at(values, self.first), at(values, self.second))),
            What::Xor => xor(at(values, self.first), at(values, self.second)),
            What::Xnor => not(xor(at(values, self.first), at(values, self.second))),
            What::Mux2 => mux(
                at(values, self.first),
                at(values, self.second),
                at(values, self.third),
            ),
            What::Joined => at(values, self.first),
            What::Flop => pulse.old.at(self.first as usize),
            What::Inverse => inverted(pulse.old.at(self.first as usize), true),
            What::Low => self.shown(false, pulse, values),
            What::High => self.shown(true, pulse, values),
            What::Other => net_before(circuit, self.net, pulse, values),
        }
    }
}

// Settles the nets of steps before the edges of a phase, whatever the values before.
pub(crate) fn settle_steps(circuit: &Circuit, pulse: Pulse<'_>, steps: &[Step], values: &mut [Tri])
    requires values { length values.old ≡ length circuit.now.ops }
    requires steps { All (IsStep circuit.now) steps.now }
    requires ordered { AreOrdered circuit.now.ops [] (numbers_of (step_nets steps.now)) }
    ensures { (k : ℕ) → Has (numbers_of (step_nets steps.now)) k → spec.value_at values.new k ≡ value_given (before_from (pulse_at pulse.entry) (spec.value_at values.new)) (spec.value_at values.new) k (meaning (op_at circuit.now.ops k)) }
{
    for step in steps {
        let value = step.value(circuit, pulse, values);
        values[step.net.0 as usize] = value;
    }
}

// Settles them for a strobe.
pub(crate) fn strobe_steps(
    circuit: &Circuit,
    ports: &[Tri],
    cells: &Cells<Tri>,
    steps: &[Step],
    values: &mut [Tri],
)
    requires values { length values.old ≡ length circuit.now.ops }
    requires steps { All (IsStep circuit.now) steps.now }
    requires ordered { AreOrdered circuit.now.ops [] (numbers_of (step_nets steps.now)) }
    ensures { (k : ℕ) → Has (numbers_of (step_nets steps.now)) k → spec.value_at values.new k ≡ value_given (strobe_from (spec.value_at ports.now) (spec.value_at cells.now.values) (spec.value_at values.new)) (spec.value_at values.new) k (meaning (op_at circuit.now.ops k)) }
{
    let pulse = Pulse {
        rising: true,
        ports,
        pulsed: &[],
        old: cells,
    };
    settle_steps(circuit, pulse, steps, values);
}
