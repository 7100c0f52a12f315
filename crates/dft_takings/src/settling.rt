//! The settled values of all nets, in an order.

ghost use Rattle.std.specs.Prelude.{◌≡◌, ℕ, ◌<◌, ◌≤◌, [], length, map, take, true, false, ◌==◌, ◌&&◌, if◌then◌else◌};
ghost use Rattle.dft_behavior.specs.Settled.{value_from, value_given, IsTriSettled};
ghost use Rattle.dft_behavior.specs.Settled as settled;
ghost use Rattle.dft_cells.specs.Gates as gates;
ghost use Rattle.dft_cells.specs.WellFormed.{TakesInputs};
ghost use Rattle.dft_behavior.specs.Runs as runs;
ghost use Rattle.dft_abstract.specs.Cycle as cycle;
ghost use Rattle.dft_abstract.specs.Cycle.{clock_value};
ghost use Rattle.dft_logic.specs.Values as spec;
ghost use Rattle.dft_logic.specs.Circuit.{source_at, meaning, op_at, logic_at, Fits, leaves_from, cell_of, cell_at};
ghost use Rattle.dft_takings.specs.Views.{pulse_at, before_base, view_base};
ghost use Rattle.dft_logic.specs.Circuit as circuits;

use dft_base::Tri;
use dft_cells::{Gate, tri_of};
use dft_logic::{Circuit, FlipFlop, Op, Operand, Operands, domain_at, flag_at, takes, value_at};
use dft_netlist::NetId;
use dft_registers::Cells;

// The most inputs that a gate or a table has.
const MAX_INPUTS: usize = 8;

/// A phase of a pulse of some domains, its clocks rise or they fall: the values of ports by net, the clocks that pulse by
/// net, and the values of flip-flops and lock-ups before.
#[derive(Clone, Copy)]
pub struct Pulse<'a> {
    pub rising: bool,
    pub ports: &'a [Tri],
    pub pulsed: &'a [bool],
    pub old: &'a Cells<Tri>,
}

/// The view of a domain in a phase: what flip-flops of other pulsed domains may have, and what lock-ups show that take
/// their bits in it, by instance.
#[derive(Clone, Copy)]
pub struct View<'p, 'q, 'h> {
    pub pulse: Pulse<'p>,
    pub domain: NetId,
    pub poss: &'q [Tri],
    pub held: &'h [Tri],
}

/// A view of net 0 in a phase in which no clock pulses, as that of a strobe: what flip-flops of pulsed domains may have, and
/// what lock-ups take that close, is left out (Unknown).
pub fn strobe_view(pulse: Pulse<'_>) -> View<'_, '_, '_>
    ensures pulse { result.pulse ≡ pulse.entry }
    ensures domain { result.domain ≡ record { 0 = 0 } }
    ensures poss { result.poss.now ≡ [] }
    ensures held { result.held.now ≡ [] }
{
    View {
        pulse,
        domain: NetId(0),
        poss: &[],
        held: &[],
    }
}

// Whether the flip-flop of an instance takes a value in a phase.
pub(crate) fn changes_at(flops: &[FlipFlop], rising: bool, pulsed: &[bool], instance: u32) -> bool
    ensures { result ≡ circuits.flag_at pulsed.now (cell_at (map cell_of flops.now) instance).domain && runs.takes rising (cell_at (map cell_of flops.now) instance).falling }
{
    match flops.get(instance as usize) {
        Some(flop) => flop.changes(rising, pulsed),
        None => flag_at(pulsed, 0) && takes(rising, false),
    }
}

impl View<'_, '_, '_> {
    // The value of a clock.
    fn clock(&self, net: NetId) -> Tri
        ensures { result ≡ clock_value (pulse_at self.now.pulse) self.now.domain.0 net.0 }
    {
        if !flag_at(self.pulse.pulsed, net.0) {
            Tri::Zero
        } else if net.0 != self.domain.0 {
            Tri::Unknown
        } else if self.pulse.rising {
            Tri::Zero
        } else {
            Tri::One
        }
    }

    // The value of the flip-flop of an instance.
    fn flop(&self, flops: &[FlipFlop], instance: u32) -> Tri
        ensures { result ≡ (view_base (map cell_of flops.now) self.now).flops instance }
    {
        let moved = changes_at(flops, self.pulse.rising, self.pulse.pulsed, instance);
        if moved && domain_at(flops, instance).0 != self.domain.0 {
            value_at(self.poss, instance)
        } else {
            self.pulse.old.at(instance as usize)
        }
    }

    // What a lock-up shows that takes its bit in the phase.
    fn closing(&self, up: bool, instance: u32) -> Tri
        ensures { result ≡ cycle.closing self.now.pulse.rising up (spec.value_at self.now.pulse.old.now.values instance) (spec.value_at self.now.held.now instance) }
    {
        if self.pulse.rising || up {
            value_at(self.held, instance)
        } else {
            self.pulse.old.at(instance as usize)
        }
    }

    // What the lock-up of an instance and a clock shows, by the value of its input.
    fn lockup(&self, instance: u32, clock: NetId, high: bool, input: Tri) -> Tri
        ensures { result ≡ cycle.lockup_shown self.now.pulse.rising (circuits.flag_at self.now.pulse.pulsed.now clock.0) (clock.0 == self.now.domain.0) high (spec.value_at self.now.pulse.old.now.values instance) input (spec.value_at self.now.held.now instance) }
    {
        let up = flag_at(self.pulse.pulsed, clock.0);
        if takes(self.pulse.rising, high) {
            self.closing(up, instance)
        } else {
            opening(
                up,
                clock.0 == self.domain.0,
                high,
                self.pulse.old.at(instance as usize),
                input,
            )
        }
    }
}

impl Pulse<'_> {
    // The level of a clock before its edge.
    pub(crate) fn level(&self, clock: NetId) -> bool
        ensures { result ≡ cycle.level_before (pulse_at self.now) clock.0 }
    {
        flag_at(self.pulsed, clock.0) && !self.rising
    }
}

/// Whether a lock-up is a wire while its clock has this level.
pub fn is_wire(high: bool, level: bool) -> bool
    ensures { result ≡ settled.is_wire high level }
{
    if high { level } else { !level }
}

// What another lock-up shows, by what it holds and the value of its input.
fn opening(up: bool, own: bool, high: bool, held: Tri, input: Tri) -> Tri
    ensures { result ≡ cycle.opening up own high held input }
{
    match (up, own, high) {
        (true, true, _) => held,
        (true, false, _) => held.join(input),
        (false, _, true) => held,
        (false, _, false) => input,
    }
}

// Writes the values of operands, in order.
fn gather(inputs: &[Operand], values: &[Tri], row: &mut [Tri])
    requires { length inputs.now ≤ length row.old }
    ensures { take (length inputs.now) row.new ≡ map (value_from (spec.value_at values.now)) (map source_at inputs.now) }
{
    for (place, input) in inputs.iter().enumerate() {
        row[place] = input.value(values);
    }
}

/// The inverse where asked for.
pub fn inverted(value: Tri, inverse: bool) -> Tri
    ensures { result ≡ (if inverse then settled.inverse value else value) }
{
    match (inverse, value) {
        (true, Tri::Zero) => Tri::One,
        (true, Tri::One) => Tri::Zero,
        _ => value,
    }
}

// The value of a gate with any number of inputs.
fn value_of_many(kind: Gate, inputs: &[Operand], values: &[Tri]) -> Tri
    requires { TakesInputs kind (length inputs.now) }
    ensures { result ≡ gates.tri_of kind (map (value_from (spec.value_at values.now)) (map source_at inputs.now)) }
{
    let mut row = [Tri::Unknown; MAX_INPUTS];
    gather(inputs, values, &mut row);
    tri_of(kind, &row[..inputs.len()])
}

// The value of a gate. Most gates have two or three inputs, which need no room in between.
fn gate_value(kind: Gate, inputs: &Operands, values: &[Tri]) -> Tri
    requires { TakesInputs kind (length inputs.now) }
    ensures { result ≡ gates.tri_of kind (map (value_from (spec.value_at values.now)) (map source_at inputs.now)) }
{
    match inputs.as_slice() {
        [one, two] => tri_of(kind, &[one.value(values), two.value(values)]),
        [one, two, three] => {
            let row = [one.value(values), two.value(values), three.value(values)];
            tri_of(kind, &row)
        }
        inputs => value_of_many(kind, inputs, values),
    }
}

/// The value that a net's driver gives it.
pub fn op_value(
    op: &Op,
    net: NetId,
    flops: &[FlipFlop],
    view: &View<'_, '_, '_>,
    values: &[Tri],
) -> Tri
    requires { Fits op.now }
    ensures { result ≡ value_given (leaves_from (view_base (map cell_of flops.now) view.now) (spec.value_at values.now)) (spec.value_at values.now) net.0 (meaning op.now) }
{
    match op {
        Op::Input => value_at(view.pulse.ports, net.0),
        Op::Clock => view.clock(net),
        Op::Gate(kind, inputs) => gate_value(*kind, inputs, values),
        Op::Joined(source) => source.value(values),
        Op::Flop(instance, inverse) => inverted(view.flop(flops, instance.0), *inverse),
        Op::Lockup(instance, clock, high, source) => {
            view.lockup(instance.0, *clock, *high, source.value(values))
        }
        Op::Free => Tri::Unknown,
    }
}

/// The value that a net's driver gives it before the edges of a phase.
pub fn op_before(op: &Op, net: NetId, pulse: Pulse<'_>, values: &[Tri]) -> Tri
    requires { Fits op.now }
    ensures { result ≡ value_given (leaves_from (before_base (pulse_at pulse.entry)) (spec.value_at values.now)) (spec.value_at values.now) net.0 (meaning op.now) }
{
    match op {
        Op::Input => value_at(pulse.ports, net.0),
        Op::Clock => if pulse.level(net) {
            Tri::One
        } else {
            Tri::Zero
        },
        Op::Gate(kind, inputs) => gate_value(*kind, inputs, values),
        Op::Joined(source) => source.value(values),
        Op::Flop(instance, inverse) => inverted(pulse.old.at(instance.0 as usize), *inverse),
        Op::Lockup(instance, clock, high, source) => if is_wire(*high, pulse.level(*clock)) {
            source.value(values)
        } else {
            pulse.old.at(instance.0 as usize)
        },
        _ => Tri::Unknown,
    }
}

/// Settles all nets in a view, in the circuit's order.
pub fn settle(circuit: &Circuit, view: &View<'_, '_, '_>, values: &mut [Tri])
    requires values { length values.old ≡ length circuit.now.ops }
    ensures { IsTriSettled (logic_at circuit.now) (leaves_from (view_base (map cell_of circuit.now.flops) view.now) (spec.value_at values.new)) (spec.value_at values.new) }
{
    for net in &circuit.order {
        let value = op_value(
            &circuit.ops[net.0 as usize],
            *net,
            &circuit.flops,
            view,
            values,
        );
        values[net.0 as usize] = value;
    }
}
