//! The value that a net's driver gives it.

ghost use Rattle.std.specs.Prelude.{◌≡◌, ◌≤◌, length, map, take, if◌then◌else◌};
ghost use Rattle.dft_cells.specs.Gates as gates;
ghost use Rattle.dft_cells.specs.WellFormed.{TakesInputs};
ghost use Rattle.dft_behavior.specs.Settled as settled;
ghost use Rattle.dft_behavior.specs.Settled.{value_from, value_given};
ghost use Rattle.dft_logic.specs.Circuit.{Fits, meaning, source_at};
ghost use Rattle.dft_logic.specs.Values as spec;
ghost use Rattle.dft_sweep.specs.Fields.{cell_shown, port_shown, sources_of};

use crate::field::Sources;
use dft_base::Tri;
use dft_cells::{Gate, tri_of};
use dft_logic::{Op, Operand, Operands, flag_at, value_at};
use dft_netlist::NetId;

// The most inputs that a gate or a table has.
const MAX_INPUTS: usize = 8;

// Writes the values of operands, in order.
fn gather(inputs: &[Operand], values: &[Tri], row: &mut [Tri])
    requires { length inputs.now ≤ length row.old }
    ensures { take (length inputs.now) row.new ≡ map (value_from (spec.value_at values.now)) (map source_at inputs.now) }
{
    for (place, input) in inputs.iter().enumerate() {
        row[place] = input.value(values);
    }
}

// The value of a gate with any number of inputs.
fn value_of_many(kind: Gate, inputs: &[Operand], values: &[Tri]) -> Tri
    requires { TakesInputs kind (length inputs.now) }
    ensures { result ≡ gates.tri_of kind (map (value_from (spec.value_at values.now)) (map source_at inputs.now)) }
{
    let mut row = [Tri::Unknown; MAX_INPUTS];
    gather(inputs, values, &mut row);
    tri_of(kind, &row[..inputs.len()])
}

// The value of a gate. Most gates have two or three inputs, which need no room in between.
fn gate_value(kind: Gate, inputs: &Operands, values: &[Tri]) -> Tri
    requires { TakesInputs kind (length inputs.now) }
    ensures { result ≡ gates.tri_of kind (map (value_from (spec.value_at values.now)) (map source_at inputs.now)) }
{
    match inputs.as_slice() {
        [one, two] => tri_of(kind, &[one.value(values), two.value(values)]),
        [one, two, three] => {
            let row = [one.value(values), two.value(values), three.value(values)];
            tri_of(kind, &row)
        }
        inputs => value_of_many(kind, inputs, values),
    }
}

// The inverse where asked for.
fn inverted(value: Tri, inverse: bool) -> Tri
    ensures { result ≡ (if inverse then settled.inverse value else value) }
{
    match (inverse, value) {
        (true, Tri::Zero) => Tri::One,
        (true, Tri::One) => Tri::Zero,
        _ => value,
    }
}

impl Sources<'_> {
    // The value of the bit of a port.
    fn port(&self, net: NetId) -> Tri
        ensures { result ≡ port_shown self.now net.0 }
    {
        if flag_at(self.resets, net.0) {
            Tri::One
        } else {
            value_at(self.ports, net.0)
        }
    }

    // The value of the flip-flop of an instance.
    fn cell(&self, instance: u32) -> Tri
        ensures { result ≡ cell_shown self.now instance }
    {
        if flag_at(self.holds, instance) {
            value_at(self.cells, instance)
        } else {
            Tri::Unknown
        }
    }
}

// The value that a net's driver gives it.
pub(crate) fn op_value(op: &Op, net: NetId, sources: &Sources<'_>, values: &[Tri]) -> Tri
    requires { Fits op.now }
    ensures { result ≡ value_given (sources_of sources.now) (spec.value_at values.now) net.0 (meaning op.now) }
{
    match op {
        Op::Input => sources.port(net),
        Op::Clock => Tri::Zero,
        Op::Gate(kind, inputs) => gate_value(*kind, inputs, values),
        Op::Joined(source) => source.value(values),
        Op::Flop(instance, inverse) => inverted(sources.cell(instance.0), *inverse),
        Op::Lockup(_, _, _, _) | Op::Free => Tri::Unknown,
    }
}
