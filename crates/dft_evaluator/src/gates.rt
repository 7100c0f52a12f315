//! The outputs of gates and tables in 512 patterns.

ghost use Rattle.std.specs.Prelude.{◌≡◌, ℕ, ◌<◌, ◌≤◌, ◌+◌, ◌*◌, ◌^◌, List, length, map};
ghost use Rattle.dft_cells.specs.Gates.{shared, all_one, any_one, odd_ones, bit_of_number, number_of, tri_of};
ghost use Rattle.dft_cells.specs.WellFormed.{TakesInputs};
ghost use Rattle.dft_behavior.specs.Settled.{value_from};
ghost use Rattle.dft_logic.specs.Circuit.{source_at, meaning, Fits};
ghost use Rattle.dft_evaluator.specs.Wides.{IsWide, AreWides, values_in};
ghost use Rattle.dft_evaluator.specs.Evaluations.{value_set};

use crate::wides::{all, unknown, wide_at};
use dft_base::Tri;
use dft_cells::Gate;
use dft_lanes::{Wide, wide_and, wide_mux, wide_not, wide_or, wide_xor};
use dft_logic::{Op, Operand};
use dft_netlist::NetId;

/// What an operand can be.
pub fn operand(operand: &Operand, wides: &[Wide]) -> Wide
    requires { AreWides wides.now }
    ensures { IsWide result (λ p. value_from (values_in wides.now p) (source_at operand.now)) }
{
    match operand {
        Operand::Net(net) => wide_at(wides, net.0),
        Operand::Tied(bit) => all(if *bit { Tri::One } else { Tri::Zero }),
        Operand::Loose(_, _) => unknown(),
    }
}

fn and_of(inputs: &[Operand], wides: &[Wide]) -> Wide
    requires { AreWides wides.now }
    ensures { IsWide result (λ p. shared all_one (map (value_from (values_in wides.now p)) (map source_at inputs.now))) }
{
    let mut result = all(Tri::One);
    for input in inputs {
        result = wide_and(&result, &operand(input, wides));
    }
    result
}

fn or_of(inputs: &[Operand], wides: &[Wide]) -> Wide
    requires { AreWides wides.now }
    ensures { IsWide result (λ p. shared any_one (map (value_from (values_in wides.now p)) (map source_at inputs.now))) }
{
    let mut result = all(Tri::Zero);
    for input in inputs {
        result = wide_or(&result, &operand(input, wides));
    }
    result
}

fn xor_of(inputs: &[Operand], wides: &[Wide]) -> Wide
    requires { AreWides wides.now }
    ensures { IsWide result (λ p. shared odd_ones (map (value_from (values_in wides.now p)) (map source_at inputs.now))) }
{
    let mut result = all(Tri::Zero);
    for input in inputs {
        result = wide_xor(&result, &operand(input, wides));
    }
    result
}

// What the table gives at the inputs, where those before them put it at this place and the next one weighs this.
fn table_of(table: u64, inputs: &[Operand], wides: &[Wide], place: u32, weight: u32) -> Wide
    requires wides { AreWides wides.now }
    requires place { place + weight * 2 ^ length inputs.now < 64 + weight }
    requires weight { weight < 128 }
    ensures { IsWide result (λ p. shared (λ bits. bit_of_number table (place + weight * number_of bits)) (map (value_from (values_in wides.now p)) (map source_at inputs.now))) }
{
    match inputs {
        [] => all(if (table >> place) % 2 == 1 {
            Tri::One
        } else {
            Tri::Zero
        }),
        [input, rest @ ..] => wide_mux(
            &table_of(table, rest, wides, place, 2 * weight),
            &table_of(table, rest, wides, place + weight, 2 * weight),
            &operand(input, wides),
        ),
    }
}

// The output of a gate, a table or a tie.
fn gate(kind: Gate, inputs: &[Operand], wides: &[Wide]) -> Wide
    requires takes { TakesInputs kind (length inputs.now) }
    requires wides { AreWides wides.now }
    ensures { IsWide result (λ p. tri_of kind (map (value_from (values_in wides.now p)) (map source_at inputs.now))) }
{
    match kind {
        Gate::Buf => operand(&inputs[0], wides),
        Gate::Inv => wide_not(&operand(&inputs[0], wides)),
        Gate::And => and_of(inputs, wides),
        Gate::Nand => wide_not(&and_of(inputs, wides)),
        Gate::Or => or_of(inputs, wides),
        Gate::Nor => wide_not(&or_of(inputs, wides)),
        Gate::Xor => xor_of(inputs, wides),
        Gate::Xnor => wide_not(&xor_of(inputs, wides)),
        Gate::Mux2 => wide_mux(
            &operand(&inputs[0], wides),
            &operand(&inputs[1], wides),
            &operand(&inputs[2], wides),
        ),
        Gate::Table(table) => table_of(table, inputs, wides, 0, 1),
        Gate::Tie0 => all(Tri::Zero),
        Gate::Tie1 => all(Tri::One),
    }
}

/// What a net can be: the output of its gate or join, and a source what it is.
pub fn op_wide(op: &Op, net: NetId, wides: &[Wide]) -> Wide
    requires fits { Fits op.now }
    requires wides { AreWides wides.now }
    ensures { IsWide result (λ p. value_set (values_in wides.now p) (values_in wides.now p) net.0 (meaning op.now)) }
{
    match op {
        Op::Gate(kind, inputs) => gate(*kind, inputs.as_slice(), wides),
        Op::Joined(source) => operand(source, wides),
        _ => wide_at(wides, net.0),
    }
}
