//! The output of a gate, a table or a tie, over bits and over three-valued bits.

ghost use Rattle.std.specs.Prelude.{◌≡◌, ◌≤◌, ◌<◌, ◌+◌, ◌*◌, ◌^◌, length, if◌then◌else◌};
ghost use Rattle.dft_cells.specs.Gates as spec;
ghost use Rattle.dft_cells.specs.Tables as pairs;
ghost use Rattle.dft_cells.specs.WellFormed.{TakesInputs};

use crate::kind::Gate;
use dft_base::Tri;

/// The output bit of a gate, a table or a tie at its input bits (IEEE 1364 gate tables).
pub fn bit_of(gate: Gate, inputs: &[bool]) -> bool
    requires { TakesInputs gate (length inputs.now) }
    ensures { result ≡ spec.bit_of gate inputs.now }
{
    match gate {
        Gate::Buf => inputs[0],
        Gate::Inv => !inputs[0],
        Gate::And => are_all_one(inputs),
        Gate::Nand => !are_all_one(inputs),
        Gate::Or => is_one_there(inputs),
        Gate::Nor => !is_one_there(inputs),
        Gate::Xor => are_odd(inputs),
        Gate::Xnor => !are_odd(inputs),
        Gate::Mux2 => if inputs[2] { inputs[1] } else { inputs[0] },
        Gate::Table(table) => bit_of_table(table, inputs),
        Gate::Tie0 => false,
        Gate::Tie1 => true,
    }
}

fn are_all_one(inputs: &[bool]) -> bool
    ensures { result ≡ spec.all_one inputs.now }
{
    for input in inputs {
        if !*input {
            return false;
        }
    }
    true
}

fn is_one_there(inputs: &[bool]) -> bool
    ensures { result ≡ spec.any_one inputs.now }
{
    for input in inputs {
        if *input {
            return true;
        }
    }
    false
}

fn are_odd(inputs: &[bool]) -> bool
    ensures { result ≡ spec.odd_ones inputs.now }
{
    let mut odd = false;
    for input in inputs {
        odd = odd != *input;
    }
    odd
}

fn bit_of_table(table: u64, inputs: &[bool]) -> bool
    requires { length inputs.now ≤ 6 }
    ensures { result ≡ spec.bit_of_number table (spec.number_of inputs.now) }
{
    (table >> number_of(inputs)) % 2 == 1
}

fn number_of(inputs: &[bool]) -> u32
    requires { length inputs.now ≤ 6 }
    ensures number { result ≡ spec.number_of inputs.now }
    ensures small { result < 64 }
{
    let mut number = 0;
    let mut weight = 1;
    for input in inputs {
        number += weighed(*input, weight);
        weight *= 2;
    }
    number
}

fn weighed(bit: bool, weight: u32) -> u32
    ensures { result ≡ (if bit then weight else 0) }
{
    if bit { weight } else { 0 }
}

/// The bit that all completions of the unknown inputs share, and otherwise `Unknown`.
pub fn tri_of(gate: Gate, inputs: &[Tri]) -> Tri
    requires { TakesInputs gate (length inputs.now) }
    ensures { result ≡ spec.tri_of gate inputs.now }
{
    match gate {
        Gate::Buf => inputs[0],
        Gate::Inv => not(inputs[0]),
        Gate::And => and_of(inputs),
        Gate::Nand => not(and_of(inputs)),
        Gate::Or => or_of(inputs),
        Gate::Nor => not(or_of(inputs)),
        Gate::Xor => xor_of(inputs),
        Gate::Xnor => not(xor_of(inputs)),
        Gate::Mux2 => mux(inputs[0], inputs[1], inputs[2]),
        Gate::Table(table) => tri_of_table(table, inputs, 0, 1),
        Gate::Tie0 => Tri::Zero,
        Gate::Tie1 => Tri::One,
    }
}

/// The inverse.
pub fn not(value: Tri) -> Tri
    ensures { result ≡ pairs.not_tri value }
{
    match value {
        Tri::Zero => Tri::One,
        Tri::One => Tri::Zero,
        Tri::Unknown => Tri::Unknown,
    }
}

/// 0 where one is 0, 1 where both are 1 (IEEE 1364, gate tables).
pub fn and(a: Tri, b: Tri) -> Tri
    ensures { result ≡ pairs.and_tri a b }
{
    match (a, b) {
        (Tri::Zero, _) | (_, Tri::Zero) => Tri::Zero,
        (Tri::One, Tri::One) => Tri::One,
        _ => Tri::Unknown,
    }
}

/// 1 where one is 1, 0 where both are 0.
pub fn or(a: Tri, b: Tri) -> Tri
    ensures { result ≡ pairs.or_tri a b }
{
    match (a, b) {
        (Tri::One, _) | (_, Tri::One) => Tri::One,
        (Tri::Zero, Tri::Zero) => Tri::Zero,
        _ => Tri::Unknown,
    }
}

/// Whether they differ.
pub fn xor(a: Tri, b: Tri) -> Tri
    ensures { result ≡ pairs.xor_tri a b }
{
    match (a, b) {
        (Tri::Zero, _) => b,
        (Tri::One, _) => not(b),
        (Tri::Unknown, _) => Tri::Unknown,
    }
}

/// The second where the select is 1, the first where it is 0, and what both share where it is unknown.
pub fn mux(first: Tri, second: Tri, select: Tri) -> Tri
    ensures { result ≡ pairs.mux_tri first second select }
{
    match select {
        Tri::Zero => first,
        Tri::One => second,
        Tri::Unknown => first.join(second),
    }
}

fn and_of(inputs: &[Tri]) -> Tri
    ensures { result ≡ spec.shared spec.all_one inputs.now }
{
    let mut all = Tri::One;
    for input in inputs {
        all = and(all, *input);
    }
    all
}

fn or_of(inputs: &[Tri]) -> Tri
    ensures { result ≡ spec.shared spec.any_one inputs.now }
{
    let mut any = Tri::Zero;
    for input in inputs {
        any = or(any, *input);
    }
    any
}

fn xor_of(inputs: &[Tri]) -> Tri
    ensures { result ≡ spec.shared spec.odd_ones inputs.now }
{
    let mut odd = Tri::Zero;
    for input in inputs {
        odd = xor(odd, *input);
    }
    odd
}

// What the table gives at the inputs, where those before them put it at this place and the next one weighs this.
fn tri_of_table(table: u64, inputs: &[Tri], place: u32, weight: u32) -> Tri
    requires place { place + weight * 2 ^ length inputs.now < 64 + weight }
    requires weight { weight < 128 }
    ensures { result ≡ spec.shared (λ bits. spec.bit_of_number table (place + weight * spec.number_of bits)) inputs.now }
{
    match inputs {
        [] => if (table >> place) % 2 == 1 {
            Tri::One
        } else {
            Tri::Zero
        },
        [Tri::Zero, rest @ ..] => tri_of_table(table, rest, place, 2 * weight),
        [Tri::One, rest @ ..] => tri_of_table(table, rest, place + weight, 2 * weight),
        [Tri::Unknown, rest @ ..] => tri_of_table(table, rest, place, 2 * weight).join(tri_of_table(
            table,
            rest,
            place + weight,
            2 * weight,
        )),
    }
}
