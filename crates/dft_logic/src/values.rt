//! Values and flags by place, and what of them a flip-flop's pins and clock show.

ghost use Rattle.std.specs.Prelude.{◌≡◌, map, true, false, ◌&&◌};
ghost use Rattle.dft_behavior.specs.Settled.{value_from};
ghost use Rattle.dft_behavior.specs.Runs as runs;
ghost use Rattle.dft_logic.specs.Values as spec;
ghost use Rattle.dft_logic.specs.Circuit.{source_at, cell_of, cell_at};
ghost use Rattle.dft_logic.specs.Circuit as circuits;

use crate::circuit::{FlipFlop, Operand};
use dft_base::Tri;
use dft_netlist::NetId;

/// The value at a place, and `Unknown` past the end.
pub fn value_at(values: &[Tri], place: u32) -> Tri
    ensures { result ≡ spec.value_at values.now place }
{
    match values.get(place as usize) {
        Some(value) => *value,
        None => Tri::Unknown,
    }
}

/// Whether the flag at a place is up; past the end none is.
pub fn flag_at(flags: &[bool], place: u32) -> bool
    ensures { result ≡ circuits.flag_at flags.now place }
{
    match flags.get(place as usize) {
        Some(flag) => *flag,
        None => false,
    }
}

/// Whether two values differ.
pub fn differ(one: Tri, other: Tri) -> bool
    ensures same { result ≡ false → one ≡ other }
    ensures other { result ≡ true → one ≡ other → ⊥ }
{
    match (one, other) {
        (Tri::Zero, Tri::Zero) | (Tri::One, Tri::One) | (Tri::Unknown, Tri::Unknown) => false,
        _ => true,
    }
}

/// The domain of the flip-flop of an instance.
pub fn domain_at(flops: &[FlipFlop], instance: u32) -> NetId
    ensures { result.0 ≡ (cell_at (map cell_of flops.now) instance).domain }
{
    match flops.get(instance as usize) {
        Some(flop) => flop.domain,
        None => NetId(0),
    }
}

/// Whether a cell takes its bit where clocks rise, or where they fall.
pub fn takes(rising: bool, falling: bool) -> bool
    ensures { result ≡ runs.takes rising falling }
{
    if rising { !falling } else { falling }
}

impl FlipFlop {
    /// Whether it takes a value in a phase where these clocks pulse.
    pub fn changes(&self, rising: bool, pulsed: &[bool]) -> bool
        ensures { result ≡ circuits.flag_at pulsed.now (cell_of self.now).domain && runs.takes rising (cell_of self.now).falling }
    {
        flag_at(pulsed, self.domain.0) && takes(rising, self.falling)
    }
}

impl Operand {
    /// Its value.
    pub fn value(&self, values: &[Tri]) -> Tri
        ensures { result ≡ value_from (spec.value_at values.now) (source_at self.now) }
    {
        match self {
            Operand::Net(net) => value_at(values, net.0),
            Operand::Tied(bit) => if *bit { Tri::One } else { Tri::Zero },
            Operand::Loose(_, _) => Tri::Unknown,
        }
    }
}
