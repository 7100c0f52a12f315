//! A design that is played vector by vector.

ghost use Rattle.std.specs.Prelude.{◌≡◌, ◌<◌, length};

use crate::grades::design_of;
use dft_base::Tri;
use dft_cycle::AbstractMachine;
use dft_netlist::{Design, NetId};
use std::alloc::{AllocError, Global};
use std::test::Fail;

// A flip-flop that takes the input at a rise, and one that takes it from there at a fall.
static FLOPS: &str =
    "module m (c, d, q, r); input c, d; output q, r; DFF f (.CK(c), .D(d), .Q(q)); INV i (.A(c), .Y(n)); DFF g (.CK(n), .D(q), .Q(r)); endmodule";

// What the input is at two pulses, and what both outputs show behind each.
static PLAYED: [(Tri, Tri, Tri, Tri); 3] = [
    (Tri::One, Tri::Zero, Tri::One, Tri::Zero),
    (Tri::Zero, Tri::One, Tri::Zero, Tri::One),
    (Tri::Unknown, Tri::One, Tri::Unknown, Tri::One),
];

// Whether both outputs show a value behind a vector: the input is set, the clock pulses, and the outputs are looked at.
fn shows(machine: &mut AbstractMachine<'_>, value: Tri, wanted: Tri) -> bool
    requires nets { 1 < length machine.old.netlist.nets }
    requires clocks { length machine.old.clocks ≡ 1 }
    ensures netlist { machine.new.netlist ≡ machine.old.netlist }
    ensures same { machine.new.clocks ≡ machine.old.clocks }
{
    machine.set(NetId(1), value);
    machine.pulse(&[true]);
    machine.strobe();
    machine.value(NetId(2)) == wanted && machine.value(NetId(3)) == wanted
}

fn played(alloc: Global, design: &Design, row: (Tri, Tri, Tri, Tri)) -> Result<bool, AllocError>
    requires { 1 < length design.now.nets }
{
    let mut machine = AbstractMachine::prepare(alloc, design, &[NetId(0)])?;
    let (first, second, one, other) = row;
    if !shows(&mut machine, first, one) {
        return Ok(false);
    }
    Ok(shows(&mut machine, second, other))
}

fn fitting(alloc: Global, row: (Tri, Tri, Tri, Tri)) -> Result<bool, Fail> {
    match design_of(alloc, FLOPS)? {
        Some(design) => if design.net_count() < 2 {
            Ok(false)
        } else {
            Ok(played(alloc, &design, row)?)
        },
        None => Ok(false),
    }
}

#[test]
fn flip_flops_take_their_bits(rt: HostRuntime) -> Result<(), Fail> {
    for row in &PLAYED {
        assert!(rt; fitting(rt.alloc(), *row)?);
    }
    Ok(())
}
