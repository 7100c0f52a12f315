//! Nets that are settled, 512 patterns at a time.

use crate::given::{design_of, letter};
use dft_base::Tri;
use dft_evaluator::Evaluator;
use dft_netlist::{Design, NetId};
use std::alloc::{AllocError, Global};
use std::test::Fail;

static GATES: &str =
    "module m (a, b, y, z); input a, b; output y, z; NAND2 g (.A(a), .B(b), .Y(y)); XOR2 h (.A(a), .B(y), .Y(z)); endmodule";

// What both inputs show in a pattern, and then all four nets.
static SETTLED: [(u16, Tri, Tri, &str); 5] = [
    (0, Tri::Zero, Tri::Unknown, "0x11"),
    (1, Tri::One, Tri::One, "1101"),
    (63, Tri::One, Tri::Zero, "1010"),
    (64, Tri::One, Tri::Unknown, "1xxx"),
    (511, Tri::Unknown, Tri::Zero, "x01x"),
];

// What all nets show in a pattern.
fn shown(
    alloc: Global,
    evaluator: &Evaluator,
    design: &Design,
    pattern: u16,
) -> Result<String, AllocError> {
    let mut line = String::new(alloc);
    if pattern < 512 {
        for net in 0..design.net_count() {
            line.push(letter(evaluator.value_at(NetId(net), pattern)))?;
        }
    }
    Ok(line)
}

fn settled(
    alloc: Global,
    design: &Design,
    pattern: u16,
    a: Tri,
    b: Tri,
) -> Result<String, AllocError> {
    if design.net_count() < 2 || pattern >= 512 {
        return String::from_str(alloc, "no inputs");
    }
    let mut evaluator = Evaluator::prepare(alloc, design)?;
    evaluator.set_source_at(NetId(0), pattern, a);
    evaluator.set_source_at(NetId(1), pattern, b);
    evaluator.settle();
    shown(alloc, &evaluator, design, pattern)
}

fn line(alloc: Global, text: &str, pattern: u16, a: Tri, b: Tri) -> Result<String, AllocError> {
    match design_of(alloc, text)? {
        Some(design) => settled(alloc, &design, pattern, a, b),
        None => String::from_str(alloc, "no design"),
    }
}

#[test]
fn gates_are_settled(rt: HostRuntime) -> Result<(), Fail> {
    for (pattern, a, b, nets) in &SETTLED {
        assert_eq!(rt; line(rt.alloc(), GATES, *pattern, *a, *b)?.as_str(), *nets);
    }
    Ok(())
}
