//! Netlist texts of any size, to be timed.

use std::alloc::{AllocError, Global};

/// So many gates, and a flip-flop for each ten of them.
pub fn netlist(alloc: Global, gates: u32) -> Result<String, AllocError> {
    let flops = gates / 10;
    let mut text = String::from_str(alloc, "module m (clk, a); input clk, a;\n")?;
    for gate in 0..gates {
        push_gate(alloc, &mut text, gate, flops)?;
    }
    for flop in 0..flops {
        push_flop(alloc, &mut text, flop)?;
    }
    text.push_str("endmodule\n")?;
    Ok(text)
}

// A flip-flop behind each tenth gate.
fn push_flop(alloc: Global, text: &mut String, flop: u32) -> Result<(), AllocError> {
    let at = u64::from(flop) * 10 + 9;
    let line = format!(in alloc; "DFF f{flop} (.CK(clk), .D(n{at}), .Q(q{flop}));\n")?;
    text.push_str(&line)
}

// A gate of each kind in turn, over two nets before it.
fn push_gate(alloc: Global, text: &mut String, gate: u32, flops: u32) -> Result<(), AllocError> {
    let cell = match gate % 5 {
        0 => "NAND2",
        1 => "XOR2",
        2 => "NOR2",
        3 => "AND2",
        _ => "OR2",
    };
    let back = gate.wrapping_mul(2_654_435_761) >> 16;
    let near = back % 61;
    let far = back % 4099;
    let line = if gate > far && gate > near {
        let a = gate - 1 - near;
        let b = gate - 1 - far;
        format!(in alloc; "{cell} g{gate} (.A(n{a}), .B(n{b}), .Y(n{gate}));\n")?
    } else {
        let flop = if flops > 0 { back % flops } else { 0 };
        format!(in alloc; "{cell} g{gate} (.A(q{flop}), .B(a), .Y(n{gate}));\n")?
    };
    text.push_str(&line)
}
