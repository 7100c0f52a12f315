use std::alloc::{AllocError, Global};

/// The text of a netlist: forty flip-flops with a reset behind buffers, in a ring of exclusive-or gates.
pub fn ring_of_forty(alloc: Global) -> Result<String, AllocError> {
    let mut text = String::from_str(
        alloc,
        "module top (clk, rst_n, en, y, z); input clk, rst_n, en; output y; output [3:0] z; wire [39:0] q, d; assign z = 4'h0; BUF b0 (.A(rst_n), .Y(r0)); BUF b1 (.A(rst_n), .Y(r1)); AND2 e0 (.A(en), .B(q[0]), .Y(y)); ",
    )?;
    push_ring(alloc, &mut text)?;
    Ok(text)
}

fn push_ring(alloc: Global, text: &mut String) -> Result<(), AllocError> {
    for bit in 0..40u32 {
        let next = (bit + 1) % 40;
        let reset = bit / 20;
        text.push_str(&format!(in alloc;
            "XOR2 x{bit} (.A(q[{bit}]), .B(q[{next}]), .Y(d[{bit}])); (* keep = 1 *) DFFR \\r_reg[{bit}] (.CK(clk), .D(d[{bit}]), .RN(r{reset}), .Q(q[{bit}]), .QN()); "
        )?)?;
    }
    text.push_str("endmodule")
}
