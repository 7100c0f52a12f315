//! Netlists that are read, written, and read back.

use crate::designs::ring_of_forty;
use crate::netlist_lines::line_of;
use dft_cells::Library;
use dft_netlist_reader::read;
use dft_verilog::MAX_TEXT;
use dft_verilog_out::{gates_are_joined, write};
use std::alloc::{AllocError, Global};
use std::test::Fail;

// Texts, and the written form of what they stand for.
static WRITTEN: [(&[u8], &str); 3] = [
    (
        b"module m (clk, a, y); input clk, a; output y; NAND2 g0 (.A(a), .B(q4), .Y(d0)); DFF f0 (.CK(clk), .D(d0), .Q(q0)); DFF f1 (.CK(clk), .D(q0), .Q(q1)); DFF f2 (.CK(clk), .D(q1), .Q(q2)); DFF f3 (.CK(clk), .D(q2), .Q(q3)); DFF f4 (.CK(clk), .D(q3), .Q(q4)); INV g1 (.A(q4), .Y(y)); endmodule",
        "module m (clk, a, y);\ninput clk;\ninput a;\noutput y;\nwire q4;\nwire d0;\nwire q0;\nwire q1;\nwire q2;\nwire q3;\nNAND2 g0 (.A(a), .B(q4), .Y(d0));\nDFF f0 (.CK(clk), .D(d0), .Q(q0));\nDFF f1 (.CK(clk), .D(q0), .Q(q1));\nDFF f2 (.CK(clk), .D(q1), .Q(q2));\nDFF f3 (.CK(clk), .D(q2), .Q(q3));\nDFF f4 (.CK(clk), .D(q3), .Q(q4));\nINV g1 (.A(q4), .Y(y));\nendmodule\n",
    ),
    (
        b"module \\m-1 (a, z); input [1:0] a; output [3:0] z; wire n, \\q[3] ; assign z = 4'h5; xor (\\q[3] , a[1], a[0]); nand n1 (n, \\q[3] , a[0]); DFFR \\r_reg[0] (.CK(a[1]), .D(a[0]), .RN(1'b1), .Q(cell), .QN()); endmodule",
        "module \\m-1  (a, z);\ninput [1:0] a;\noutput [3:0] z;\nwire n;\nwire \\q[3] ;\nwire \\cell ;\nassign z[3] = 1'b0;\nassign z[2] = 1'b1;\nassign z[1] = 1'b0;\nassign z[0] = 1'b1;\nxor (\\q[3] , a[1], a[0]);\nnand n1 (n, \\q[3] , a[0]);\nDFFR \\r_reg[0]  (.CK(a[1]), .D(a[0]), .RN(1'b1), .Q(\\cell ));\nendmodule\n",
    ),
    (b"module m; endmodule", "module m ();\nendmodule\n"),
];

// The written form of the design that a text stands for; nothing where it stands for none.
fn rewritten(alloc: Global, text: &[u8]) -> Result<Vec<u8>, AllocError> {
    if text.len() > MAX_TEXT {
        return Ok(Vec::new(alloc));
    }
    match read(alloc, text, Library::standard(alloc)?) {
        Ok(design) => if gates_are_joined(&design) {
            write(alloc, &design)
        } else {
            Ok(Vec::new(alloc))
        },
        Err(_) => Ok(Vec::new(alloc)),
    }
}

#[test]
fn designs_are_written(rt: HostRuntime) -> Result<(), Fail> {
    for (text, form) in &WRITTEN {
        let written = rewritten(rt.alloc(), *text)?;
        assert_eq!(rt; written.as_slice(), form.as_bytes());
    }
    Ok(())
}

// Whether what is written of a text is longer than it, and stands for the same.
fn is_read_as_written(alloc: Global, text: &[u8]) -> Result<bool, AllocError> {
    let written = rewritten(alloc, text)?;
    if written.len() <= text.len() {
        return Ok(false);
    }
    have_one_line(alloc, &written, text)
}

fn have_one_line(alloc: Global, one: &[u8], other: &[u8]) -> Result<bool, AllocError> {
    let line = line_of(alloc, one)?;
    is_line_of(alloc, other, &line)
}

fn is_line_of(alloc: Global, text: &[u8], line: &str) -> Result<bool, AllocError> {
    Ok(line_of(alloc, text)?.as_str() == line)
}

#[test]
fn what_is_written_is_read_as_the_design(rt: HostRuntime) -> Result<(), Fail> {
    let text = ring_of_forty(rt.alloc())?;
    let holds = is_read_as_written(rt.alloc(), text.as_bytes())?;
    assert!(rt; holds, "the ring of forty");
    Ok(())
}
