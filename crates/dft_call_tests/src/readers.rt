//! The reader of a netlist text, whatever it is made of.

use dft_cells::Library;
use dft_netlist::{Design, NetId};
use dft_netlist_reader::read;
use dft_verilog::MAX_TEXT;
use std::alloc::{AllocError, Global};
use std::test::Fail;

const TWO: &str =
    "module inv2 (a, y); input a; output y; INV i0 (.A(a), .Y(n)); INV i1 (.A(n), .Y(y)); endmodule module m (c, d, q); input c, d; output q; inv2 u (.a(d), .y(w)); DFF f (.CK(c), .D(w), .Q(q)); endmodule";

// A text, and the names of its nets and of its instances.
static READ: [(&str, &str); 3] = [
    (TWO, "c d q w u/a u/y u/n | u/i0 u/i1 f"),
    (
        "module m (clk, a, y); input clk, a; output y; NAND2 g0 (.A(a), .B(q4), .Y(d0)); DFF f0 (.CK(clk), .D(d0), .Q(q0)); DFF f1 (.CK(clk), .D(q0), .Q(q1)); DFF f2 (.CK(clk), .D(q1), .Q(q2)); DFF f3 (.CK(clk), .D(q2), .Q(q3)); DFF f4 (.CK(clk), .D(q3), .Q(q4)); INV g1 (.A(q4), .Y(y)); endmodule",
        "clk a y q4 d0 q0 q1 q2 q3 | g0 f0 f1 f2 f3 f4 g1",
    ),
    ("module m (a); input a; k u (.a(a)); endmodule", "refused"),
];

// Writes a word, behind a blank where one stands before it.
fn push_word(line: &mut String, word: &[u8]) -> Result<(), AllocError> {
    if !line.is_empty() {
        line.push(' ')?;
    }
    for byte in word {
        line.push(char::from(*byte))?;
    }
    Ok(())
}

fn names_of(alloc: Global, design: &Design) -> Result<String, AllocError> {
    let mut line = String::new(alloc);
    for net in 0..design.net_count() {
        push_word(&mut line, design.net_name(NetId(net)).as_slice())?;
    }
    push_word(&mut line, b"|")?;
    for instance in design.instances() {
        if let Some(name) = &instance.name {
            push_word(&mut line, name.as_slice())?;
        }
    }
    Ok(line)
}

fn line_of(alloc: Global, text: &str) -> Result<String, AllocError> {
    if text.len() > MAX_TEXT {
        return String::from_str(alloc, "too long");
    }
    let library = Library::standard(alloc)?;
    match read(alloc, text.as_bytes(), library) {
        Ok(design) => names_of(alloc, &design),
        Err(_) => String::from_str(alloc, "refused"),
    }
}

#[test]
fn texts_are_designs(rt: HostRuntime) -> Result<(), Fail> {
    for (text, line) in &READ {
        assert_eq!(rt; line_of(rt.alloc(), *text)?.as_str(), *line);
    }
    Ok(())
}
