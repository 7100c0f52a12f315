//! Texts of several modules worked by hand: what is read of each.

use crate::TWO;
use crate::read_lines::read_line;
use dft_cells::Library;
use dft_verilog::{MAX_TEXT, TextSaid, read_text};
use std::alloc::{AllocError, Global};
use std::test::Fail;

// Modules, with the places of their connections.
static TEXTS: [(&[u8], &str); 4] = [
    (
        b"module inv2 (a, y); input a; output y; INV i0 (.A(a), .Y(n)); INV i1 (.A(n), .Y(y)); endmodule module m (c, d, q); input c, d; output q; inv2 u (.a(d), .y(w)); DFF f (.CK(c), .D(w), .Q(q)); endmodule",
        "inv2 a>0 y<1: a y n; i0 0 2; i1 2 1.m c>0 d>1 q<2: c d q w; u/inv2 1:147 a=1 1:154 y=3; f 0 3 2 -.",
    ),
    (
        b"module t; wire x; assign x = 1'b0; INV i (); k u (); INV j (.A(x)); assign y = x; k v (), w (.p({x, 2'b01}), .q()); endmodule",
        "t: x y; 0='0; i - -; u/k; 1=0; j 0 -; v/k; w/k 1:95 p=0='0='1 1:111 q.",
    ),
    (
        b"module t (b, a); output [1:0] a; wire n; input b; k u (.p(a), .q(n), .r(m)); endmodule",
        "t b>0 a<1<2: b a[1] a[0] n m; u/k 1:57 p=1=2 1:64 q=3 1:71 r=4.",
    ),
    (
        b"module t;\n  k u (\n    .p(),\n    .q ( 1'b1 ) );\nendmodule\nmodule k; endmodule",
        "t:; u/k 3:6 p 4:6 q='1.k:.",
    ),
];

#[test]
fn modules_are_told(rt: HostRuntime) -> Result<(), Fail> {
    for (text, line) in &TEXTS {
        assert_eq!(rt; read_line(rt.alloc(), text)?.as_str(), *line);
    }
    Ok(())
}

// How many modules a text has, and how many ports and items they have, if it is accepted and says more than one module alone.
fn counts(alloc: Global, text: &[u8]) -> Result<Option<(usize, usize, usize)>, AllocError> {
    if text.len() > MAX_TEXT {
        return Ok(None);
    }
    let library = Library::standard(alloc)?;
    match read_text(alloc, text, &library).ok() {
        Some(TextSaid::Modules(modules)) => {
            let mut ports = 0usize;
            let mut items = 0usize;
            for module in &modules {
                ports = ports.saturating_add(module.ports().len());
                items = items.saturating_add(module.items().len());
            }
            Ok(Some((modules.len(), ports, items)))
        }
        _ => Ok(None),
    }
}

// Whether a text is accepted.
fn is_read(alloc: Global, text: &[u8]) -> Result<bool, AllocError> {
    if text.len() > MAX_TEXT {
        return Ok(false);
    }
    let library = Library::standard(alloc)?;
    Ok(read_text(alloc, text, &library).is_ok())
}

// The front of a text ends with a module, or is refused.
#[test]
fn a_text_ends_behind_a_module(rt: HostRuntime) -> Result<(), Fail> {
    let text = TWO.as_bytes();
    for len in 0..text.len() {
        let read = is_read(rt.alloc(), &text[..len])?;
        let ends = len == 94 || len == 95;
        assert!(rt; read == ends, "{len} bytes");
    }
    Ok(())
}

// A module of so many ports behind a module of as many.
fn two_of(alloc: Global, count: u32) -> Result<String, AllocError> {
    let mut text = String::from_str(alloc, "module m (")?;
    push_ports(alloc, &mut text, count)?;
    text.push_str("module n (")?;
    push_ports(alloc, &mut text, count)?;
    Ok(text)
}

fn push_ports(alloc: Global, text: &mut String, count: u32) -> Result<(), AllocError> {
    for port in 0..count {
        text.push_str(&format!(in alloc; "input p{port}, ")?)?;
    }
    text.push_str("output q); endmodule ")
}

#[test]
fn limits_are_those_of_each_module(rt: HostRuntime) -> Result<(), Fail> {
    let text = two_of(rt.alloc(), 32_767)?;
    assert_eq!(rt; counts(rt.alloc(), text.as_bytes())?, Some((2, 65_536, 0)));
    let text = two_of(rt.alloc(), 32_768)?;
    assert_eq!(rt; counts(rt.alloc(), text.as_bytes())?, None);
    Ok(())
}

// An instance with so many connections.
fn connected(alloc: Global, count: u32) -> Result<String, AllocError> {
    let mut text = String::from_str(alloc, "module m; k u (.p()")?;
    push_connections(alloc, &mut text, count)?;
    Ok(text)
}

fn push_connections(alloc: Global, text: &mut String, count: u32) -> Result<(), AllocError> {
    for port in 0..count {
        text.push_str(&format!(in alloc; ", .p{port}()")?)?;
    }
    text.push_str("); endmodule")
}

#[test]
fn a_million_connections_are_read(rt: HostRuntime) -> Result<(), Fail> {
    let text = connected(rt.alloc(), 1_000_000)?;
    assert_eq!(rt; counts(rt.alloc(), text.as_bytes())?, Some((1, 0, 1)));
    Ok(())
}
