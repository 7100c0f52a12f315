//! Netlist texts worked by hand, with their designs.

use crate::netlist_lines::line_of;
use std::test::Fail;

// Texts, and what each stands for.
static TEXTS: [(&[u8], &str); 21] = [
    // blanks, words and ends
    (b"module m; endmodule (* x \" *) \" *) // y", ""),
    (b"(* x = \"a\\\" *) module m; endmodule", ""),
    (b"module m; /* a /* b */ endmodule", ""),
    (b"module m; /* \x80 \x01 */ (* \xff *) endmodule", ""),
    (b"module m; `timescale 1 /* x (* \"\n endmodule", ""),
    (b"module m; /* \n\x80\n */ (* \n *) x", "V9 4:6"),
    (
        b"module m; wire \\wire , Wire, cell, a$b; endmodule",
        " wire Wire cell a$b",
    ),
    (b"module m; endmodule module", "V9 1:27"),
    // ports and wires
    (
        b"module m (y, a); input [1:0] a; output y; and g (y, a[1], a[0]); endmodule",
        " y a[1] a[0]; g:And2 1 2 0",
    ),
    (
        b"module m (input [1:0] a, b, output wire y); wire [0:1] w; endmodule",
        " a[1] a[0] b[1] b[0] y w[0] w[1]",
    ),
    (b"module m (a); input wire a; wire a; endmodule", " a"),
    (
        b"module m (a); input a; wire \\cpu3 ; INV u (.A(a), .Y(\\cpu3 )); INV v (.A(cpu3), .Y(n)); endmodule",
        " a cpu3 n; u 0 1; v 1 2",
    ),
    (
        b"module m; wire [1:0] d; wire \\d[2] , \\d[01] ; endmodule",
        " d[1] d[0] d[2] d[01]",
    ),
    // bits, parts and constants
    (
        b"module m (a); input a; wire [3:0] d; wire [1:0] e; assign e = d[2:1]; endmodule",
        " a d[3] d[2] d[1] d[0] e[1] e[0]; 5=2; 6=3",
    ),
    (
        b"module m (a); input a; wire [3:0] d; assign {d[0],d[1],{d[3:2]}} = 4'hA; endmodule",
        " a d[3] d[2] d[1] d[0]; 4='1; 3='0; 1='1; 2='0",
    ),
    (
        b"module m (a); input a; wire [1:0] d; assign d = 2 'O _76_; endmodule",
        " a d[1] d[0]; 1='1; 2='0",
    ),
    (
        b"module m (a); input a; wire [3:0] d; assign d = 4'd2; endmodule",
        " a d[3] d[2] d[1] d[0]; 1='0; 2='0; 3='1; 4='0",
    ),
    // gates and cells
    (
        b"module m (a); input a; MUX2 m (.S(a), .A({{b}}), .Y(n)); endmodule",
        " a b n; m 1 - 0 2",
    ),
    (
        b"module m (a); input a; and g (y,a), (z,a,n), \\and (w,{n}); endmodule",
        " a y z n w; g:And1 0 1; *:And2 0 3 2; and:And1 3 4",
    ),
    (
        b"module m (a); input a; and (y,a,a,a,a,a,a,a,a); endmodule",
        " a y; *:And8 0 0 0 0 0 0 0 0 1",
    ),
    (
        b"module m (a); input a; LATCH u (.G(a), .D(p), .Q(q)); INV v (.A(q), .Y(p)); endmodule",
        " a p q; u 0 1 2; v 2 1",
    ),
];

#[test]
fn texts_are_told(rt: HostRuntime) -> Result<(), Fail> {
    for (text, line) in &TEXTS {
        assert_eq!(rt; line_of(rt.alloc(), text)?.as_str(), *line);
    }
    Ok(())
}
