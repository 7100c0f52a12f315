//! Texts of several modules worked by hand.

use crate::flat_lines::told;
use std::test::Fail;

// Flat designs.
static TEXTS: [(&str, &str); 7] = [
    (
        "module inv2 (a, y); input a; output y; INV i0 (.A(a), .Y(n)); INV i1 (.A(n), .Y(y)); endmodule module m (c, d, q); input c, d; output q; inv2 u (.a(d), .y(w)); DFF f (.CK(c), .D(w), .Q(q)); endmodule",
        "m: c d q w u/a u/y u/n; 4=1; 3=5; u/i0 4 6; u/i1 6 5; f 0 3 2 -",
    ),
    (
        "module k (input [1:0] a, output [0:1] y); INV i (.A(a[0]), .Y(y[1])); assign y[0] = a[1]; endmodule module l (input p, output [1:0] s); k u (.a({p, 1'b1}), .y(s)), v (.y({x, z}), .a({p, p})); endmodule module t (output [1:0] o); l m (.s(o)); endmodule",
        "t: o[1] o[0] m/p m/s[1] m/s[0] m/x m/z m/u/a[1] m/u/a[0] m/u/y[0] m/u/y[1] m/v/a[1] m/v/a[0] m/v/y[0] m/v/y[1]; 0=3; 1=4; 7=2; 8='1; 3=9; 4=10; 9=7; 11=2; 12=2; 5=13; 6=14; 13=11; m/u/i 8 10; m/v/i 12 14",
    ),
    ("module a; endmodule", "a:"),
    (
        "module k (a); input [1:0] a; endmodule module t; k u (.a()); endmodule",
        "t: u/a[1] u/a[0]",
    ),
    (
        "module k (a); input a; INV i (.Y(a)); endmodule module t; k u (); endmodule",
        "t: u/a; u/i - 0",
    ),
    (
        "module k (a); input a; not (x, a); endmodule module t (b); input b; k u (.a(b)), v (.a(b)); endmodule",
        "t: b u/a u/x v/a v/x; 1=0; 3=0; *:Inv1 1 2; *:Inv1 3 4",
    ),
    (
        "module t (y); output y; wire [1:0] z; assign y = z[0]; k u (.a(), .b({x, z})); not (x, y); assign z = 2'b10; endmodule module k (input a, input [2:0] b); endmodule",
        "t: y z[1] z[0] x u/a u/b[2] u/b[1] u/b[0]; 0=2; 5=3; 6=1; 7=2; 1='1; 2='0; *:Inv1 0 3",
    ),
];

#[test]
fn texts_are_told(rt: HostRuntime) -> Result<(), Fail> {
    for (text, line) in &TEXTS {
        assert_eq!(rt; told(rt.alloc(), text)?.as_str(), *line);
    }
    Ok(())
}

// Modules with so many instances below them that none but those with a net or a cell can be looked at.
static EMPTY: [(&str, &str); 1] = [(
    "module e0; e1 a (), b (); endmodule module e1; e2 a (), b (); endmodule module e2; e3 a (), b (); endmodule module e3; e4 a (), b (); endmodule module e4; e5 a (), b (); endmodule module e5; e6 a (), b (); endmodule module e6; e7 a (), b (); endmodule module e7; e8 a (), b (); endmodule module e8; e9 a (), b (); endmodule module e9; e10 a (), b (); endmodule module e10; e11 a (), b (); endmodule module e11; e12 a (), b (); endmodule module e12; e13 a (), b (); endmodule module e13; e14 a (), b (); endmodule module e14; e15 a (), b (); endmodule module e15; e16 a (), b (); endmodule module e16; e17 a (), b (); endmodule module e17; e18 a (), b (); endmodule module e18; e19 a (), b (); endmodule module e19; e20 a (), b (); endmodule module e20; e21 a (), b (); endmodule module e21; e22 a (), b (); endmodule module e22; e23 a (), b (); endmodule module e23; e24 a (), b (); endmodule module e24; e25 a (), b (); endmodule module e25; e26 a (), b (); endmodule module e26; e27 a (), b (); endmodule module e27; e28 a (), b (); endmodule module e28; e29 a (), b (); endmodule module e29; e30 a (), b (); endmodule module e30; e31 a (), b (); endmodule module e31; e32 a (), b (); endmodule module e32; e33 a (), b (); endmodule module e33; e34 a (), b (); endmodule module e34; e35 a (), b (); endmodule module e35; e36 a (), b (); endmodule module e36; e37 a (), b (); endmodule module e37; e38 a (), b (); endmodule module e38; e39 a (), b (); endmodule module e39; e40 a (), b (); endmodule module e40; e41 a (), b (); endmodule module e41; e42 a (), b (); endmodule module e42; e43 a (), b (); endmodule module e43; e44 a (), b (); endmodule module e44; e45 a (), b (); endmodule module e45; e46 a (), b (); endmodule module e46; e47 a (), b (); endmodule module e47; e48 a (), b (); endmodule module e48; e49 a (), b (); endmodule module e49; e50 a (), b (); endmodule module e50; e51 a (), b (); endmodule module e51; e52 a (), b (); endmodule module e52; e53 a (), b (); endmodule module e53; e54 a (), b (); endmodule module e54; e55 a (), b (); endmodule module e55; e56 a (), b (); endmodule module e56; e57 a (), b (); endmodule module e57; e58 a (), b (); endmodule module e58; e59 a (), b (); endmodule module e59; e60 a (), b (); endmodule module e60; endmodule",
    "e0:",
)];

#[test]
fn empty_instances_cost_nothing(rt: HostRuntime) -> Result<(), Fail> {
    for (text, line) in &EMPTY {
        assert_eq!(rt; told(rt.alloc(), text)?.as_str(), *line);
    }
    Ok(())
}
