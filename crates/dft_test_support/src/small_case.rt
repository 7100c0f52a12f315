//! The small whole case: five flip-flops in two chains, f0 f1 f2 and f3 f4, behind a ring of four stages and one channel.

/// Its netlist: the flip-flops stand in a ring.
pub static FIVE: &str =
    "module m (clk, a, y); input clk, a; output y; NAND2 g0 (.A(a), .B(q4), .Y(d0)); DFF f0 (.CK(clk), .D(d0), .Q(q0)); DFF f1 (.CK(clk), .D(q0), .Q(q1)); DFF f2 (.CK(clk), .D(q1), .Q(q2)); DFF f3 (.CK(clk), .D(q2), .Q(q3)); DFF f4 (.CK(clk), .D(q3), .Q(q4)); INV g1 (.A(q4), .Y(y)); endmodule";

/// What style Edt makes of the first.
pub static FIVE_COMPILED: &str =
    "module m (clk, a, y, scan_enable, edt_clock, edt_update, edt_in0, edt_mask0, edt_out0, edt_out1);
input clk;
input a;
output y;
input scan_enable;
input edt_clock;
input edt_update;
input edt_in0;
input edt_mask0;
output edt_out0;
output edt_out1;
wire q4;
wire d0;
wire q0;
wire q1;
wire q2;
wire q3;
wire dft_n0;
wire dft_n1;
wire dft_n2;
wire dft_n3;
wire dft_n4;
wire dft_n5;
wire dft_n6;
wire dft_n7;
wire dft_n8;
wire dft_n9;
wire dft_n10;
wire dft_n11;
wire dft_n12;
wire dft_n13;
wire dft_n14;
wire dft_n15;
wire dft_n16;
wire dft_n17;
wire dft_n18;
wire dft_n19;
wire dft_n20;
wire dft_n21;
wire dft_n22;
wire dft_n23;
wire dft_n24;
wire dft_n25;
wire dft_n26;
wire dft_n27;
wire dft_n28;
wire dft_n29;
NAND2 g0 (.A(a), .B(q4), .Y(d0));
SDFF f0 (.CK(clk), .D(d0), .SI(dft_n13), .SE(scan_enable), .Q(q0));
SDFF f1 (.CK(clk), .D(q0), .SI(q0), .SE(scan_enable), .Q(q1));
SDFF f2 (.CK(clk), .D(q1), .SI(q1), .SE(scan_enable), .Q(q2));
SDFF f3 (.CK(clk), .D(q2), .SI(dft_n14), .SE(scan_enable), .Q(q3));
SDFF f4 (.CK(clk), .D(q3), .SI(q3), .SE(scan_enable), .Q(q4));
INV g1 (.A(q4), .Y(y));
not dft_i0 (dft_n0, edt_update);
xor dft_i1 (dft_n5, dft_n2, dft_n3);
and dft_i2 (dft_n6, dft_n5, dft_n0);
DFF dft_i3 (.CK(edt_clock), .D(dft_n6), .Q(dft_n1));
and dft_i4 (dft_n7, dft_n3, dft_n0);
DFF dft_i5 (.CK(edt_clock), .D(dft_n7), .Q(dft_n2));
and dft_i6 (dft_n8, dft_n4, dft_n0);
DFF dft_i7 (.CK(edt_clock), .D(dft_n8), .Q(dft_n3));
xor dft_i8 (dft_n9, dft_n1, edt_in0);
and dft_i9 (dft_n10, dft_n9, dft_n0);
DFF dft_i10 (.CK(edt_clock), .D(dft_n10), .Q(dft_n4));
xor dft_i11 (dft_n11, dft_n1, dft_n4);
xor dft_i12 (dft_n12, dft_n2, dft_n3);
LOCKUP dft_i13 (.CK(edt_clock), .D(dft_n11), .Q(dft_n13));
LOCKUP dft_i14 (.CK(edt_clock), .D(dft_n12), .Q(dft_n14));
DFF dft_i15 (.CK(edt_clock), .D(edt_mask0), .Q(dft_n15));
and dft_i16 (dft_n17, edt_update, dft_n15);
and dft_i17 (dft_n18, dft_n0, dft_n16);
or dft_i18 (dft_n19, dft_n17, dft_n18);
DFF dft_i19 (.CK(edt_clock), .D(dft_n19), .Q(dft_n16));
DFF dft_i20 (.CK(edt_clock), .D(dft_n15), .Q(dft_n20));
and dft_i21 (dft_n22, edt_update, dft_n20);
and dft_i22 (dft_n23, dft_n0, dft_n21);
or dft_i23 (dft_n24, dft_n22, dft_n23);
DFF dft_i24 (.CK(edt_clock), .D(dft_n24), .Q(dft_n21));
not dft_i25 (dft_n25, dft_n16);
and dft_i26 (dft_n26, dft_n25, q2);
not dft_i27 (dft_n27, dft_n21);
and dft_i28 (dft_n28, dft_n27, q4);
xor dft_i29 (dft_n29, dft_n26, dft_n28);
buf dft_i30 (edt_out0, dft_n29);
buf dft_i31 (edt_out1, dft_n28);
endmodule
";

/// The first part of a configuration with warm cycles: a load has five. The variables of f0 are those of cycles 1 and 3, of
/// f1 0 and 2, of f2 1, of f3 1 and 2, of f4 0 and 1.
pub static WARM: &str = "version = 1\ndomains = ['clk']\nwarm = 2\nwindow = 4\n";

/// The same without: a load has three. The variables of f0 are that of cycle 1, of f1 0, of f3 0; f2 and f4 have none.
pub static COLD: &str = "version = 1\ndomains = ['clk']\nwarm = 0\nwindow = 4\n";

/// The second part: the hardware of two chains in one mask segment, of which the second has an output of its own.
pub static PAIR: &str =
    "chains = 2\nring = { stages = 4, channels = 1, taps = [[2, 0]], injectors = [[0, 3]], phase = [[0, 3], [1, 2]] }\ncompactor = { groups = [[0, 1], [1]], mask_inputs = 1 }\n";

/// Three cubes, of which without warm cycles no load gives the first and the last.
pub static PARTED: &str =
    "cube u clk\ncell f2 1\nend\ncube v clk\ncell f2 0\nend\ncube w clk\ncell f1 0\ncell f3 1\nend\n";

/// The lines of a report before those of cubes, with warm cycles.
pub static WARM_HEAD: &str =
    "edt report 1\ncells 5 chains 2 cycles 5 variables 5\nchain 0 length 3\nchain 1 length 2\nscanned f0 clk chain 0 place 0\nscanned f1 clk chain 0 place 1\nscanned f2 clk chain 0 place 2\nscanned f3 clk chain 1 place 0\nscanned f4 clk chain 1 place 1\n";

/// The same without.
pub static COLD_HEAD: &str =
    "edt report 1\ncells 5 chains 2 cycles 3 variables 3\nchain 0 length 3\nchain 1 length 2\nscanned f0 clk chain 0 place 0\nscanned f1 clk chain 0 place 1\nscanned f2 clk chain 0 place 2\nscanned f3 clk chain 1 place 0\nscanned f4 clk chain 1 place 1\n";

/// The lines of the three cubes.
pub static PARTED_TOLD: &str =
    "cube u unsolvable 1\nsum f2 1 -\ncube v encoded 0\ncube w unsolvable 2\nsum f1 0 0.0\nsum f3 1 0.0\n";
