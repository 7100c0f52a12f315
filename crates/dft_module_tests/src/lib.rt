//! Texts of several modules worked by hand, as tests of their reader and of their flat designs.
#![tactic(auto)]

#[cfg(test)]
mod flat_lines;
#[cfg(test)]
mod flat_texts;
#[cfg(test)]
mod read_lines;
#[cfg(test)]
mod read_texts;

/// A text of two modules, one with an instance of the other.
pub static TWO: &str =
    "module inv2 (a, y); input a; output y; INV i0 (.A(a), .Y(n)); INV i1 (.A(n), .Y(y)); endmodule module m (c, d, q); input c, d; output q; inv2 u (.a(d), .y(w)); DFF f (.CK(c), .D(w), .Q(q)); endmodule";
