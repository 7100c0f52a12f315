//! Kernels over rows of packed bits, eight words at a time.
#![tactic(auto)]

mod bits;
mod laws;
mod row;
mod wide;

pub use bits::{has_bit, put};
pub use laws::{highest_is_last, parity_is_sum, sum_is_by_bits};
pub use row::{highest, is_packed, parity_and, xor_into};
pub use wide::{Wide, wide_and, wide_mux, wide_not, wide_or, wide_xor};
