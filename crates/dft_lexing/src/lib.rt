//! What the lexers of netlist texts (IEEE 1364) and of pattern texts (IEEE 1450-1999) share: spaces and comments.
#![tactic(auto)]

mod blanks;
mod read_error;

pub use blanks::{
    begins_with_pair, closed_len, decimal_len, is_space, is_word_byte, printed_len, rest_to,
    to_line_end, word_bytes,
};
pub use dft_base::is_printed;
pub use read_error::ReadError;
