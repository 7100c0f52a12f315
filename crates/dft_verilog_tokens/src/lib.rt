//! The tokens of netlist texts (IEEE 1364, lexical conventions), and the rules of numbers, ranges and constants.
#![tactic(auto)]

mod blanks;
mod classes;
mod constants;
mod cursor;
mod faults;
mod lexeme;
mod numbers;
mod ranges;
mod read_error;
mod word;
mod word_tokens;
mod words;

pub use blanks::MAX_TEXT;
pub use constants::{SizedConstant, constant};
pub use cursor::Tokens;
pub use faults::{full, joined_twice, no_pin, refused, taken, undeclared};
pub use numbers::push_value;
pub use ranges::{range_if_any, selection};
pub use read_error::ReadError;
pub use word::Word;
