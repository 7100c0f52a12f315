//! The tokens of pattern texts (IEEE 1450-1999, in a subset of its forms), and the steps that take them.
#![tactic(auto)]

mod blanks;
mod faults;
mod lexeme;
mod read_error;
mod steps;
mod text;
mod tokens;

pub use blanks::MAX_TEXT;
pub use faults::{fault_at, taken, unknown, unsupported_at};
pub use read_error::ReadError;
pub use text::{Cause, Fault, TokenKind};
pub use tokens::Tokens;
