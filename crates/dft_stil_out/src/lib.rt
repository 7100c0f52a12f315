//! Writes pattern texts (IEEE 1450-1999, in a subset of its forms): one text for each set of patterns, and its length, told before any vector
//! is made.
#![tactic(auto)]

mod laws;
mod length;
mod middle;
mod parts;
mod writer;

pub use dft_stil_text::StilError;
pub use laws::{has_written_length, one_form};
pub use length::written_length;
pub use writer::write;
