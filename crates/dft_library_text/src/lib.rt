//! Libraries of cells, read from their TOML texts.
#![tactic(auto)]

mod draft;
mod keys;
mod reader;
mod refusal;
mod scans;

pub use reader::read;
pub use refusal::LibraryError;
