//! Reads reports: the report that a text stands for, or the first line that is not of its form; and the law that what is written is read.
#![tactic(auto)]

mod draft;
mod error;
mod heard;
mod laws;
mod numbers;
mod reader;
mod variables;
mod words;

pub use error::ReadError;
pub use laws::{read_is_written, written_is_read};
pub use reader::read;
