//! What is not as a test wants it.

use dft_top::Status;
use std::alloc::{AllocError, Global};

/// What is not as a test wants it.
#[derive(Debug, Drop)]
pub enum Unlike {
    /// What a run printed.
    Printed(String),
    /// How a run ended.
    Ended(Status),
    /// What a file holds.
    Held(String),
    /// Memory ran out.
    Memory(AllocError),
}

impl From<AllocError> for Unlike {
    fn from(error: AllocError) -> Unlike {
        Unlike::Memory(error)
    }
}

// The text of these bytes.
pub(crate) fn text_of(alloc: Global, bytes: &[u8]) -> Result<String, AllocError> {
    match std::str::from_utf8(bytes) {
        Ok(text) => String::from_str(alloc, text),
        Err(_) => String::from_str(alloc, "no text"),
    }
}
