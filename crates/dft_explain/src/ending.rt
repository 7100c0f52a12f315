//! How a run ended, as a person is told of it.

use dft_base::Place;

/// How a run ended.
#[derive(Clone, Copy, Debug)]
pub enum Ending<'a> {
    /// There is nothing to tell.
    Done,
    /// A compared bit is the opposite of what is printed in every run: its vector and its signal.
    Mismatch { vector: u32, signal: &'a [u8] },
    /// A compared bit is not determined: its vector and its signal.
    Undetermined { vector: u32, signal: &'a [u8] },
    /// A file is refused.
    Refused(Refusal<'a>),
    /// A file could not be loaded: its name, and the host's reason.
    NotLoaded { file: &'a [u8], reason: &'a [u8] },
    /// A file could not be saved: its name, and the host's reason.
    NotSaved { file: &'a [u8], reason: &'a [u8] },
    /// Standard output could not be written: the host's reason.
    NotPrinted { reason: &'a [u8] },
    /// Memory ran out.
    OutOfMemory,
    /// The words cannot be had: the host's reason.
    NoWords { reason: &'a [u8] },
}

/// A refusal in words: its code, its sentence and what to do (`said_of`), its parts, and the line of its place where it could
/// be loaded.
#[derive(Clone, Copy, Debug)]
pub struct Refusal<'a> {
    pub code: &'a [u8],
    pub sentence: &'a [u8],
    pub advice: &'a [u8],
    pub place: Option<Place>,
    pub name: Option<&'a [u8]>,
    pub first: Option<i64>,
    pub second: Option<i64>,
    pub line: Option<&'a [u8]>,
}
