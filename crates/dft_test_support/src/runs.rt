//! How runs end, and what they print.

use crate::shelves::calls_of;
use crate::unlike::{Unlike, text_of};
use dft_files::{Failing, MemoryFiles, MemorySink};
use dft_top::{Status, run};
use std::alloc::{AllocError, Global};

/// How a run ended, and what it printed.
#[derive(Drop)]
pub struct Ended {
    status: Status,
    out: MemorySink,
}

impl Ended {
    /// Whether it ended with this status, and printed this line.
    pub fn is(&self, alloc: Global, status: Status, line: &str) -> Result<(), Unlike> {
        if self.out.bytes() != line.as_bytes() {
            return Err(Unlike::Printed(text_of(alloc, self.out.bytes())?));
        }
        if self.status != status {
            return Err(Unlike::Ended(self.status));
        }
        Ok(())
    }

    /// Whether a file was refused.
    pub fn is_refused(&self) -> bool {
        self.status == Status::Refused && self.out.bytes().starts_with(b"refused ")
    }
}

/// Whether a run of these words over files ends with this status, and prints this line.
pub fn prints(
    alloc: Global,
    words: &str,
    files: &mut MemoryFiles,
    status: Status,
    line: &str,
) -> Result<(), Unlike> {
    ran(alloc, words, files, None)?.is(alloc, status, line)
}

/// A run over files, where the put of `failing` fails. One blank divides each two words, so that an empty word stands
/// between two blanks.
pub fn ran(
    alloc: Global,
    words: &str,
    files: &mut MemoryFiles,
    failing: Option<Failing>,
) -> Result<Ended, AllocError> {
    let words = words_of(alloc, words)?;
    run_with(alloc, words.as_slice(), files, failing)
}

fn words_of(alloc: Global, line: &str) -> Result<Vec<String>, AllocError> {
    let mut words = Vec::new(alloc);
    for word in line.split(' ') {
        words.push(String::from_str(alloc, word)?)?;
    }
    Ok(words)
}

fn run_with(
    alloc: Global,
    words: &[String],
    files: &mut MemoryFiles,
    failing: Option<Failing>,
) -> Result<Ended, AllocError> {
    let mut out = MemorySink::new(alloc, calls_of(alloc, failing)?);
    let status = run(alloc, words, files, &mut out).status;
    Ok(Ended { status, out })
}
