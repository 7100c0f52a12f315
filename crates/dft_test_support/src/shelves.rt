//! Files in memory, and what they hold.

use crate::unlike::{Unlike, text_of};
use dft_files::{Failing, Files, MemoryFiles, SaveError};
use std::alloc::{AllocError, Global};

/// Files in memory: each has a name, and its text in two parts. Of the calls that follow, counted from 0, that of `failing`
/// fails.
pub fn shelf(
    alloc: Global,
    held: &[(&str, &str, &str)],
    failing: Option<Failing>,
) -> Result<MemoryFiles, AllocError> {
    let calls = calls_of(alloc, failing.map(|f| later(f, held.len())))?;
    let mut files = MemoryFiles::new(alloc, Vec::new(alloc), calls);
    for (name, head, rest) in held {
        hold(alloc, &mut files, *name, *head, *rest)?;
    }
    Ok(files)
}

// The call that comes so many calls later.
fn later(failing: Failing, calls: usize) -> Failing {
    let calls = u32::try_from(calls).unwrap_or(u32::MAX);
    Failing {
        call: failing.call.saturating_add(calls),
        kept: failing.kept,
    }
}

// The calls that fail, where one does.
pub(crate) fn calls_of(
    alloc: Global,
    failing: Option<Failing>,
) -> Result<Vec<Failing>, AllocError> {
    let mut calls = Vec::new(alloc);
    if let Some(failing) = failing {
        calls.push(failing)?;
    }
    Ok(calls)
}

fn hold(
    alloc: Global,
    files: &mut MemoryFiles,
    name: &str,
    head: &str,
    rest: &str,
) -> Result<(), AllocError> {
    let mut text = String::from_str(alloc, head)?;
    text.push_str(rest)?;
    match files.save(alloc, name, text.as_bytes()) {
        Err(SaveError::Memory(error)) => Err(error),
        _ => Ok(()),
    }
}

/// Whether a file holds a text of two parts. Where there is no file, a stroke stands for its text.
pub fn holds(
    alloc: Global,
    files: &MemoryFiles,
    name: &str,
    head: &str,
    rest: &str,
) -> Result<(), Unlike> {
    let bytes = files.file(name).unwrap_or(b"-");
    if is_text(bytes, head, rest) {
        return Ok(());
    }
    Err(Unlike::Held(text_of(alloc, bytes)?))
}

// Whether these bytes are a text of two parts.
fn is_text(bytes: &[u8], head: &str, rest: &str) -> bool {
    match bytes.strip_prefix(head.as_bytes()) {
        Some(bytes) => bytes == rest.as_bytes(),
        None => false,
    }
}
