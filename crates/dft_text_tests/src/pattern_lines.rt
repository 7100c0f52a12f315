//! How a pattern text is told, for tests: its vectors, or that it is refused.

use dft_patterns::{Act, PatternSet};
use dft_stil::{MAX_TEXT, read};
use std::alloc::{AllocError, Global};

// The letter of an act.
fn letter(act: Act) -> char {
    match act {
        Act::Unset => '-',
        Act::Low => '0',
        Act::High => '1',
        Act::Pulse => 'P',
        Act::ExpectLow => 'L',
        Act::ExpectHigh => 'H',
        Act::Ignore => 'X',
    }
}

/// The vectors by the letters of their acts.
pub fn letters(alloc: Global, set: &PatternSet) -> Result<String, AllocError> {
    let mut line = String::from_str(alloc, "ok")?;
    for acts in set.vectors() {
        line.push(' ')?;
        for act in acts.as_slice() {
            line.push(letter(*act))?;
        }
    }
    Ok(line)
}

/// What a text reads as.
pub fn line_of(alloc: Global, text: &[u8]) -> Result<String, AllocError> {
    if text.len() > MAX_TEXT {
        return String::from_str(alloc, "long");
    }
    match read(alloc, text) {
        Ok(set) => letters(alloc, &set),
        Err(_) => String::from_str(alloc, "refused"),
    }
}
