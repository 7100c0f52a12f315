//! Times the writing of patterns with 50 signals.

use dft_base::{Dir, name_of};
use dft_patterns::{Act, Acts, PatternSet, StilSignal};
use dft_stil_out::write;
use rand_core::utils::NextWord;
use rand_pcg::Pcg32;
use std::alloc::{AllocError, Global};
use std::io;
use std::rt::Clock;
use std::time::Instant;

// How many signals there are; the first half are inputs.
const SIGNALS: u32 = 50;

/// Writes a set of so many random vectors, and says what this took.
pub fn time_writing(rt: &(impl Clock + Eprint), alloc: Global, vectors: u32) -> io::Result<()> {
    let set = set_of(alloc, vectors)?;
    time_set(rt, alloc, &set, vectors)
}

// The same, over the set.
fn time_set(
    rt: &(impl Clock + Eprint),
    alloc: Global,
    set: &PatternSet,
    vectors: u32,
) -> io::Result<()> {
    let start = Instant::now(rt)?;
    let written = written_length(alloc, set);
    let took = start.elapsed(rt)?.as_nanos();
    match written {
        Some(bytes) => eprintln!(rt; "{vectors} vectors, {bytes} bytes: {took} ns to write"),
        None => eprintln!(rt; "{vectors} vectors: not written"),
    }
}

// How many bytes a set takes, once it is written.
fn written_length(alloc: Global, set: &PatternSet) -> Option<usize> {
    match write(alloc, set).ok() {
        Some(text) => Some(text.len()),
        None => None,
    }
}

// Random vectors over the signals.
fn set_of(alloc: Global, vectors: u32) -> Result<PatternSet, AllocError> {
    let signals = signals(alloc)?;
    Ok(PatternSet::new(alloc, signals, drawn(alloc, vectors)?))
}

// Inputs i0, i1, .. and then outputs o0, o1, ..
fn signals(alloc: Global) -> Result<Vec<StilSignal>, AllocError> {
    let mut signals = Vec::new(alloc);
    for number in 0..SIGNALS {
        push_signal(alloc, &mut signals, number)?;
    }
    Ok(signals)
}

fn push_signal(
    alloc: Global,
    signals: &mut Vec<StilSignal>,
    number: u32,
) -> Result<(), AllocError> {
    let (letter, dir) = if number < SIGNALS / 2 {
        ('i', Dir::Input)
    } else {
        ('o', Dir::Output)
    };
    let name = format!(in alloc; "{letter}{number}")?;
    if let Some(name) = name_of(alloc, name.as_bytes())? {
        signals.push(StilSignal { name, dir })?;
    }
    Ok(())
}

// Vectors whose acts are drawn, the same at each call.
fn drawn(alloc: Global, vectors: u32) -> Result<Vec<Acts>, AllocError> {
    let mut random = Pcg32::new(42, 54);
    let mut rows = Vec::new(alloc);
    for _ in 0..vectors {
        rows.push(acts_of(alloc, &mut random)?)?;
    }
    Ok(rows)
}

fn acts_of(alloc: Global, random: &mut Pcg32) -> Result<Acts, AllocError> {
    let mut acts = Acts::new(alloc);
    for number in 0..SIGNALS {
        let bit = random.next_word() % 2 == 1;
        acts.push(match (number < SIGNALS / 2, bit) {
            (true, true) => Act::High,
            (true, false) => Act::Low,
            (false, true) => Act::ExpectHigh,
            (false, false) => Act::ExpectLow,
        })?;
    }
    Ok(acts)
}
