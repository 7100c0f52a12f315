//! Cases: texts of a few names, runs over them, and what these save.

use crate::patterns::patterns;
use dft_top::told_run;
use std::alloc::{AllocError, Global};
use std::{fs, io};

// The names of the files of a case: what runs load, and what they save.
static NAMES: [&str; 10] = ["l", "c", "n", "p", "o", "v", "r", "d", "s", "t"];

/// Plays a stored file of cases: prints each of its lines, and behind it what comes of it.
pub fn play_cases<R: AllocGlobal + Print + std::rt::Files>(rt: &R, name: &str) -> io::Result<()> {
    let text = fs::read_to_string(rt, name)?;
    for line in text.lines() {
        println!(rt; "{line}")?;
        play_line(rt, line)?;
    }
    Ok(())
}

// A line `case` begins with no files; others add to a file, run words, or show a file. Lines that begin with other words say nothing.
fn play_line<R: AllocGlobal + Print + std::rt::Files>(rt: &R, line: &str) -> io::Result<()> {
    if line == "case" {
        clear(rt);
    }
    if let Some(words) = line.strip_prefix("run ") {
        return run_words(rt, words);
    }
    if let Some(name) = line.strip_prefix("show ") {
        return show_held(rt, name);
    }
    add_line(rt, line)
}

fn clear(rt: &impl std::rt::Files) {
    for name in &NAMES {
        let _removed = fs::remove_file(rt, *name).is_ok();
    }
}

// Adds what a line says: a text, a text and the end of a line, a stored text, or patterns.
fn add_line<R: AllocGlobal + std::rt::Files>(rt: &R, line: &str) -> io::Result<()> {
    if let Some(named) = line.strip_prefix("text ") {
        let (name, text) = parted(named, " ");
        return add(rt, name, text.as_bytes(), b"");
    }
    if let Some(named) = line.strip_prefix("line ") {
        let (name, text) = parted(named, " ");
        return add(rt, name, text.as_bytes(), b"\n");
    }
    if let Some(named) = line.strip_prefix("file ") {
        let (name, stored) = parted(named, " ");
        return add(rt, name, &fs::read(rt, stored)?, b"");
    }
    match line.strip_prefix("patterns ") {
        Some(named) => add_patterns(rt, named),
        None => Ok(()),
    }
}

// What stands before the first mark, and what stands behind it.
fn parted<'a>(text: &'a str, mark: &str) -> (&'a str, &'a str) {
    text.split_once(mark).unwrap_or((text, ""))
}

// Adds patterns, in their written form: inputs, outputs, and the acts of both in turn, between strokes.
fn add_patterns<R: AllocGlobal + std::rt::Files>(rt: &R, named: &str) -> io::Result<()> {
    let (name, signals) = parted(named, " ");
    let (inputs, others) = parted(signals, " / ");
    let (outputs, acts) = parted(others, " / ");
    let text = patterns(rt.alloc(), inputs, outputs, acts)?;
    add(rt, name, text.as_bytes(), b"")
}

// Adds a text and its end to a file, which is empty where there is none.
fn add<R: AllocGlobal + std::rt::Files>(
    rt: &R,
    name: &str,
    text: &[u8],
    end: &[u8],
) -> io::Result<()> {
    let mut whole = held(rt, name);
    whole.extend_from_slice(text)?;
    whole.extend_from_slice(end)?;
    fs::write(rt, name, whole)
}

fn held<R: AllocGlobal + std::rt::Files>(rt: &R, name: &str) -> Vec<u8> {
    match fs::read(rt, name).ok() {
        Some(bytes) => bytes,
        None => Vec::new(rt.alloc()),
    }
}

// Runs words, one blank between each two: what the run prints is followed by its status. What a person is told is left out.
fn run_words<R: AllocGlobal + Print + std::rt::Files>(rt: &R, line: &str) -> io::Result<()> {
    let words = words_of(rt.alloc(), line)?;
    let (status, _told) = told_run(rt, words.as_slice());
    println!(rt; "status {status}")
}

fn words_of(alloc: Global, line: &str) -> Result<Vec<String>, AllocError> {
    let mut words = Vec::new(alloc);
    for word in line.split(' ') {
        words.push(String::from_str(alloc, word)?)?;
    }
    Ok(words)
}

// Shows a file, or that there is none.
fn show_held<R: AllocGlobal + Print + std::rt::Files>(rt: &R, name: &str) -> io::Result<()> {
    match fs::read_to_string(rt, name).ok() {
        Some(text) => print!(rt; "{text}"),
        None => println!(rt; "none"),
    }
}
