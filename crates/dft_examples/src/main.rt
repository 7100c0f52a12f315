//! Runs each command line of the file `commands` on the files beside it, and prints the line that it puts, its exit status,
//! what a person is told on standard error, and what it saved, but for a line that begins with `briefly`. Then it plays the cases of
//! the folder `cases`. The stored output holds what was worked out by hand; it promises nothing.
#![tactic(auto)]

mod cases;
mod patterns;

use cases::play_cases;
use dft_top::told_run;
use std::alloc::Global;
use std::{fs, io};

// The files of cases, in the order in which they are played.
static CASES: [&str; 15] = [
    "cases/replays.cases",
    "cases/modules.cases",
    "cases/scans.cases",
    "cases/hardware.cases",
    "cases/compilations.cases",
    "cases/certificates.cases",
    "cases/gradings.cases",
    "cases/words.cases",
    "cases/configurations.cases",
    "cases/refused_configurations.cases",
    "cases/libraries.cases",
    "cases/refused_patterns.cases",
    "cases/cubes.cases",
    "cases/captures.cases",
    "cases/netlists.cases",
];

fn main(rt: HostRuntime) -> io::Result<()> {
    play_commands(&rt)?;
    for name in &CASES {
        play_cases(&rt, *name)?;
    }
    Ok(())
}

fn play_commands<R: AllocGlobal + Print + std::rt::Files>(rt: &R) -> io::Result<()> {
    let commands = fs::read_to_string(rt, "commands")?;
    for line in commands.lines() {
        match line.strip_prefix("briefly ") {
            Some(line) => play(rt, line, false)?,
            None => play(rt, line, true)?,
        }
    }
    Ok(())
}

// Runs the words of a line, and shows what they saved, where that is wanted.
fn play<R: AllocGlobal + Print + std::rt::Files>(
    rt: &R,
    line: &str,
    shows: bool,
) -> io::Result<()> {
    println!(rt; "$ dft {line}")?;
    let words = words_of(rt.alloc(), line)?;
    let (status, page) = told_run(rt, words.as_slice());
    println!(rt; "status {status}")?;
    let page = page?;
    print!(rt; "{}", str::from_utf8(page.as_slice()).unwrap_or("?"))?;
    if shows && status == 0 {
        show_saved(rt, words.as_slice(), line.starts_with("scan "))?;
    }
    Ok(())
}

// Shows what the words of a command that is done name as its outputs; the report of a scan is one.
fn show_saved<R: AllocGlobal + Print + std::rt::Files>(
    rt: &R,
    words: &[String],
    is_scan: bool,
) -> io::Result<()> {
    let mut is_saved = false;
    for word in words {
        if is_saved {
            show(rt, word.as_str())?;
        }
        is_saved = word.as_str().starts_with("--out") || is_scan && word.as_str() == "--report";
    }
    Ok(())
}

fn words_of(alloc: Global, line: &str) -> io::Result<Vec<String>> {
    let mut words = Vec::new(alloc);
    for word in line.split_whitespace() {
        words.push(String::from_str(alloc, word)?)?;
    }
    Ok(words)
}

// Shows a file.
fn show<R: AllocGlobal + Print + std::rt::Files>(rt: &R, name: &str) -> io::Result<()> {
    let text = fs::read_to_string(rt, name)?;
    println!(rt; "-- {name}")?;
    print!(rt; "{text}")
}
