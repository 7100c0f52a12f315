//! Times parts of the tool that no command reaches alone. Its words name what is timed, each with sizes behind it:
//! `equations` with cells a chain, `systems` with columns, `sweeps` and `reading` with gates, `writing` with vectors. With
//! no words it times each once, small. The times go to standard error. It promises nothing.
#![tactic(auto)]

mod linear_systems;
mod load_equations;
mod netlist_reading;
mod netlists;
mod pattern_writing;
mod sweeps;

use linear_systems::time_systems;
use load_equations::time_equations;
use netlist_reading::time_reading;
use pattern_writing::time_writing;
use std::alloc::Global;
use std::rt::Clock;
use std::{env, io};
use sweeps::time_sweeps;

// What is timed.
#[derive(Clone, Copy)]
enum Timed {
    Equations,
    Systems,
    Sweeps,
    Reading,
    Writing,
}

fn main(rt: HostRuntime) -> io::Result<()> {
    let mut timed = None;
    let mut none = true;
    for word in env::args(&rt)?.skip(1) {
        none = false;
        match named(&word) {
            Some(part) => timed = Some(part),
            None => time_at(&rt, rt.alloc(), timed, &word)?,
        }
    }
    if none {
        time_all(&rt, rt.alloc())
    } else {
        Ok(())
    }
}

// The part that a word names.
fn named(word: &str) -> Option<Timed> {
    match word {
        "equations" => Some(Timed::Equations),
        "systems" => Some(Timed::Systems),
        "sweeps" => Some(Timed::Sweeps),
        "reading" => Some(Timed::Reading),
        "writing" => Some(Timed::Writing),
        _ => None,
    }
}

// Each part once, small.
fn time_all(rt: &(impl Clock + Eprint), alloc: Global) -> io::Result<()> {
    time_equations(rt, alloc, 64)?;
    time_systems(rt, alloc, 256)?;
    time_sweeps(rt, alloc, 1000)?;
    time_reading(rt, alloc, 1000)?;
    time_writing(rt, alloc, 1000)
}

// The part that was named last, at the size that a word is.
fn time_at(
    rt: &(impl Clock + Eprint),
    alloc: Global,
    timed: Option<Timed>,
    word: &str,
) -> io::Result<()> {
    match (timed, word.parse::<u32>().ok()) {
        (Some(Timed::Equations), Some(size)) => time_equations(rt, alloc, size),
        (Some(Timed::Systems), Some(size)) => time_systems(rt, alloc, size),
        (Some(Timed::Sweeps), Some(size)) => time_sweeps(rt, alloc, size),
        (Some(Timed::Reading), Some(size)) => time_reading(rt, alloc, size),
        (Some(Timed::Writing), Some(size)) => time_writing(rt, alloc, size),
        _ => eprintln!(rt; "{word}: equations, systems, sweeps, reading or writing, and sizes"),
    }
}
