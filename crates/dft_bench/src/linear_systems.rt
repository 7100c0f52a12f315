//! Times one equation more at systems of linear equations that are half full of random ones.

use dft_gf2::{Outcome, System};
use dft_lanes::is_packed;
use rand_core::utils::NextWord;
use rand_pcg::Pcg32;
use std::alloc::Global;
use std::io;
use std::rt::Clock;
use std::time::Instant;

// How many equations are timed.
const TIMED: u32 = 16;

/// Fills a system with so many columns to the half, and times what an equation more takes.
pub fn time_systems(rt: &(impl Clock + Eprint), alloc: Global, columns: u32) -> io::Result<()> {
    let mut row = vec![in alloc; 0u64; columns.div_ceil(64) as usize]?;
    let mut system = System::new(alloc, columns)?;
    time_system(rt, &mut system, &mut row, columns)
}

// The same, over an empty system and a row.
fn time_system(
    rt: &(impl Clock + Eprint),
    system: &mut System,
    row: &mut [u64],
    columns: u32,
) -> io::Result<()> {
    let mut random = Pcg32::new(42, 54);
    let kept = fill(system, row, columns, &mut random);
    draw(row, columns, &mut random);
    let start = Instant::now(rt)?;
    for id in 0..TIMED {
        is_added(system, row, id);
    }
    let took = start.elapsed(rt)?.as_nanos() / TIMED as u128;
    eprintln!(rt; "{columns} columns, {kept} kept: {took} ns for one more")
}

// Adds half as many random equations as there are columns, and says how many were kept.
fn fill(system: &mut System, row: &mut [u64], columns: u32, random: &mut Pcg32) -> u32 {
    let mut kept = 0u32;
    for id in 0..columns / 2 {
        draw(row, columns, random);
        if is_added(system, row, id) {
            kept = kept.wrapping_add(1);
        }
    }
    kept
}

// Draws each bit of a row of so many columns.
fn draw(row: &mut [u64], columns: u32, random: &mut Pcg32) {
    let mut left = columns;
    for word in row.iter_mut() {
        let bits = (random.next_word() as u64) << 32 | random.next_word() as u64;
        *word = if left < 64 {
            bits & ((1 << left) - 1)
        } else {
            bits
        };
        left = left.saturating_sub(64);
    }
}

// Adds the equation that gives the row 0, and says whether it was kept.
fn is_added(system: &mut System, row: &[u64], id: u32) -> bool {
    is_packed(row, system.columns()) && system.try_add(row, false, id) == Outcome::Kept
}
