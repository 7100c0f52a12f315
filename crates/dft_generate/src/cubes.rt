//! The cubes of a generated job.

ghost use Rattle.std.specs.Prelude.{◌≡◌, ◌<◌, ◌≤◌, ◌+◌, ◌*◌, ◌/◌, ◌++◌, IfOk, OnOk, length};
ghost use Rattle.dft_generate.specs.Cubes as form;

use crate::numbers::add_numbered;
use std::alloc::{AllocError, Global};

// Whether one of these words names the cell.
fn is_named(size: usize, before: &[u32], cell: usize) -> bool
    requires { 0 < size }
    ensures { result ≡ form.is_named size before.now cell }
{
    for word in before {
        if *word as usize % size == cell {
            return true;
        }
    }
    false
}

// Adds the line of a care bit.
#[tactic(auto, unfolding(crate::specs::Cubes::bit_line))]
fn add_bit(out: &mut Vec<u8>, size: usize, word: u32) -> Result<(), AllocError>
    requires { 0 < size }
    ensures { OnOk result (out.new.items ≡ out.old.items ++ form.bit_line size word) }
{
    add_numbered(out, b"cell f", word as usize % size)?;
    add_numbered(out, b" ", (word >> 31) as usize)?;
    out.extend_from_slice(b"\n")
}

// Adds the line of a care bit, where the words before name another cell each.
fn add_new_bit(out: &mut Vec<u8>, size: usize, before: &[u32], word: u32) -> Result<(), AllocError>
    requires { 0 < size }
    ensures { OnOk result (out.new.items ≡ out.old.items ++ form.new_bit_line size before.now word) }
{
    if is_named(size, before, word as usize % size) {
        return Ok(());
    }
    add_bit(out, size, word)
}

// Adds the care bits of four words.
#[tactic(auto, unfolding(crate::specs::Cubes::bit_lines))]
fn add_bits(out: &mut Vec<u8>, size: usize, words: &[u32]) -> Result<(), AllocError>
    requires some { 0 < size }
    requires four { length words.now ≡ 4 }
    ensures { OnOk result (out.new.items ≡ out.old.items ++ form.bit_lines size words.now) }
{
    add_new_bit(out, size, &words[..0], words[0])?;
    add_new_bit(out, size, &words[..1], words[1])?;
    add_new_bit(out, size, &words[..2], words[2])?;
    add_new_bit(out, size, &words[..3], words[3])
}

// Adds the first line of a cube.
#[tactic(auto, unfolding(crate::specs::Cubes::cube_line))]
fn add_cube_line(out: &mut Vec<u8>, cube: usize) -> Result<(), AllocError>
    ensures { OnOk result (out.new.items ≡ out.old.items ++ form.cube_line cube) }
{
    add_numbered(out, b"cube k", cube)?;
    add_numbered(out, b" clk", cube % 2)?;
    out.extend_from_slice(b"\n")
}

// Adds the lines of a cube.
#[tactic(auto, unfolding(crate::specs::Cubes::cube_lines))]
fn add_cube(out: &mut Vec<u8>, size: usize, words: &[u32], cube: usize) -> Result<(), AllocError>
    requires some { 0 < size }
    requires small { size ≤ 20000 }
    requires cube { cube < size / 4 }
    requires words { size * 3 + size / 4 * 4 ≤ length words.now }
    ensures { OnOk result (out.new.items ≡ out.old.items ++ form.cube_lines size words.now cube) }
{
    let start = size * 3 + cube * 4;
    add_cube_line(out, cube)?;
    add_bits(out, size, &words[start..start + 4])?;
    out.extend_from_slice(b"end\n")
}

// Adds the lines of all cubes.
fn add_cubes(out: &mut Vec<u8>, size: usize, words: &[u32]) -> Result<(), AllocError>
    requires some { 0 < size }
    requires small { size ≤ 20000 }
    requires words { size * 3 + size / 4 * 4 ≤ length words.now }
    ensures { OnOk result (out.new.items ≡ out.old.items ++ form.cubes_text size words.now) }
{
    for cube in 0..size / 4 {
        add_cube(out, size, words, cube)?;
    }
    Ok(())
}

// The cubes of a job of so many cells that these words give.
pub(crate) fn cubes(alloc: Global, size: usize, words: &[u32]) -> Result<Vec<u8>, AllocError>
    requires some { 0 < size }
    requires small { size ≤ 20000 }
    requires words { size * 3 + size / 4 * 4 ≤ length words.now }
    ensures { IfOk result (λ text. text.items ≡ form.cubes_text size words.now) }
{
    let mut out = Vec::new(alloc);
    add_cubes(&mut out, size, words)?;
    Ok(out)
}
