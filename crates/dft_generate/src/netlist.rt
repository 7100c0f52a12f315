//! The netlist of a generated job.

ghost use Rattle.std.specs.Prelude.{◌≡◌, ◌<◌, ◌≤◌, ◌*◌, ◌++◌, IfOk, OnOk, length};
ghost use Rattle.dft_generate.specs.Netlists as form;

use crate::numbers::add_numbered;
use std::alloc::{AllocError, Global};

// The kind of a gate, by a word.
fn kind_of(word: u32) -> &'static [u8]
    ensures { result.now ≡ form.kind_of word }
{
    if word % 4 == 0 {
        b"NAND2"
    } else if word % 4 == 1 {
        b"NOR2"
    } else if word % 4 == 2 {
        b"XOR2"
    } else {
        b"AND2"
    }
}

// Adds the line of a gate, whose kind and whose inputs these words give.
#[tactic(auto, unfolding(crate::specs::Netlists::gate_line))]
fn add_gate(
    out: &mut Vec<u8>,
    size: usize,
    cell: usize,
    kind: u32,
    first: u32,
    second: u32,
) -> Result<(), AllocError>
    requires { 0 < size }
    ensures { OnOk result (out.new.items ≡ out.old.items ++ form.gate_line size cell kind first second) }
{
    out.extend_from_slice(kind_of(kind))?;
    add_numbered(out, b" g", cell)?;
    add_numbered(out, b" (.A(q", first as usize % size)?;
    add_numbered(out, b"), .B(q", second as usize % size)?;
    add_numbered(out, b"), .Y(d", cell)?;
    out.extend_from_slice(b"));\n")
}

// Adds the line of a flip-flop.
#[tactic(auto, unfolding(crate::specs::Netlists::flop_line))]
fn add_flop(out: &mut Vec<u8>, cell: usize) -> Result<(), AllocError>
    ensures { OnOk result (out.new.items ≡ out.old.items ++ form.flop_line cell) }
{
    add_numbered(out, b"DFF f", cell)?;
    add_numbered(out, b" (.CK(clk", cell % 2)?;
    add_numbered(out, b"), .D(d", cell)?;
    add_numbered(out, b"), .Q(q", cell)?;
    out.extend_from_slice(b"));\n")
}

// Adds the lines of a cell: its gate and its flip-flop.
#[tactic(auto, unfolding(crate::specs::Netlists::cell_lines))]
fn add_cell(out: &mut Vec<u8>, size: usize, words: &[u32], cell: usize) -> Result<(), AllocError>
    requires some { 0 < size }
    requires small { size ≤ 20000 }
    requires cell { cell < size }
    requires words { size * 3 ≤ length words.now }
    ensures { OnOk result (out.new.items ≡ out.old.items ++ form.cell_lines size words.now cell) }
{
    let at = cell * 3;
    add_gate(out, size, cell, words[at], words[at + 1], words[at + 2])?;
    add_flop(out, cell)
}

// Adds the lines of all cells.
fn add_cells(out: &mut Vec<u8>, size: usize, words: &[u32]) -> Result<(), AllocError>
    requires some { 0 < size }
    requires small { size ≤ 20000 }
    requires words { size * 3 ≤ length words.now }
    ensures { OnOk result (out.new.items ≡ out.old.items ++ form.all_cells size words.now) }
{
    for cell in 0..size {
        add_cell(out, size, words, cell)?;
    }
    Ok(())
}

// The netlist of so many cells that these words give.
#[tactic(auto, unfolding(crate::specs::Netlists::netlist_text))]
pub(crate) fn netlist(alloc: Global, size: usize, words: &[u32]) -> Result<Vec<u8>, AllocError>
    requires some { 0 < size }
    requires small { size ≤ 20000 }
    requires words { size * 3 ≤ length words.now }
    ensures { IfOk result (λ text. text.items ≡ form.netlist_text size words.now) }
{
    let mut out = Vec::new(alloc);
    out.extend_from_slice(b"module gen (clk0, clk1, y);\ninput clk0, clk1;\noutput y;\n")?;
    add_cells(&mut out, size, words)?;
    out.extend_from_slice(b"assign y = q0;\nendmodule\n")?;
    Ok(out)
}
