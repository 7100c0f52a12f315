//! The lines of a report.

ghost use Rattle.std.specs.Prelude.{◌≡◌, ◌++◌, IfOk, OnOk, codes, decimal};
ghost use Rattle.dft_cubes_out.specs.Written as cubes;
ghost use Rattle.dft_seeking.specs.Written as form;

use crate::counting::SeekCounts;
use dft_faults::Fault;
use dft_netlist::{Design, NetId};
use dft_seek::Found;
use itoa::Buffer;
use std::alloc::{AllocError, Global};

// The name of the net with a number, and nothing where there is none.
fn net_name(design: &Design, net: NetId) -> &[u8]
    ensures { result.now ≡ cubes.port_name design.now net.0 }
{
    if net.0 < design.net_count() {
        design.net_name(net).as_slice()
    } else {
        b"".as_slice()
    }
}

fn bit_text(bit: bool) -> &'static [u8]
    ensures { result.now ≡ form.bit_text bit }
{
    if bit { b" 1" } else { b" 0" }
}

// Adds the name of a found cube.
fn add_cube_name(out: &mut Vec<u8>, name: &[u8]) -> Result<(), AllocError>
    ensures { OnOk result (out.new.items ≡ out.old.items ++ (codes " cube " ++ (name.now ++ codes "\n"))) }
{
    out.extend_from_slice(b" cube ")?;
    out.extend_from_slice(name)?;
    out.extend_from_slice(b"\n")
}

// Adds what is told of a fault.
fn add_found(out: &mut Vec<u8>, found: &Found) -> Result<(), AllocError>
    ensures { OnOk result (out.new.items ≡ out.old.items ++ form.found_text found.now) }
{
    match found {
        Found::Cube(cube) => add_cube_name(out, cube.name.as_slice()),
        Found::NotTestable => out.extend_from_slice(b" not-testable\n"),
        Found::Aborted => out.extend_from_slice(b" aborted\n"),
    }
}

// The line of a fault.
#[tactic(auto, unfolding(crate::specs::Written::fault_line))]
pub(crate) fn fault_line(
    alloc: Global,
    design: &Design,
    fault: Fault,
    found: &Found,
) -> Result<Vec<u8>, AllocError>
    ensures { IfOk result (λ line. line.items ≡ form.fault_line design.now (record { fault = fault; found = found.now })) }
{
    let mut out = Vec::from_slice(alloc, b"fault ")?;
    out.extend_from_slice(net_name(design, fault.net))?;
    out.extend_from_slice(bit_text(fault.value))?;
    add_found(&mut out, found)?;
    Ok(out)
}

// Adds a number in decimal.
pub(crate) fn add_number(out: &mut Vec<u8>, number: u32) -> Result<(), AllocError>
    ensures { OnOk result (out.new.items ≡ out.old.items ++ decimal number) }
{
    let mut buffer = Buffer::new();
    out.extend_from_slice(buffer.format(number).as_bytes())
}

// The lines before those of faults.
#[tactic(auto, unfolding(crate::specs::Written::head_text))]
pub(crate) fn head(alloc: Global, counts: SeekCounts) -> Result<Vec<u8>, AllocError>
    ensures { IfOk result (λ text. text.items ≡ form.head_text counts) }
{
    let mut out = Vec::from_slice(alloc, b"seek report 1\nfaults ")?;
    add_number(&mut out, counts.faults)?;
    out.extend_from_slice(b" cubes ")?;
    add_number(&mut out, counts.cubes)?;
    out.extend_from_slice(b" not-testable ")?;
    add_number(&mut out, counts.not_testable)?;
    out.extend_from_slice(b" aborted ")?;
    add_number(&mut out, counts.aborted)?;
    out.extend_from_slice(b"\n")?;
    Ok(out)
}
