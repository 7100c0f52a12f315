//! The lines of faults.

ghost use Rattle.std.specs.Prelude.{◌≡◌, ◌++◌, IfOk, OnOk, flat_map, length};
ghost use Rattle.dft_grade_report.specs.Written as form;

use crate::numbers::add_number;
use dft_grade::{Grade, Graded};
use dft_netlist::{Design, NetId};
use dft_patterns::StilSignal;
use std::alloc::{AllocError, Global};

// The name of the net with a number, and nothing where there is none.
fn net_name(design: &Design, net: NetId) -> &[u8]
    ensures { result.now ≡ form.net_name design.now net.0 }
{
    if net.0 < design.net_count() {
        design.net_name(net).as_slice()
    } else {
        b"".as_slice()
    }
}

// The name of the signal with a number, and nothing where there is none.
fn signal_name(signals: &[StilSignal], signal: u32) -> &[u8]
    ensures { result.now ≡ form.signal_name signals.now signal }
{
    match signals.get(signal as usize) {
        Some(signal) => signal.name.as_slice(),
        None => b"".as_slice(),
    }
}

fn bit_text(bit: bool) -> &'static [u8]
    ensures { result.now ≡ form.bit_text bit }
{
    if bit { b" 1" } else { b" 0" }
}

// Adds that a fault is detected at this vector and this signal.
fn add_detected(out: &mut Vec<u8>, vector: u32, signal: &[u8]) -> Result<(), AllocError>
    ensures { OnOk result (out.new.items ≡ out.old.items ++ form.detected_text vector signal.now) }
{
    out.extend_from_slice(b" detected vector ")?;
    add_number(out, vector)?;
    out.extend_from_slice(b" signal ")?;
    out.extend_from_slice(signal)?;
    out.extend_from_slice(b"\n")?;
    Ok(())
}

// Adds a grade.
fn add_grade(out: &mut Vec<u8>, signals: &[StilSignal], grade: Grade) -> Result<(), AllocError>
    ensures { OnOk result (out.new.items ≡ out.old.items ++ form.grade_text signals.now grade) }
{
    match grade {
        Grade::Detected { vector, signal } => {
            add_detected(out, vector, signal_name(signals, signal))
        }
        Grade::Undetected => out.extend_from_slice(b" undetected\n"),
    }
}

// Adds the line of a fault.
#[tactic(auto, unfolding(crate::specs::Written::fault_line))]
fn add_line(
    out: &mut Vec<u8>,
    design: &Design,
    signals: &[StilSignal],
    one: Graded,
) -> Result<(), AllocError>
    ensures { OnOk result (out.new.items ≡ out.old.items ++ form.fault_line design.now signals.now one) }
{
    out.extend_from_slice(b"fault ")?;
    out.extend_from_slice(net_name(design, one.fault.net))?;
    out.extend_from_slice(bit_text(one.fault.value))?;
    add_grade(out, signals, one.grade)
}

// Adds the lines of faults.
pub(crate) fn add_lines(
    out: &mut Vec<u8>,
    design: &Design,
    signals: &[StilSignal],
    graded: &[Graded],
) -> Result<(), AllocError>
    ensures { OnOk result (out.new.items ≡ out.old.items ++ flat_map (form.fault_line design.now signals.now) graded.now) }
{
    for one in graded {
        add_line(out, design, signals, *one)?;
    }
    Ok(())
}

// How many bytes the line of a fault has.
fn line_length(
    alloc: Global,
    design: &Design,
    signals: &[StilSignal],
    one: Graded,
) -> Result<u64, AllocError>
    ensures { IfOk result (λ bytes. bytes ≡ length (form.fault_line design.now signals.now one)) }
{
    let mut line = Vec::new(alloc);
    add_line(&mut line, design, signals, one)?;
    Ok(line.len() as u64)
}

// How many bytes the lines of faults have. One line at a time is made.
pub(crate) fn lines_length(
    alloc: Global,
    design: &Design,
    signals: &[StilSignal],
    graded: &[Graded],
) -> Result<u64, AllocError>
    ensures { IfOk result (λ bytes. bytes ≡ form.lines_length design.now signals.now graded.now) }
{
    let mut bytes: u64 = 0;
    for one in graded {
        let more = line_length(alloc, design, signals, *one)?;
        bytes = bytes.checked_add(more).ok_or(AllocError)?;
    }
    Ok(bytes)
}
