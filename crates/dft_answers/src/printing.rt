//! The line that a command prints.

ghost use Rattle.std.specs.Prelude.{◌≡◌, ◌++◌, IfOk, OnOk, option_map};
ghost use Rattle.dft_answers.specs.Lines as spec;

use crate::answer::{Code, Refusal};
use crate::outcome::{Outcome, Replayed, Work};
use dft_base::{Name, Place};
use dft_compile::Counts as CompileCounts;
use dft_configuring::MadeCounts;
use dft_scan::Counts;
use dft_seeking::SeekCounts;
use std::alloc::{AllocError, Global};

const USAGE: &str =
    "usage: dft replay, scan, compile, certify, generate, grade, seek or configure, each option once as --name value\n";

/// A code as it is printed.
pub fn code_text(code: Code) -> &'static str
    ensures { result.now ≡ spec.code_text code }
{
    match code {
        Code::F1 => "F1",
        Code::L1 => "L1",
        Code::L2 => "L2",
        Code::L3 => "L3",
        Code::L4 => "L4",
        Code::L5 => "L5",
        Code::L6 => "L6",
        Code::L7 => "L7",
        Code::C1 => "C1",
        Code::C2 => "C2",
        Code::C3 => "C3",
        Code::C4 => "C4",
        Code::C5 => "C5",
        Code::C6 => "C6",
        Code::V1 => "V1",
        Code::V2 => "V2",
        Code::V3 => "V3",
        Code::V5 => "V5",
        Code::V6 => "V6",
        Code::V7 => "V7",
        Code::V9 => "V9",
        Code::V10 => "V10",
        Code::V11 => "V11",
        Code::V12 => "V12",
        Code::H1 => "H1",
        Code::H2 => "H2",
        Code::H3 => "H3",
        Code::H4 => "H4",
        Code::H5 => "H5",
        Code::N1 => "N1",
        Code::N2 => "N2",
        Code::N3 => "N3",
        Code::N4 => "N4",
        Code::G1 => "G1",
        Code::G2 => "G2",
        Code::G3 => "G3",
        Code::G4 => "G4",
        Code::G5 => "G5",
        Code::G6 => "G6",
        Code::G7 => "G7",
        Code::P1 => "P1",
        Code::P2 => "P2",
        Code::P3 => "P3",
        Code::P4 => "P4",
        Code::P5 => "P5",
        Code::P6 => "P6",
        Code::P7 => "P7",
        Code::P8 => "P8",
        Code::P9 => "P9",
        Code::P10 => "P10",
        Code::Q1 => "Q1",
        Code::Q2 => "Q2",
        Code::Q3 => "Q3",
        Code::Q4 => "Q4",
        Code::Q5 => "Q5",
        Code::Q6 => "Q6",
        Code::Q7 => "Q7",
        Code::Q8 => "Q8",
        Code::Q9 => "Q9",
        Code::K1 => "K1",
        Code::K2 => "K2",
        Code::K3 => "K3",
        Code::K4 => "K4",
        Code::K5 => "K5",
        Code::K6 => "K6",
        Code::X1 => "X1",
        Code::X2 => "X2",
        Code::X3 => "X3",
        Code::X4 => "X4",
    }
}

/// The bytes of the line of an outcome, with the line's end.
pub fn line(alloc: Global, outcome: &Outcome) -> Result<Vec<u8>, AllocError>
    ensures { IfOk result (λ line. line.items ≡ spec.line_of outcome.now) }
{
    match outcome {
        Outcome::Usage => Vec::from_slice(alloc, USAGE.as_bytes()),
        Outcome::Refused(refusal) => refused_line(alloc, refusal),
        Outcome::Finished(work) => work_line(alloc, work),
    }
}

// The line of what a command did.
fn work_line(alloc: Global, work: &Work) -> Result<Vec<u8>, AllocError>
    ensures { IfOk result (λ line. line.items ≡ spec.work_line work.now) }
{
    match work {
        Work::Replayed(replay) => replayed_line(alloc, replay),
        Work::Scanned { counts, .. } => scanned_line(alloc, *counts),
        Work::Compiled { counts, .. } => compiled_line(alloc, *counts),
        Work::Certified { unsolvable } => certified_line(alloc, *unsolvable),
        Work::Generated { counts, replay } => generated_lines(alloc, *counts, replay),
        Work::Graded {
            faults,
            detected,
            undetected,
            ..
        } => graded_line(alloc, *faults, *detected, *undetected),
        Work::Configured { counts, .. } => configured_line(alloc, *counts),
        Work::Sought { counts, .. } => sought_line(alloc, *counts),
    }
}

fn sought_line(alloc: Global, counts: SeekCounts) -> Result<Vec<u8>, AllocError>
    ensures { IfOk result (λ line. line.items ≡ spec.sought_line counts) }
{
    let line = format!(in alloc;
        "seek faults {} cubes {} not-testable {} aborted {}\n",
        counts.faults, counts.cubes, counts.not_testable, counts.aborted
    )?;
    Ok(line.into_bytes())
}

fn refused_line(alloc: Global, refusal: &Refusal) -> Result<Vec<u8>, AllocError>
    ensures { IfOk result (λ line. line.items ≡ spec.refused_line refusal.now) }
{
    let mut line = Vec::from_slice(alloc, b"refused ")?;
    line.extend_from_slice(code_text(refusal.code).as_bytes())?;
    add_place(alloc, &mut line, refusal.place)?;
    add_name(&mut line, refusal.name.as_ref())?;
    add_number(alloc, &mut line, refusal.first)?;
    add_number(alloc, &mut line, refusal.second)?;
    line.push(b'\n')?;
    Ok(line)
}

fn add_place(alloc: Global, line: &mut Vec<u8>, place: Option<Place>) -> Result<(), AllocError>
    ensures { OnOk result (line.new.items ≡ line.old.items ++ spec.place_part place) }
{
    if let Some(place) = place {
        let text = format!(in alloc; " {}:{}", place.line, place.column)?;
        line.extend_from_slice(text.as_bytes())?;
    }
    Ok(())
}

fn add_name(line: &mut Vec<u8>, name: Option<&Name>) -> Result<(), AllocError>
    ensures { OnOk result (line.new.items ≡ line.old.items ++ spec.name_part (option_map (λ name. name.now) name.entry)) }
{
    if let Some(name) = name {
        line.push(b' ')?;
        line.extend_from_slice(name.as_slice())?;
    }
    Ok(())
}

fn add_number(alloc: Global, line: &mut Vec<u8>, number: Option<i64>) -> Result<(), AllocError>
    ensures { OnOk result (line.new.items ≡ line.old.items ++ spec.number_part number) }
{
    if let Some(number) = number {
        let text = format!(in alloc; " {number}")?;
        line.extend_from_slice(text.as_bytes())?;
    }
    Ok(())
}

fn passed_line(alloc: Global, vectors: u32, compared: u64) -> Result<Vec<u8>, AllocError>
    ensures { IfOk result (λ line. line.items ≡ spec.passed_line vectors compared) }
{
    let line = format!(in alloc; "pass {vectors} vectors {compared} compared\n")?;
    Ok(line.into_bytes())
}

fn failed_line(alloc: Global, what: &str, vector: u32, signal: &Name) -> Result<Vec<u8>, AllocError>
    ensures { IfOk result (λ line. line.items ≡ spec.failed_line what.now vector signal.now) }
{
    let head = format!(in alloc; "{what} vector {vector} signal ")?;
    let mut line = head.into_bytes();
    line.extend_from_slice(signal.as_slice())?;
    line.push(b'\n')?;
    Ok(line)
}

fn scanned_line(alloc: Global, counts: Counts) -> Result<Vec<u8>, AllocError>
    ensures { IfOk result (λ line. line.items ≡ spec.scanned_line counts) }
{
    let line = format!(in alloc;
        "scanned cells {} unscanned {} chains {} lockups {}\n",
        counts.cells, counts.unscanned, counts.chains, counts.lockups
    )?;
    Ok(line.into_bytes())
}

fn compiled_line(alloc: Global, counts: CompileCounts) -> Result<Vec<u8>, AllocError>
    ensures { IfOk result (λ line. line.items ≡ spec.compiled_line counts) }
{
    let mut line = load_part(alloc, counts)?;
    add_fates(alloc, &mut line, counts)?;
    add_vectors(alloc, &mut line, counts)?;
    line.push(b'\n')?;
    Ok(line)
}

fn load_part(alloc: Global, counts: CompileCounts) -> Result<Vec<u8>, AllocError>
    ensures { IfOk result (λ line. line.items ≡ spec.load_part counts) }
{
    let part = format!(in alloc;
        "compiled cells {} chains {} cycles {} patterns {}",
        counts.cells, counts.chains, counts.cycles, counts.patterns
    )?;
    Ok(part.into_bytes())
}

fn add_fates(alloc: Global, line: &mut Vec<u8>, counts: CompileCounts) -> Result<(), AllocError>
    ensures { OnOk result (line.new.items ≡ line.old.items ++ spec.fate_part counts) }
{
    let part = format!(in alloc;
        " encoded {} unsolvable {} skipped {}",
        counts.encoded, counts.unsolvable, counts.skipped
    )?;
    line.extend_from_slice(part.as_bytes())?;
    Ok(())
}

fn add_vectors(alloc: Global, line: &mut Vec<u8>, counts: CompileCounts) -> Result<(), AllocError>
    ensures { OnOk result (line.new.items ≡ line.old.items ++ spec.vector_part counts) }
{
    let part = format!(in alloc; " masked {} vectors {}", counts.masked, counts.vectors)?;
    line.extend_from_slice(part.as_bytes())?;
    Ok(())
}

fn certified_line(alloc: Global, unsolvable: u32) -> Result<Vec<u8>, AllocError>
    ensures { IfOk result (λ line. line.items ≡ spec.certified_line unsolvable) }
{
    let line = format!(in alloc; "certified {unsolvable} cubes\n")?;
    Ok(line.into_bytes())
}

fn graded_line(
    alloc: Global,
    faults: u32,
    detected: u32,
    undetected: u32,
) -> Result<Vec<u8>, AllocError>
    ensures { IfOk result (λ line. line.items ≡ spec.graded_line faults detected undetected) }
{
    let line = format!(in alloc;
        "graded faults {faults} detected {detected} undetected {undetected}\n"
    )?;
    Ok(line.into_bytes())
}

fn configured_line(alloc: Global, counts: MadeCounts) -> Result<Vec<u8>, AllocError>
    ensures { IfOk result (λ line. line.items ≡ spec.configured_line counts) }
{
    let mut line = flip_flop_part(alloc, counts)?;
    add_chains(alloc, &mut line, counts)?;
    add_pins(alloc, &mut line, counts)?;
    line.push(b'\n')?;
    Ok(line)
}

fn flip_flop_part(alloc: Global, counts: MadeCounts) -> Result<Vec<u8>, AllocError>
    ensures { IfOk result (λ line. line.items ≡ spec.flip_flop_part counts) }
{
    let part = format!(in alloc;
        "configured cells {} unscanned {} domains {} resets {}",
        counts.cells, counts.unscanned, counts.domains, counts.resets
    )?;
    Ok(part.into_bytes())
}

fn add_chains(alloc: Global, line: &mut Vec<u8>, counts: MadeCounts) -> Result<(), AllocError>
    ensures { OnOk result (line.new.items ≡ line.old.items ++ spec.chain_part counts) }
{
    let part = format!(in alloc;
        " chains {} longest {} stages {} channels {}",
        counts.chains, counts.longest, counts.stages, counts.channels
    )?;
    line.extend_from_slice(part.as_bytes())?;
    Ok(())
}

fn add_pins(alloc: Global, line: &mut Vec<u8>, counts: MadeCounts) -> Result<(), AllocError>
    ensures { OnOk result (line.new.items ≡ line.old.items ++ spec.output_part counts) }
{
    let part = format!(in alloc;
        " outputs {} masks {} warm {} cycles {}",
        counts.outputs, counts.masks, counts.warm, counts.cycles
    )?;
    line.extend_from_slice(part.as_bytes())?;
    Ok(())
}

// The line of the compilation of a generated job, and that of its replay.
fn generated_lines(
    alloc: Global,
    counts: CompileCounts,
    replay: &Replayed,
) -> Result<Vec<u8>, AllocError>
    ensures { IfOk result (λ lines. lines.items ≡ spec.generated_lines counts replay.now) }
{
    let mut lines = compiled_line(alloc, counts)?;
    let line = replayed_line(alloc, replay)?;
    lines.extend_from_slice(line.as_slice())?;
    Ok(lines)
}

fn replayed_line(alloc: Global, replay: &Replayed) -> Result<Vec<u8>, AllocError>
    ensures { IfOk result (λ line. line.items ≡ spec.replayed_line replay.now) }
{
    match replay {
        Replayed::Passed { vectors, compared } => passed_line(alloc, *vectors, *compared),
        Replayed::Mismatch { vector, signal } => failed_line(alloc, "mismatch", *vector, signal),
        Replayed::Undetermined { vector, signal } => {
            failed_line(alloc, "undetermined", *vector, signal)
        }
    }
}
