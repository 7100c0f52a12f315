//! Reads cube files.

ghost use Rattle.std.specs.Prelude.{◌≡◌, ◌<◌, ◌≤◌, ◌^◌, [], None, Ok, IfErr, IfOk, OnOk, length, map};
ghost use Rattle.dft_word_lines.specs.Lines.{AreWithin, cut};
ghost use Rattle.dft_cubes.specs.Cubes.{IsFault, IsRefused, cubes_of, ended, line_refusal, with_line};
ghost use Rattle.dft_cubes.specs.Taking.{IsTaken, Passes, SaysNames, line_said, pending_of, reading_of, refusal_of};

use crate::cube::Cube;
use crate::error::CubeError;
use crate::here::Here;
use crate::said::{Said, said_by};
use crate::taken::Taken;
use dft_base::Place;
use dft_config::Config;
use dft_netlist::Design;
use dft_word_lines::{Span, are_printed, line_len, words_of};
use std::alloc::Global;

// Takes what a line says.
fn take_said(taken: &mut Taken, here: &Here<'_>, said: Said<'_>) -> Result<(), CubeError>
    requires names { SaysNames (line_said said) }
    requires domains { length here.now.config.now.domains ≤ 16 }
    requires taken { IsTaken here.now.design.now taken.old }
    ensures ok { OnOk result (Passes here.now taken.old (line_said said.entry) taken.new) }
    ensures refused { IfErr result (IsFault (refusal_of here.now taken.old (line_said said.entry))) }
{
    match said {
        Said::Version { number } => taken.version(here, number),
        Said::Begin { name, clock } => taken.begin(here, name, clock),
        Said::BeginTwo {
            name,
            clock,
            second,
        } => taken.begin_two(here, name, clock, second),
        Said::Cell { name, bit } => taken.cell(here, name, bit),
        Said::Port { name, bit } => taken.port(here, name, bit),
        Said::End => taken.end(here),
    }
}

// Takes a line with these words.
fn take_line(
    taken: &mut Taken,
    here: &Here<'_>,
    line: &[u8],
    words: &[Span],
) -> Result<(), CubeError>
    requires within { AreWithin line.now words.now }
    requires domains { length here.now.config.now.domains ≤ 16 }
    requires taken { IsTaken here.now.design.now taken.old }
    ensures passed { OnOk result (line_refusal here.now.design.now here.now.config.now (reading_of taken.old) here.now.place (map (cut line.now) words.now) ≡ None) }
    ensures reading { OnOk result (reading_of taken.new ≡ with_line here.now.design.now here.now.config.now (reading_of taken.old) (map (cut line.now) words.now)) }
    ensures taken { OnOk result (IsTaken here.now.design.now taken.new) }
    ensures refused { IfErr result (IsFault (line_refusal here.now.design.now here.now.config.now (reading_of taken.old) here.now.place (map (cut line.now) words.now))) }
{
    if words.is_empty() {
        return Ok(());
    }
    if !are_printed(line, words) {
        return Err(CubeError::Q1 { place: here.place });
    }
    match said_by(line, words) {
        Some(said) => take_said(taken, here, said),
        None => Err(CubeError::Q1 { place: here.place }),
    }
}

// Takes all lines of a text, and gives the number of the last.
fn take_lines(
    taken: &mut Taken,
    alloc: Global,
    bytes: &[u8],
    design: &Design,
    config: &Config,
) -> Result<u32, CubeError>
    requires small { length bytes.now < 2 ^ 31 }
    requires domains { length config.now.domains ≤ 16 }
    requires taken { IsTaken design.now taken.old }
    requires none { reading_of taken.old ≡ record { version = None; cubes = []; pending = None } }
    ensures ended { IfOk result (λ number. cubes_of design.now config.now bytes.now ≡ ended number taken.new.cubes.items (pending_of taken.new)) }
    ensures refused { IfErr result (IsRefused (cubes_of design.now config.now bytes.now)) }
{
    let mut words = Vec::new(alloc);
    let mut number = 0;
    let mut at = 0;
    while at <= bytes.len() {
        let len = line_len(&bytes[at..]);
        let line = &bytes[at..at + len];
        number += 1;
        let place = Place {
            line: number,
            column: 1,
        };
        words_of(line, &mut words)?;
        take_line(
            taken,
            &Here {
                alloc,
                design,
                config,
                place,
            },
            line,
            &words,
        )?;
        at += len + 1;
    }
    Ok(number)
}

/// The cubes of a text, each with the clocks of its capture and with bits of flip-flops and of input ports: in version 2
/// behind a line `version 2`, else behind `version 1` or no such line, lines `cube NAME CLOCK`, in version 2 also `cube
/// NAME CLOCK CLOCK`, then `cell NAME 0|1` and `port NAME 0|1`, and `end`. The first line that fails decides, and the
/// first check that it fails.
pub fn read(
    alloc: Global,
    bytes: &[u8],
    design: &Design,
    config: &Config,
) -> Result<Vec<Cube>, CubeError>
    requires small { length bytes.now < 2 ^ 31 }
    ensures cubes { IfOk result (λ cubes. cubes_of design.now config.now bytes.now ≡ Ok cubes.items) }
    ensures refused { IfErr result (IsRefused (cubes_of design.now config.now bytes.now)) }
{
    config.soundness();
    let mut taken = Taken::new(alloc, design)?;
    let last = take_lines(&mut taken, alloc, bytes, design, config)?;
    taken.finish(last)
}
