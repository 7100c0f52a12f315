//! The captures of a whole group of patterns and a further one, and those of the same patterns one by one.

use crate::lines::{Job, line_for};
use crate::texts::{mixed_patterns, wide_patterns};
use dft_base::{Listed, Tri};
use dft_cubes::{Cube, Merged};
use dft_expect::{Capturer, Pattern, Response};
use dft_text_tests::ring_of_forty;
use std::alloc::{AllocError, Global};
use std::test::Fail;

fn push_values(line: &mut String, values: &[Tri]) -> Result<(), AllocError> {
    for value in values {
        line.push(match value {
            Tri::Zero => '0',
            Tri::One => '1',
            Tri::Unknown => 'X',
        })?;
    }
    line.push(' ')
}

// What a pattern sets, which a cube says.
fn merged_of(alloc: Global, cube: &Cube) -> Result<Merged, AllocError> {
    Ok(Merged {
        domains: cube.domains,
        cells: Listed::from_vec(Vec::from_slice(alloc, cube.cells.as_slice())?),
        ports: Listed::from_vec(Vec::from_slice(alloc, cube.ports.as_slice())?),
    })
}

fn all_merged(alloc: Global, cubes: &[Cube]) -> Result<Vec<Merged>, AllocError> {
    let mut merged = Vec::new(alloc);
    for cube in cubes {
        merged.push(merged_of(alloc, cube)?)?;
    }
    Ok(merged)
}

// One more than a sweep takes.
const PATTERNS: usize = 513;

// Random bits of a load.
fn draw(alloc: Global, cells: usize, seed: u64) -> Result<Vec<bool>, AllocError> {
    let mut bits = Vec::with_capacity(alloc, cells)?;
    let mut state = seed.wrapping_mul(0x9e37_79b9_7f4a_7c15);
    for _cell in 0..cells {
        state = state
            .wrapping_mul(6_364_136_223_846_793_005)
            .wrapping_add(1_442_695_040_888_963_407);
        bits.push(state >> 63 == 1)?;
    }
    Ok(bits)
}

fn loads(alloc: Global) -> Result<Vec<Vec<bool>>, AllocError> {
    let mut loads = Vec::new(alloc);
    for number in 0..PATTERNS {
        loads.push(draw(alloc, 40, number as u64)?)?;
    }
    Ok(loads)
}

// The loads by turns with what the cubes set.
fn patterns_of<'a>(
    alloc: Global,
    merged: &'a [Merged],
    loads: &'a [Vec<bool>],
) -> Result<Vec<Pattern<'a>>, AllocError> {
    let mut patterns = Vec::new(alloc);
    for (number, loaded) in loads.iter().enumerate() {
        if let Some(merged) = merged.get(number % 11) {
            patterns.push(Pattern { merged, loaded })?;
        }
    }
    Ok(patterns)
}

// The values of a response.
fn push_response(line: &mut String, response: &Response) -> Result<(), AllocError> {
    push_values(line, response.cells.as_slice())?;
    push_values(line, response.outputs.as_slice())
}

fn push_group(
    alloc: Global,
    line: &mut String,
    capturer: &mut Capturer<'_>,
    patterns: &[Pattern<'_>],
) -> Result<(), AllocError> {
    if patterns.len() <= 512 {
        for response in &capturer.capture_all(alloc, patterns)? {
            push_response(line, response)?;
        }
    }
    Ok(())
}

// All responses by groups.
fn grouped(
    alloc: Global,
    capturer: &mut Capturer<'_>,
    patterns: &[Pattern<'_>],
) -> Result<String, AllocError> {
    let mut line = String::new(alloc);
    let (first, second) = patterns.split_at(patterns.len().min(512));
    push_group(alloc, &mut line, capturer, first)?;
    push_group(alloc, &mut line, capturer, second)?;
    Ok(line)
}

// And one by one.
fn single(
    alloc: Global,
    capturer: &mut Capturer<'_>,
    patterns: &[Pattern<'_>],
) -> Result<String, AllocError> {
    let mut line = String::new(alloc);
    for pattern in patterns {
        push_response(&mut line, &capturer.capture(alloc, pattern)?)?;
    }
    Ok(line)
}

// How long the values of all responses are, where both are the same.
fn compared(
    alloc: Global,
    capturer: &mut Capturer<'_>,
    patterns: &[Pattern<'_>],
) -> Result<String, AllocError> {
    let grouped = grouped(alloc, capturer, patterns)?;
    let single = single(alloc, capturer, patterns)?;
    if grouped.as_str() == single.as_str() {
        format!(in alloc; "{} alike", grouped.len())
    } else {
        String::from_str(alloc, "not alike")
    }
}

// Whether the cubes, by turns and with random loads, capture the same in groups and one by one.
pub(crate) fn line(alloc: Global, job: &Job<'_>) -> Result<String, AllocError> {
    let merged = all_merged(alloc, job.cubes)?;
    let loads = loads(alloc)?;
    let patterns = patterns_of(alloc, &merged, &loads)?;
    let mut capturer = Capturer::prepare(alloc, job.planned)?;
    compared(alloc, &mut capturer, &patterns)
}

#[test]
fn groups_capture_as_their_patterns_one_by_one(rt: HostRuntime) -> Result<(), Fail> {
    let netlist = ring_of_forty(rt.alloc())?;
    let cubes = wide_patterns(rt.alloc())?;
    let line = line_for(rt.alloc(), netlist.as_str(), cubes.as_str())?;
    // forty cells and five outputs, with two blanks
    assert_eq!(rt; line.as_str(), "24111 alike");
    Ok(())
}

// Of eleven patterns by turns the second, fourth and so on capture in two vectors.
#[test]
fn groups_of_one_capture_and_two_do_so(rt: HostRuntime) -> Result<(), Fail> {
    let netlist = ring_of_forty(rt.alloc())?;
    let cubes = mixed_patterns(rt.alloc())?;
    let line = line_for(rt.alloc(), netlist.as_str(), cubes.as_str())?;
    // 233 of them have five outputs more
    assert_eq!(rt; line.as_str(), "25276 alike");
    Ok(())
}
