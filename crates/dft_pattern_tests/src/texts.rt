//! A configuration, and cubes.

use dft_config::{FillRule, Injector, Tap};
use dft_test_configs::Shape;
use std::alloc::{AllocError, Global};

// Forty flip-flops in eight chains; the cells of the cubes stand first in the first chain.
pub(crate) static WIDE: Shape = Shape {
    domains: &["clk"],
    resets: &["rst_n"],
    chains: 8,
    warm: 8,
    window: 16,
    fill: FillRule::Zeros,
    stages: 8,
    channels: 2,
    taps: &[Tap { from: 2, to: 5 }],
    injectors: &[
        Injector {
            channel: 0,
            stage: 7,
        },
        Injector {
            channel: 1,
            stage: 3,
        },
    ],
    phase: &[
        &[7],
        &[3],
        &[1, 7],
        &[3, 6],
        &[0, 7],
        &[2, 3],
        &[0, 5, 7],
        &[1, 3],
    ],
    groups: &[&[0, 2, 4, 6], &[1, 3, 5, 7]],
    mask_inputs: 1,
};

// A cube of these clocks that gives four cells the digits of a number, lowest first, and a port where it is to.
fn push_number(
    alloc: Global,
    text: &mut String,
    number: u32,
    clocks: &str,
    port: &str,
) -> Result<(), AllocError> {
    text.push_str(&format!(in alloc; "cube k{number} {clocks}\n")?)?;
    for cell in 0..4u32 {
        let digit = number >> cell & 1;
        text.push_str(&format!(in alloc; "cell r_reg[{cell}] {digit}\n")?)?;
    }
    text.push_str(port)?;
    text.push_str("end\n")
}

// Eleven numbers; the first one gives a port, too.
pub(crate) fn wide_patterns(alloc: Global) -> Result<String, AllocError> {
    let mut text = String::new(alloc);
    for number in 0..11u32 {
        let port = if number == 0 { "port en 1\n" } else { "" };
        push_number(alloc, &mut text, number, "clk", port)?;
    }
    Ok(text)
}

// The same, where every second one captures in two vectors.
pub(crate) fn mixed_patterns(alloc: Global) -> Result<String, AllocError> {
    let mut text = String::from_str(alloc, "version 2\n")?;
    for number in 0..11u32 {
        let clocks = if number & 1 == 0 { "clk" } else { "clk clk" };
        push_number(alloc, &mut text, number, clocks, "")?;
    }
    Ok(text)
}
