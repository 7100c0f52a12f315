//! Pattern texts in their written form.

use std::alloc::{AllocError, Global};

static MIDDLE: &str =
    "}\nTiming {\nWaveformTable w {\nPeriod '100ns';\nWaveforms {\nins { 0 { '0ns' D; } 1 { '0ns' U; } P { '0ns' D; '50ns' U; '80ns' D; } }\nouts { L { '0ns' X; '40ns' L; } H { '0ns' X; '40ns' H; } X { '0ns' X; } }\n}\n}\n}\nPatternBurst b { PatList { p; } }\nPatternExec { PatternBurst b; }\nPattern p {\nW w;\n";

/// The written form of patterns (IEEE 1450-1999) with these inputs and outputs. The vectors are the acts of the inputs
/// and of the outputs in turn.
pub fn patterns(
    alloc: Global,
    inputs: &str,
    outputs: &str,
    vectors: &str,
) -> Result<String, AllocError> {
    let mut text = String::from_str(alloc, "STIL 1.0;\nSignals {\n")?;
    push_signals(&mut text, inputs, outputs)?;
    push_vectors(&mut text, vectors)?;
    Ok(text)
}

fn push_signals(text: &mut String, inputs: &str, outputs: &str) -> Result<(), AllocError> {
    declare(text, inputs, "In")?;
    declare(text, outputs, "Out")?;
    text.push_str("}\nSignalGroups {\nins = '")?;
    group(text, inputs)?;
    text.push_str("';\nouts = '")?;
    group(text, outputs)?;
    text.push_str("';\n")
}

fn push_vectors(text: &mut String, vectors: &str) -> Result<(), AllocError> {
    text.push_str(MIDDLE)?;
    let mut is_input = true;
    for acts in vectors.split_whitespace() {
        text.push_str(if is_input { "V { ins = " } else { " outs = " })?;
        text.push_str(acts)?;
        text.push_str(if is_input { ";" } else { "; }\n" })?;
        is_input = !is_input;
    }
    text.push_str("}\n")
}

fn declare(text: &mut String, names: &str, dir: &str) -> Result<(), AllocError> {
    for name in names.split_whitespace() {
        text.push_str("\"")?;
        text.push_str(name)?;
        text.push_str("\" ")?;
        text.push_str(dir)?;
        text.push_str(";\n")?;
    }
    Ok(())
}

fn group(text: &mut String, names: &str) -> Result<(), AllocError> {
    let mut is_first = true;
    for name in names.split_whitespace() {
        text.push_str(if is_first { "\"" } else { "+\"" })?;
        text.push_str(name)?;
        text.push_str("\"")?;
        is_first = false;
    }
    Ok(())
}
