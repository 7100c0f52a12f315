//! The written form between declarations and vectors.

ghost use Rattle.std.specs.Prelude.{◌≡◌, ◌++◌, ◌∷◌, flat_map, OnOk, IfOk};
ghost use Rattle.dft_stil_out.specs.Written as form;

use dft_patterns::StilSignal;
use std::alloc::{AllocError, Global};

// A name between quotes.
fn add_quoted(out: &mut Vec<u8>, signal: &StilSignal) -> Result<(), AllocError>
    ensures { OnOk result (out.new.items ≡ out.old.items ++ form.quoted signal.now) }
{
    out.extend_from_slice(b"\"")?;
    out.extend_from_slice(signal.name.as_slice())?;
    out.extend_from_slice(b"\"")
}

// Each name between quotes, and a plus sign before it.
fn add_others(out: &mut Vec<u8>, signals: &[StilSignal]) -> Result<(), AllocError>
    ensures { OnOk result (out.new.items ≡ out.old.items ++ flat_map (λ s. 43 ∷ form.quoted s) signals.now) }
{
    for signal in signals {
        out.extend_from_slice(b"+")?;
        add_quoted(out, signal)?;
    }
    Ok(())
}

// The line of a group, if it has a signal.
#[tactic(auto, using(crate::proofs::GroupLemmas::group_from_parts))]
fn add_group(out: &mut Vec<u8>, label: &[u8], signals: &[StilSignal]) -> Result<(), AllocError>
    ensures { OnOk result (out.new.items ≡ out.old.items ++ form.group_line label.now signals.now) }
{
    match signals {
        [] => Ok(()),
        [first, others @ ..] => {
            out.extend_from_slice(label)?;
            out.extend_from_slice(b" = '")?;
            add_quoted(out, first)?;
            add_others(out, others)?;
            out.extend_from_slice(b"';\n")
        }
    }
}

fn add_input_waveforms(out: &mut Vec<u8>, signals: &[StilSignal]) -> Result<(), AllocError>
    ensures { OnOk result (out.new.items ≡ out.old.items ++ form.input_waveforms signals.now) }
{
    if signals.is_empty() {
        return Ok(());
    }
    out.extend_from_slice(
        b"ins { 0 { '0ns' D; } 1 { '0ns' U; } P { '0ns' D; '50ns' U; '80ns' D; } }\n",
    )
}

fn add_output_waveforms(out: &mut Vec<u8>, signals: &[StilSignal]) -> Result<(), AllocError>
    ensures { OnOk result (out.new.items ≡ out.old.items ++ form.output_waveforms signals.now) }
{
    if signals.is_empty() {
        return Ok(());
    }
    out.extend_from_slice(
        b"outs { L { '0ns' X; '40ns' L; } H { '0ns' X; '40ns' H; } X { '0ns' X; } }\n",
    )
}

#[tactic(auto, unfolding(crate::specs::Written::middle))]
/// All between the declarations and the vectors.
pub fn middle(alloc: Global, ins: &[StilSignal], outs: &[StilSignal]) -> Result<Vec<u8>, AllocError>
    ensures { IfOk result (λ bytes. bytes.items ≡ form.middle ins.now outs.now) }
{
    let mut out = Vec::new(alloc);
    out.extend_from_slice(b"}\nSignalGroups {\n")?;
    add_group(&mut out, b"ins", ins)?;
    add_group(&mut out, b"outs", outs)?;
    out.extend_from_slice(b"}\nTiming {\nWaveformTable w {\nPeriod '100ns';\nWaveforms {\n")?;
    add_input_waveforms(&mut out, ins)?;
    add_output_waveforms(&mut out, outs)?;
    out.extend_from_slice(
        b"}\n}\n}\nPatternBurst b { PatList { p; } }\nPatternExec { PatternBurst b; }\nPattern p {\nW w;\n",
    )?;
    Ok(out)
}
