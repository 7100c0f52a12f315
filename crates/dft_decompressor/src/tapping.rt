//! The taps of a ring.

ghost use Rattle.std.specs.Prelude.{◌≡◌, IfOk, length, ◌≤◌};
ghost use Rattle.dft_decompressor.specs.Rings as spec;

use dft_config::Tap;
use std::alloc::{AllocError, Global};

// The exponents of a ring's polynomial between its first and its last term.
fn exponents(stages: u8) -> &'static [u8]
    ensures { result.now ≡ spec.exponents stages }
{
    if stages == 8 {
        &[5, 3, 1]
    } else if stages == 16 {
        &[10, 7, 4]
    } else if stages == 24 {
        &[17, 14, 6]
    } else if stages == 32 {
        &[25, 15, 7]
    } else if stages == 48 {
        &[33, 23, 11]
    } else if stages == 64 {
        &[45, 31, 14]
    } else if stages == 96 {
        &[71, 47, 21]
    } else if stages == 128 {
        &[95, 66, 29]
    } else {
        &[]
    }
}

// The tap of an exponent.
fn tap_of(stages: u8, exponent: u8) -> Tap
    ensures { result ≡ spec.tap_of stages exponent }
{
    let from = stages.saturating_sub(exponent) / 2;
    Tap {
        from,
        to: from + exponent.saturating_sub(1),
    }
}

/// The taps of a ring of so many stages, by its primitive polynomial; none where no such ring is made.
#[tactic(auto, unfolding(crate::specs::Rings::taps_of))]
pub fn taps(alloc: Global, stages: u8) -> Result<Vec<Tap>, AllocError>
    ensures { IfOk result (λ taps. taps.items ≡ spec.taps_of stages) }
{
    let mut taps = Vec::new(alloc);
    let exponents = exponents(stages);
    for exponent in exponents {
        taps.push(tap_of(stages, *exponent))?;
    }
    Ok(taps)
}
