//! What patterns capture, one vector after another.

ghost use Rattle.std.specs.Prelude.{◌+◌, ◌≤◌, length, IfOk, OnOk};
ghost use Rattle.dft_evaluator.specs.Evaluations.{IsFor, value_at};
ghost use Rattle.dft_expect.specs.Capturing.{AreCaptures, AreReadyFor, HavePulsed};
ghost use Rattle.dft_expect.specs.Fixed.{IsFixed, capturing_in};

use crate::fixed::Fixed;
use crate::moving::settle_again;
use crate::pattern::Pattern;
use crate::reading::{any_second, begin_all, fall_all, rise_all};
use crate::response::Response;
use crate::sources::settle_all;
use dft_evaluator::Evaluator;
use std::alloc::{AllocError, Global};

// Lets the clocks of this vector rise and fall in all patterns that have one, where their values are settled before that.
fn pulse(
    alloc: Global,
    fixed: &Fixed<'_>,
    evaluator: &mut Evaluator,
    patterns: &[Pattern<'_>],
    vector: u8,
    responses: &mut [Response],
) -> Result<(), AllocError>
    requires fixed { IsFixed fixed.now }
    requires patterns { length patterns.now ≤ 512 }
    requires design { IsFor fixed.now.design.now evaluator.old }
    requires ready { AreReadyFor (capturing_in fixed.now) vector patterns.now responses.old (value_at evaluator.old) }
    ensures design { IsFor fixed.now.design.now evaluator.new }
    ensures pulsed { OnOk result (HavePulsed (capturing_in fixed.now) (vector + 1) patterns.now responses.new (value_at evaluator.new)) }
{
    rise_all(alloc, fixed, evaluator, patterns, vector, responses)?;
    if !fixed.falls {
        return Ok(());
    }
    settle_again(evaluator, fixed.settings, responses);
    fall_all(alloc, fixed, evaluator, patterns, vector, responses)
}

// What each of these patterns captures in all its vectors.
pub(crate) fn captures(
    alloc: Global,
    fixed: &Fixed<'_>,
    evaluator: &mut Evaluator,
    patterns: &[Pattern<'_>],
) -> Result<Vec<Response>, AllocError>
    requires fixed { IsFixed fixed.now }
    requires patterns { length patterns.now ≤ 512 }
    requires design { IsFor fixed.now.design.now evaluator.old }
    ensures design { IsFor fixed.now.design.now evaluator.new }
    ensures captures { IfOk result (λ responses. AreCaptures (capturing_in fixed.now) patterns.now responses.items) }
{
    let mut responses = begin_all(alloc, fixed, patterns)?;
    settle_all(evaluator, fixed.settings, patterns);
    pulse(alloc, fixed, evaluator, patterns, 0, &mut responses)?;
    if !any_second(patterns) {
        return Ok(responses);
    }
    settle_again(evaluator, fixed.settings, &responses);
    pulse(alloc, fixed, evaluator, patterns, 1, &mut responses)?;
    Ok(responses)
}
