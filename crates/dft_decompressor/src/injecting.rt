//! The injectors of a ring.

ghost use Rattle.std.specs.Prelude.{◌≡◌, ◌<◌, ◌≤◌, ◌+◌, ◌*◌, ◌/◌, IfOk, Some, length};
ghost use Rattle.dft_decompressor.specs.Rings as spec;
ghost use Rattle.dft_decompressor.specs.Rings.{AreInjectors, IsInjector};

use crate::tapping::taps;
use dft_config::{Injector, Tap};
use std::alloc::{AllocError, Global};

// Whether a tap enters at a stage.
fn is_entered(taps: &[Tap], stage: u8) -> bool
    ensures { result ≡ spec.is_entered taps.now stage }
{
    taps.iter().any(|tap| tap.to == stage)
}

// Whether an injector stands at a stage.
fn is_held(injectors: &[Injector], stage: u8) -> bool
    ensures { result ≡ spec.is_held injectors.now stage }
{
    injectors.iter().any(|injector| injector.stage == stage)
}

// Whether an injector may stand at a stage after these.
fn is_free(taps: &[Tap], before: &[Injector], stage: u8) -> bool
    ensures { result ≡ spec.is_free taps.now before.now stage }
{
    !is_entered(taps, stage) && !is_held(before, stage)
}

// The first stage from one on where an injector may stand.
fn first_free(stages: u8, taps: &[Tap], before: &[Injector], start: u8) -> Option<u8>
    requires stages { stages ≤ 128 }
    requires start { start < stages }
    ensures { result ≡ spec.first_free stages taps.now before.now start }
{
    for distance in 0..stages {
        let stage = (start + distance) % stages;
        if is_free(taps, before, stage) {
            return Some(stage);
        }
    }
    None
}

// How many injectors each channel has.
fn injectors_each(stages: u8, channels: u8) -> u8
    requires { 0 < channels }
    ensures { result ≡ spec.injectors_each stages channels }
{
    (stages.saturating_sub(3) / channels).min(4)
}

// The stage of an injector: one is free, since there are fewer injectors and taps than stages.
fn stage_of(stages: u8, channels: u8, taps: &[Tap], before: &[Injector], number: u8) -> u8
    requires stages { stages ≤ 128 }
    requires channels { (0 < channels) × (channels + 3 ≤ stages) }
    requires taps { length taps.now ≤ 3 }
    requires before { length before.now ≡ number }
    requires number { number < spec.injector_count stages channels }
    ensures { spec.first_free stages taps.now before.now (spec.start_of stages channels number) ≡ Some result }
{
    let count = u32::from(channels) * u32::from(injectors_each(stages, channels));
    let start = u32::from(number) * u32::from(stages) / count;
    match first_free(stages, taps, before, start as u8) {
        Some(stage) => stage,
        None => {
            prove!(false);
            0
        }
    }
}

/// The injectors of a ring of so many stages: up to four for each channel, spread evenly, none where a tap enters.
pub fn injectors(alloc: Global, stages: u8, channels: u8) -> Result<Vec<Injector>, AllocError>
    requires stages { stages ≤ 128 }
    requires channels { (0 < channels) × (channels + 3 ≤ stages) }
    ensures { IfOk result (λ injectors. AreInjectors stages channels injectors.items) }
{
    let taps = taps(alloc, stages)?;
    let each = injectors_each(stages, channels);
    let mut injectors = Vec::new(alloc);
    for number in 0..channels * each {
        let stage = stage_of(stages, channels, &taps, &injectors, number);
        injectors.push(Injector {
            channel: number / each,
            stage,
        })?;
    }
    Ok(injectors)
}
