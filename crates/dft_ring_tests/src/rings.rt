//! Rings with their injectors and phase sets.

ghost use Rattle.std.specs.Prelude.{◌<◌, ◌≤◌, ◌+◌};

use dft_config::Listed;
use dft_decompressor::{Fitting, fit, injectors, need, taps};
use sha2::{Digest, Sha256};
use std::alloc::{AllocError, Global};
use std::test::Fail;

// Adds the injectors of a ring.
fn push_injectors(
    alloc: Global,
    text: &mut String,
    stages: u8,
    channels: u8,
) -> Result<(), AllocError>
    requires stages { stages ≤ 128 }
    requires channels { (0 < channels) × (channels + 3 ≤ stages) }
{
    for injector in &injectors(alloc, stages, channels)? {
        let place = format!(in alloc; "{} {}, ", injector.channel, injector.stage)?;
        text.push_str(&place)?;
    }
    Ok(())
}

// Adds the taps and the injectors of a ring.
fn push_ring(alloc: Global, text: &mut String, stages: u8, channels: u8) -> Result<(), AllocError> {
    text.push_str("taps ")?;
    for tap in &taps(alloc, stages)? {
        let ends = format!(in alloc; "{} {}, ", tap.from, tap.to)?;
        text.push_str(&ends)?;
    }
    text.push_str("injectors ")?;
    if channels > 0 && stages <= 128 && u32::from(channels) + 3 <= u32::from(stages) {
        push_injectors(alloc, text, stages, channels)?;
    }
    Ok(())
}

// The stage at a place of a set; 255 where there is none.
fn stage_at(set: &[u8], place: usize) -> u8 {
    match set.get(place) {
        Some(stage) => *stage,
        None => 255,
    }
}

// Adds phase sets.
fn push_phase(alloc: Global, text: &mut String, phase: &[Listed<u8>]) -> Result<(), AllocError> {
    text.push_str("phase ")?;
    for set in phase {
        let set = set.as_slice();
        let (first, second, third) = (stage_at(set, 0), stage_at(set, 1), stage_at(set, 2));
        let stages = format!(in alloc; "{first} {second} {third}, ")?;
        text.push_str(&stages)?;
    }
    Ok(())
}

// Adds a ring that fits.
fn push_fitting(
    alloc: Global,
    text: &mut String,
    fitting: &Fitting,
    channels: u8,
) -> Result<(), AllocError> {
    let stages = format!(in alloc; "stages {} ", fitting.stages)?;
    text.push_str(&stages)?;
    push_ring(alloc, text, fitting.stages, channels)?;
    push_phase(alloc, text, fitting.phase.as_slice())
}

// The ring of so many chains and channels, as a text.
fn shown(alloc: Global, chains: u16, channels: u8) -> Result<String, AllocError> {
    let mut text = format!(in alloc; "need {} ", need(chains, channels))?;
    if chains > 1024 {
        return Ok(text);
    }
    match fit(alloc, chains, channels)? {
        Some(fitting) => push_fitting(alloc, &mut text, &fitting, channels)?,
        None => text.push_str("none")?,
    }
    Ok(text)
}

static CHANNELS: [u8; 11] = [1, 2, 3, 4, 5, 6, 8, 12, 16, 24, 32];

// Adds the rings of so many chains, a line for each number of channels.
fn hash_rings(alloc: Global, hasher: &mut Sha256, chains: u16) -> Result<(), AllocError> {
    for channels in &CHANNELS {
        let text = shown(alloc, chains, *channels)?;
        hasher.update(text.as_bytes());
        hasher.update(b"\n");
    }
    Ok(())
}

// The checksum of the rings of these numbers of chains.
fn checksum(alloc: Global, numbers: &[u16]) -> Result<[u8; 32], AllocError> {
    let mut hasher = Sha256::new();
    for chains in numbers {
        hash_rings(alloc, &mut hasher, *chains)?;
    }
    Ok(hasher.finalize())
}

// Numbers of chains, each with the checksum of what tools/ring-model makes of them: five tests, as a test ends after a minute.
static FEW: [u16; 17] = [
    1, 2, 3, 4, 5, 7, 8, 12, 16, 20, 24, 32, 48, 64, 96, 100, 128,
];

static OF_FEW: [u8; 32] = [
    96, 208, 76, 191, 243, 14, 253, 78, 56, 69, 172, 227, 239, 177, 33, 57, 154, 202, 0, 168, 73,
    30, 121, 19, 246, 93, 235, 229, 13, 71, 177, 80,
];

static HUNDREDS: [u16; 4] = [192, 256, 384, 512];

static OF_HUNDREDS: [u8; 32] = [
    246, 243, 114, 79, 209, 194, 26, 108, 88, 58, 199, 90, 135, 163, 132, 174, 69, 5, 223, 203, 87,
    3, 80, 218, 123, 213, 246, 32, 132, 81, 222, 96,
];

static OF_700: [u8; 32] = [
    202, 61, 188, 250, 218, 141, 67, 225, 204, 235, 66, 1, 177, 219, 177, 72, 39, 249, 61, 200, 48,
    68, 16, 131, 34, 200, 138, 216, 117, 213, 218, 87,
];

static OF_1000: [u8; 32] = [
    5, 250, 156, 99, 141, 170, 167, 148, 36, 3, 243, 252, 247, 216, 207, 99, 138, 157, 2, 165, 207,
    11, 6, 82, 150, 178, 113, 208, 195, 246, 2, 73,
];

static OF_1024: [u8; 32] = [
    63, 25, 38, 103, 154, 239, 245, 84, 176, 109, 31, 173, 227, 15, 110, 248, 3, 242, 137, 217,
    132, 116, 86, 142, 144, 78, 138, 147, 15, 79, 50, 44,
];

#[test]
fn rings_of_few_chains_are_those_of_the_model(rt: HostRuntime) -> Result<(), Fail> {
    let found = checksum(rt.alloc(), FEW.as_slice())?;
    assert_eq!(rt; found.as_slice(), OF_FEW.as_slice());
    Ok(())
}

#[test]
fn rings_of_hundreds_of_chains_are_those_of_the_model(rt: HostRuntime) -> Result<(), Fail> {
    let found = checksum(rt.alloc(), HUNDREDS.as_slice())?;
    assert_eq!(rt; found.as_slice(), OF_HUNDREDS.as_slice());
    Ok(())
}

#[test]
fn rings_of_700_chains_are_those_of_the_model(rt: HostRuntime) -> Result<(), Fail> {
    let found = checksum(rt.alloc(), &[700])?;
    assert_eq!(rt; found.as_slice(), OF_700.as_slice());
    Ok(())
}

#[test]
fn rings_of_1000_chains_are_those_of_the_model(rt: HostRuntime) -> Result<(), Fail> {
    let found = checksum(rt.alloc(), &[1000])?;
    assert_eq!(rt; found.as_slice(), OF_1000.as_slice());
    Ok(())
}

#[test]
fn rings_of_1024_chains_are_those_of_the_model(rt: HostRuntime) -> Result<(), Fail> {
    let found = checksum(rt.alloc(), &[1024])?;
    assert_eq!(rt; found.as_slice(), OF_1024.as_slice());
    Ok(())
}
