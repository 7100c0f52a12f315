//! The fill of a seed.

use dft_config::{Config, FillRule, Injector, Tap};
use dft_merge::fill_bits;
use dft_test_configs::{Shape, config_of};
use std::alloc::{AllocError, Global};
use std::test::Fail;

// The fill of pattern 54 under seed 42: the generator's words as its authors print them, 0xa15c02b7 and 0x7b47f409, low bit first.
static SEEDED: Shape = Shape {
    domains: &["clk"],
    resets: &[],
    chains: 2,
    warm: 2,
    window: 4,
    fill: FillRule::Seed(42),
    stages: 4,
    channels: 1,
    taps: &[Tap { from: 2, to: 0 }],
    injectors: &[Injector {
        channel: 0,
        stage: 3,
    }],
    phase: &[&[0, 3], &[1, 2]],
    groups: &[&[0, 1], &[1]],
    mask_inputs: 1,
};

fn word_of_fill(alloc: Global, config: &Config) -> Result<u64, AllocError> {
    let mut word = 0u64;
    for bit in fill_bits(alloc, config, 54, 64)?.iter().rev() {
        word = word << 1 | u64::from(*bit);
    }
    Ok(word)
}

#[test]
fn a_seed_fills_by_the_words_of_its_generator(rt: HostRuntime) -> Result<(), Fail> {
    let word = word_of_fill(rt.alloc(), &config_of(rt.alloc(), &SEEDED)?)?;
    assert_eq!(rt; word, 0x7b47_f409_a15c_02b7u64);
    Ok(())
}
