ghost use Rattle.std.specs.Prelude.{◌≡◌, ◌<◌, ◌≤◌, length, IsTrue, nat_le};
ghost use Rattle.std.specs.List.{list_all};
ghost use Rattle.dft_equations.specs.LoadRows.{rows_of};

use dft_config::{Config, FillRule, Injector, Tap};
use dft_equations::{Equations, equations};
use dft_test_configs::{Shape, config_of};
use std::alloc::{AllocError, Global};
use std::test::Fail;

// Four stages and one channel; two chains of two stages each.
static SMALL_RING: Shape = Shape {
    domains: &["clk"],
    resets: &[],
    chains: 2,
    warm: 0,
    window: 1,
    fill: FillRule::Zeros,
    stages: 4,
    channels: 1,
    taps: &[Tap { from: 2, to: 0 }],
    injectors: &[Injector {
        channel: 0,
        stage: 3,
    }],
    phase: &[&[0, 3], &[1, 2]],
    groups: &[&[0, 1]],
    mask_inputs: 1,
};

// Three stages and two channels; two taps meet in stage 1, channel 0 comes into two stages, and each chain takes one stage.
static CROSSED_RING: Shape = Shape {
    domains: &["clk"],
    resets: &[],
    chains: 3,
    warm: 0,
    window: 1,
    fill: FillRule::Zeros,
    stages: 3,
    channels: 2,
    taps: &[Tap { from: 0, to: 1 }, Tap { from: 1, to: 1 }],
    injectors: &[
        Injector {
            channel: 0,
            stage: 0,
        },
        Injector {
            channel: 0,
            stage: 2,
        },
        Injector {
            channel: 1,
            stage: 1,
        },
    ],
    phase: &[&[0], &[1], &[2]],
    groups: &[&[0, 1, 2]],
    mask_inputs: 1,
};

// Eight stages, two channels and eight chains.
static REALISTIC_RING: Shape = Shape {
    domains: &["clk"],
    resets: &[],
    chains: 8,
    warm: 0,
    window: 1,
    fill: FillRule::Zeros,
    stages: 8,
    channels: 2,
    taps: &[Tap { from: 2, to: 5 }],
    injectors: &[
        Injector {
            channel: 0,
            stage: 7,
        },
        Injector {
            channel: 1,
            stage: 3,
        },
    ],
    phase: &[
        &[7],
        &[3],
        &[1, 7],
        &[3, 6],
        &[0, 7],
        &[2, 3],
        &[0, 5, 7],
        &[1, 3],
    ],
    groups: &[&[0, 1, 2, 3, 4, 5, 6, 7]],
    mask_inputs: 1,
};

// The columns of a row of so many columns.
fn columns_in(alloc: Global, words: &[u64], columns: u32) -> Result<String, AllocError> {
    let mut text = String::new(alloc);
    for column in 0..columns {
        let word = words.get(column as usize / 64).copied().unwrap_or(0);
        if (word >> (column % 64)) & 1 == 1 {
            if !text.is_empty() {
                text.push(' ')?;
            }
            text.push_str(&format!(in alloc; "{column}")?)?;
        }
    }
    Ok(text)
}

// Whether no chain has more than so many cells.
fn are_at_most(lengths: &[u16], cycles: u16) -> bool
    ensures { result ≡ list_all (λ cells. nat_le cells cycles) lengths.now }
{
    lengths.iter().all(|cells| *cells <= cycles)
}

fn small_ring(alloc: Global) -> Result<Config, AllocError> {
    config_of(alloc, &SMALL_RING)
}

fn crossed_ring(alloc: Global) -> Result<Config, AllocError> {
    config_of(alloc, &CROSSED_RING)
}

fn realistic_ring(alloc: Global) -> Result<Config, AllocError> {
    config_of(alloc, &REALISTIC_RING)
}

// The columns of each cell's row on a line of its own, chain after chain, for loads of so many cycles through the ring of this
// configuration.
fn told(
    alloc: Global,
    config: &Config,
    lengths: &[u16],
    falling: &[bool],
    cycles: u16,
) -> Result<String, AllocError> {
    if cycles > 512 || !are_at_most(lengths, cycles) {
        return String::from_str(alloc, "too long");
    }
    fitting_rows(alloc, config, lengths, falling, cycles)
}

fn fitting_rows(
    alloc: Global,
    config: &Config,
    lengths: &[u16],
    falling: &[bool],
    cycles: u16,
) -> Result<String, AllocError>
    requires lengths { IsTrue (list_all (λ cells. nat_le cells cycles) lengths.now) }
    requires columns { cycles ≤ 512 }
{
    if usize::from(config.chains()) != lengths.len() || falling.len() != lengths.len() {
        return String::from_str(alloc, "not of so many chains");
    }
    rows(alloc, config, lengths, falling, cycles)
}

fn rows(
    alloc: Global,
    config: &Config,
    lengths: &[u16],
    falling: &[bool],
    cycles: u16,
) -> Result<String, AllocError>
    requires chains { length lengths.now ≡ config.now.chains }
    requires heads { length falling.now ≡ length lengths.now }
    requires lengths { IsTrue (list_all (λ cells. nat_le cells cycles) lengths.now) }
    requires columns { cycles ≤ 512 }
{
    config.soundness();
    let equations = equations(alloc, config, lengths, falling, cycles)?;
    let mut text = String::new(alloc);
    for chain in 0..config.chains() {
        let places = lengths[usize::from(chain)];
        push_chain(alloc, &equations, chain, places, &mut text)?;
    }
    Ok(text)
}

// Writes the columns of the rows of the first so many places of a chain.
fn push_chain(
    alloc: Global,
    equations: &Equations,
    chain: u16,
    places: u16,
    text: &mut String,
) -> Result<(), AllocError>
    requires chain { chain < length equations.now.chains }
    requires places { places ≤ length (rows_of equations.now chain) }
{
    for place in 0..places {
        let words = equations.of_cell(chain, place);
        push_line(text, &columns_in(alloc, words, equations.columns())?)?;
    }
    Ok(())
}

fn push_line(text: &mut String, line: &str) -> Result<(), AllocError> {
    text.push_str(line)?;
    text.push('\n')
}

// The last column of each line.
fn newest(alloc: Global, text: &str) -> Result<String, AllocError> {
    let mut newest = String::new(alloc);
    for line in text.lines() {
        newest.push_str(line.rsplit(' ').next().unwrap_or(""))?;
        newest.push(' ')?;
    }
    Ok(newest)
}

static WITH_WARM_CYCLES: &str = "1 3\n0 2\n1\n1 2\n0 1\n";

static WITH_NONE: &str = "1\n0\n\n0\n\n";

// The first chain begins with a falling cell.
static WITH_A_FALLING_HEAD: &str = "0 2 4\n1 3\n0 2\n1 2\n0 1\n";

// One cell a chain and no warm cycle: a first cell that falls takes the variable of the load's last cycle too.
static WITH_THE_LAST_VARIABLE: &str = "0\n\n";

// The states of the crossed ring, stage by stage, the sixth one first; column 2 t is channel 0 at cycle t, and 2 t + 1 channel 1.
static BY_HAND: &str =
    "0 2 5 7 8\n0 3 5 6\n1 3 4\n1 2\n0\n\n1 2 4 7 9\n0 2 5 7\n0 3 5\n1 3\n1\n\n0 3 5 6 8\n1 3 4 6\n1 2 4\n0 2\n0\n\n";

static AS_LONG_AS_MASKS: &str = "1 2\n1 3\n0 2\n";

#[test]
fn a_small_ring_gives_its_equations(rt: HostRuntime) -> Result<(), Fail> {
    let alloc = rt.alloc();
    let rows = told(alloc, &small_ring(alloc)?, &[3u16, 2], &[false; 2], 5)?;
    assert_eq!(rt; rows.as_str(), WITH_WARM_CYCLES);
    Ok(())
}

#[test]
fn without_warm_cycles_some_equations_are_empty(rt: HostRuntime) -> Result<(), Fail> {
    let alloc = rt.alloc();
    let rows = told(alloc, &small_ring(alloc)?, &[3u16, 2], &[false; 2], 3)?;
    assert_eq!(rt; rows.as_str(), WITH_NONE);
    Ok(())
}

#[test]
fn a_falling_head_takes_its_variables_a_cycle_later(rt: HostRuntime) -> Result<(), Fail> {
    let alloc = rt.alloc();
    let rows = told(alloc, &small_ring(alloc)?, &[3u16, 2], &[true, false], 5)?;
    assert_eq!(rt; rows.as_str(), WITH_A_FALLING_HEAD);
    Ok(())
}

#[test]
fn a_falling_head_takes_the_variable_of_the_last_cycle(rt: HostRuntime) -> Result<(), Fail> {
    let alloc = rt.alloc();
    let rows = told(alloc, &small_ring(alloc)?, &[1u16, 1], &[true, false], 1)?;
    assert_eq!(rt; rows.as_str(), WITH_THE_LAST_VARIABLE);
    Ok(())
}

#[test]
fn states_of_crossed_taps_are_as_by_hand(rt: HostRuntime) -> Result<(), Fail> {
    let alloc = rt.alloc();
    let rows = told(alloc, &crossed_ring(alloc)?, &[6u16, 6, 6], &[false; 3], 6)?;
    assert_eq!(rt; rows.as_str(), BY_HAND);
    Ok(())
}

#[test]
fn the_newest_variables_of_a_realistic_ring_fall_by_a_cycle(rt: HostRuntime) -> Result<(), Fail> {
    let alloc = rt.alloc();
    let rows = told(
        alloc,
        &realistic_ring(alloc)?,
        &[5u16, 5, 5, 5, 5, 5, 5, 5],
        &[false; 8],
        13,
    )?;
    assert!(rt;
        newest(alloc, rows.as_str())?
            .as_str()
            .starts_with("22 20 18 16 ")
    );
    Ok(())
}

// One cell a chain, no warm cycle, and one mask input for three chains: it takes three cycles to send the masks.
#[test]
fn loads_may_be_as_long_as_the_longest_mask_segment(rt: HostRuntime) -> Result<(), Fail> {
    let alloc = rt.alloc();
    let rows = told(alloc, &crossed_ring(alloc)?, &[1u16, 1, 1], &[false; 3], 3)?;
    assert_eq!(rt; rows.as_str(), AS_LONG_AS_MASKS);
    Ok(())
}
