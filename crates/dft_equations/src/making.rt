ghost use Rattle.std.specs.Prelude.{◌≡◌, ℕ, suc, ◌*◌, ◌/◌, ◌<◌, ◌≤◌, ◌^◌, length, map, min, IfOk};
ghost use Rattle.std.specs.List.{All, slice_index, range_with_len};
ghost use Rattle.dft_base.specs.Solutions.{bit_at};
ghost use Rattle.dft_config.specs.Ring.{sum_of};
ghost use Rattle.dft_config.specs.Loads.{load_equation};
ghost use Rattle.dft_equations.specs.ChainRows.{AreMoved};
ghost use Rattle.dft_equations.specs.Impulses.{AreImpulses};
ghost use Rattle.dft_equations.specs.LoadRows.{AreLoadEquations, AreRowsOf, equation_row};

use crate::chain_rows::ChainRows;
use crate::impulses::impulses;
use crate::row::Row;
use crate::table::Equations;
use dft_config::{Config, Listed, delay};
use std::alloc::{AllocError, Global};

/// The load equations of the cells of chains of these lengths, for loads of so many cycles (Rajski and others, 2004): a cell
/// sums a variable where its 1 alone brings the cell a 1. For each chain it is told whether its first cell is falling.
pub fn equations(
    alloc: Global,
    config: &Config,
    lengths: &[u16],
    falling: &[bool],
    cycles: u16,
) -> Result<Equations, AllocError>
    requires chains { length lengths.now ≡ config.now.chains }
    requires heads { length falling.now ≡ length lengths.now }
    requires lengths { All (λ cells. cells ≤ cycles) lengths.now }
    requires columns { cycles * config.now.ring.channels ≤ 16384 }
    ensures { IfOk result (AreLoadEquations config.now.ring lengths.now (bit_at falling.now) cycles) }
{
    config.soundness();
    let responses = impulses(alloc, config, cycles + 1)?;
    let mut chains = Vec::with_capacity(alloc, lengths.len())?;
    for chain in 0..lengths.len() {
        let cells = lengths[chain];
        chains.push(chain_rows(
            alloc,
            config,
            &responses,
            falling[chain],
            chain,
            cells,
            cycles,
        )?)?;
    }
    Ok(Equations::new(
        u32::from(cycles) * u32::from(config.ring().channels),
        chains,
    ))
}

// The rows of the cells of a chain: the first one's, moved down by the channels for each place.
fn chain_rows(
    alloc: Global,
    config: &Config,
    responses: &[Listed<Listed<bool>>],
    late: bool,
    chain: usize,
    cells: u16,
    cycles: u16,
) -> Result<ChainRows, AllocError>
    requires responses { AreImpulses config.now.ring (suc cycles) responses.now }
    requires chain { chain < config.now.chains }
    requires cells { cells ≤ cycles }
    requires columns { cycles * config.now.ring.channels ≤ 16384 }
    ensures { IfOk result (AreRowsOf config.now.ring cycles late chain cells) }
{
    config.soundness();
    let bits = first_bits(alloc, config, responses, late, chain, cycles)?;
    let first = Row::of_bits(alloc, &bits)?;
    let channels = config.ring().channels;
    let kept = kept_rows(alloc, &first, channels, cells)?;
    let columns = u32::from(cycles) * u32::from(channels);
    Ok(ChainRows::new(columns, channels, cells, kept))
}

// The rows of the first 64 of so many places, with room for the words that the last one moves down by.
fn kept_rows(alloc: Global, first: &Row, channels: u8, cells: u16) -> Result<Vec<Row>, AllocError>
    requires { length first.now ≤ 16384 }
    ensures { IfOk result (λ kept. AreMoved first.now channels (channels * (cells / 64)) (min cells 64) kept.items) }
{
    let places = cells.min(64);
    let more = u32::from(channels) * u32::from(cells / 64);
    let mut kept = Vec::with_capacity(alloc, usize::from(places))?;
    for place in 0..places {
        let row = first.moved(alloc, u32::from(place) * u32::from(channels), more)?;
        kept.push(row)?;
    }
    Ok(kept)
}

// The load equation of the first cell of a chain, column by column.
fn first_bits(
    alloc: Global,
    config: &Config,
    responses: &[Listed<Listed<bool>>],
    late: bool,
    chain: usize,
    cycles: u16,
) -> Result<Vec<bool>, AllocError>
    requires responses { AreImpulses config.now.ring (suc cycles) responses.now }
    requires chain { chain < config.now.chains }
    requires columns { cycles * config.now.ring.channels ≤ 16384 }
    ensures { IfOk result (λ bits. bits.items ≡ equation_row config.now.ring cycles late chain 0) }
{
    let columns = usize::from(cycles) * usize::from(config.ring().channels);
    let mut bits = Vec::with_capacity(alloc, columns)?;
    for column in 0..columns {
        bits.push(first_bit(config, responses, late, chain, cycles, column))?;
    }
    Ok(bits)
}

// Whether the column is in the load equation of the first cell of a chain: the phase sum of its channel's impulse response,
// after as many cycles as there are from its own cycle on, and one more where the chain is late.
fn first_bit(
    config: &Config,
    responses: &[Listed<Listed<bool>>],
    late: bool,
    chain: usize,
    cycles: u16,
    column: usize,
) -> bool
    requires responses { AreImpulses config.now.ring (suc cycles) responses.now }
    requires chain { chain < config.now.chains }
    requires column { column < cycles * config.now.ring.channels }
    ensures { result ≡ load_equation config.now.ring cycles late chain 0 column }
{
    config.soundness();
    let channels = usize::from(config.ring().channels);
    let response = responses[column % channels].as_slice();
    let moment = usize::from(cycles) - 1 - column / channels + delay(late);
    let state = response[moment].as_slice();
    phase_sum(config.ring().phase.as_slice()[chain].as_slice(), state)
}

// The sum of the stages that a chain takes.
fn phase_sum(stages: &[u8], state: &[bool]) -> bool
    requires { All (λ stage. stage < length state.now) stages.now }
    ensures { result ≡ sum_of (bit_at state.now) stages.now }
{
    let mut sum = false;
    for stage in stages {
        sum ^= state[usize::from(*stage)];
    }
    sum
}
