//! What a load brings to the chains.

ghost use Rattle.std.specs.Prelude.{◌≡◌, ℕ, ◌+◌, ◌*◌, ◌-◌, ◌<◌, ◌≤◌, ◌++◌, length, map, IfOk, OnOk};
ghost use Rattle.std.specs.List.{All, range_with_len};
ghost use Rattle.dft_base.specs.Packed.{packed_bit};
ghost use Rattle.dft_base.specs.Solutions.{bit_at};
ghost use Rattle.dft_config.specs.Range.{IsRingInRange};
ghost use Rattle.dft_config.specs.Ring.{phase_sum};
ghost use Rattle.dft_config.specs.Loads.{moment_of_place};
ghost use Rattle.dft_stitch.specs.Plans.{falling_head};
ghost use Rattle.dft_expect.specs.Loaded.{table_of, loaded_of};
ghost use Rattle.dft_expect.specs.States.{state_at, HaveStages, brought};

use crate::ring;
use dft_base::Listed;
use dft_config::{Config, RingConfig, delay};
use dft_stitch::Chains;
use std::alloc::{AllocError, Global};

// The bit that enters a chain from the state after so many cycles.
pub(crate) fn entering(
    ring: &RingConfig,
    states: &[Listed<bool>],
    chain: usize,
    cycle: usize,
) -> bool
    requires ring { (chains : ℕ) × (chain < chains) × IsRingInRange chains ring.now }
    requires states { HaveStages ring.now states.now }
    requires cycle { cycle < length states.now }
    ensures { result ≡ phase_sum ring.now chain (bit_at (state_at states.now cycle)) }
{
    let stages = ring.phase.as_slice()[chain].as_slice();
    ring::phase_sum(stages, states[cycle].as_slice())
}

// Adds the bits that a load brings to so many cells of a chain, which is late or not, by the states before and after each of its cycles.
fn add_chain(
    loaded: &mut Vec<bool>,
    ring: &RingConfig,
    states: &[Listed<bool>],
    late: bool,
    chain: usize,
    cells: usize,
) -> Result<(), AllocError>
    requires ring { (chains : ℕ) × (chain < chains) × IsRingInRange chains ring.now }
    requires states { HaveStages ring.now states.now }
    requires cells { cells < length states.now }
    ensures { OnOk result (loaded.new.items ≡ loaded.old.items ++ map (brought ring.now states.now late chain) (range_with_len 0 cells)) }
{
    for place in 0..cells {
        let moment = states.len() - 2 - place + delay(late);
        loaded.push(entering(ring, states, chain, moment))?;
    }
    Ok(())
}

/// The bits that a load of these channel bits brings to the cells of all chains, chain by chain.
pub fn loaded(
    alloc: Global,
    config: &Config,
    chains: &Chains,
    bits: &[u64],
) -> Result<Vec<bool>, AllocError>
    requires ring { IsRingInRange (length chains.now.chains) config.now.ring }
    requires cells { All (λ cells. length cells ≤ chains.now.cycles) chains.now.chains }
    requires bits { chains.now.cycles * config.now.ring.channels ≤ 64 * length bits.now }
    ensures { IfOk result (λ loaded. loaded.items ≡ loaded_of config.now.ring (table_of config.now.ring (packed_bit bits.now)) chains.now.cycles (falling_head chains.now) chains.now.chains) }
{
    let ring = config.ring();
    let states = ring::states(alloc, ring, bits, chains.cycles())?;
    let mut loaded = Vec::new(alloc);
    for chain in 0..chains.count() {
        let cells = chains.chain(chain).len();
        let late = chains.falling_head(chain);
        add_chain(&mut loaded, ring, &states, late, usize::from(chain), cells)?;
    }
    Ok(loaded)
}
