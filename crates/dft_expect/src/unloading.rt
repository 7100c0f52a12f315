//! The bits that the outputs show while a pattern is unloaded.

ghost use Rattle.std.specs.Prelude.{◌≡◌, ℕ, suc, ◌+◌, ◌*◌, ◌-◌, ◌^◌, ◌<◌, ◌≤◌, ◌++◌, List, length, map, IfOk, OnOk};
ghost use Rattle.std.specs.List.{All};
ghost use Rattle.dft_base.specs.Packed.{packed_bit};
ghost use Rattle.dft_config.specs.Range.{IsRingInRange};
ghost use Rattle.dft_config.specs.Ring.{Table};
ghost use Rattle.dft_stitch.specs.Plans.{falling_head};
ghost use Rattle.dft_expect.specs.Loaded.{all_cells, table_of};
ghost use Rattle.dft_expect.specs.Masks.{by_chain};
ghost use Rattle.dft_expect.specs.Expected.{chain_at, shown_by, counted_by, output_bit, expected_of};
ghost use Rattle.dft_expect.specs.Expected as spec;
ghost use Rattle.dft_expect.specs.States.{AreStates, HaveStages};
ghost use Rattle.dft_expect.specs.Unloads.{AreStarts};

use crate::loading::entering;
use crate::response::Response;
use crate::ring::states;
use dft_base::{Listed, Tri};
use dft_config::{Config, RingConfig, delay};
use dft_stitch::Chains;
use std::alloc::{AllocError, Global};

// Where the values of each chain begin.
pub(crate) fn starts(alloc: Global, chains: &Chains) -> Result<Vec<usize>, AllocError>
    requires { length (all_cells chains.now.chains) < 2 ^ 64 }
    ensures { IfOk result (λ starts. AreStarts chains.now.chains starts.items) }
{
    let mut starts = Vec::with_capacity(alloc, usize::from(chains.count()))?;
    let mut start = 0;
    for chain in 0..chains.count() {
        starts.push(start)?;
        start += chains.chain(chain).len();
    }
    Ok(starts)
}

fn is_one(value: Tri) -> bool
    ensures { result ≡ spec.is_one value }
{
    match value {
        Tri::One => true,
        Tri::Zero | Tri::Unknown => false,
    }
}

// What is unloaded: the captured values and where those of each chain begin, and the states of the load that is running.
#[derive(Clone, Copy)]
struct Unload<'a> {
    ring: &'a RingConfig,
    chains: &'a Chains,
    values: &'a [Tri],
    starts: &'a [usize],
    states: &'a [Listed<bool>],
}

// What a chain shows in a cycle.
fn shown(unload: &Unload<'_>, chain: u16, cycle: usize) -> bool
    requires chain { chain < length unload.now.chains.now.chains }
    requires ring { IsRingInRange (length unload.now.chains.now.chains) unload.now.ring.now }
    requires values { length unload.now.values.now ≡ length (all_cells unload.now.chains.now.chains) }
    requires starts { AreStarts unload.now.chains.now.chains unload.now.starts.now }
    requires states { HaveStages unload.now.ring.now unload.now.states.now }
    requires cycle { suc cycle < length unload.now.states.now }
    requires small { length unload.now.values.now < 2 ^ 64 }
    ensures { (table : Table) → AreStates unload.now.ring.now table (length unload.now.states.now) unload.now.states.now
        → result ≡ shown_by unload.now.ring.now table (falling_head unload.now.chains.now chain) chain (chain_at (by_chain unload.now.chains.now.chains unload.now.values.now) chain) cycle }
{
    let cells = unload.chains.chain(chain).len();
    let late = unload.chains.falling_head(chain);
    let chain = usize::from(chain);
    if cycle < cells {
        is_one(unload.values[unload.starts[chain] + cells - 1 - cycle])
    } else {
        let moment = cycle - cells + delay(late);
        entering(unload.ring, unload.states, chain, moment)
    }
}

// What a chain brings to an output in a cycle: nothing where it is masked.
fn counted(unload: &Unload<'_>, masks: &[bool], chain: u16, cycle: usize) -> bool
    requires chain { chain < length unload.now.chains.now.chains }
    requires ring { IsRingInRange (length unload.now.chains.now.chains) unload.now.ring.now }
    requires values { length unload.now.values.now ≡ length (all_cells unload.now.chains.now.chains) }
    requires starts { AreStarts unload.now.chains.now.chains unload.now.starts.now }
    requires states { HaveStages unload.now.ring.now unload.now.states.now }
    requires cycle { suc cycle < length unload.now.states.now }
    requires small { length unload.now.values.now < 2 ^ 64 }
    requires masks { length masks.now ≡ length unload.now.chains.now.chains }
    ensures { (table : Table) → AreStates unload.now.ring.now table (length unload.now.states.now) unload.now.states.now
        → result ≡ counted_by unload.now.ring.now table (falling_head unload.now.chains.now) masks.now (by_chain unload.now.chains.now.chains unload.now.values.now) cycle chain }
{
    if masks[usize::from(chain)] {
        false
    } else {
        shown(unload, chain, cycle)
    }
}

// What an output shows in a cycle: the sum over the chains of its group.
fn output(unload: &Unload<'_>, masks: &[bool], group: &[u16], cycle: usize) -> bool
    requires group { All (λ chain. chain < length unload.now.chains.now.chains) group.now }
    requires ring { IsRingInRange (length unload.now.chains.now.chains) unload.now.ring.now }
    requires values { length unload.now.values.now ≡ length (all_cells unload.now.chains.now.chains) }
    requires starts { AreStarts unload.now.chains.now.chains unload.now.starts.now }
    requires states { HaveStages unload.now.ring.now unload.now.states.now }
    requires cycle { suc cycle < length unload.now.states.now }
    requires small { length unload.now.values.now < 2 ^ 64 }
    requires masks { length masks.now ≡ length unload.now.chains.now.chains }
    ensures { (table : Table) → AreStates unload.now.ring.now table (length unload.now.states.now) unload.now.states.now
        → result ≡ output_bit unload.now.ring.now table (falling_head unload.now.chains.now) masks.now (by_chain unload.now.chains.now.chains unload.now.values.now) cycle group.now }
{
    let mut sum = false;
    for chain in group {
        sum ^= counted(unload, masks, *chain, cycle);
    }
    sum
}

// Adds what each output shows in a cycle.
fn add_cycle(
    expected: &mut Vec<bool>,
    unload: &Unload<'_>,
    masks: &[bool],
    groups: &[Listed<u16>],
    cycle: usize,
) -> Result<(), AllocError>
    requires groups { All (λ group. All (λ chain. chain < length unload.now.chains.now.chains) group) groups.now }
    requires ring { IsRingInRange (length unload.now.chains.now.chains) unload.now.ring.now }
    requires values { length unload.now.values.now ≡ length (all_cells unload.now.chains.now.chains) }
    requires starts { AreStarts unload.now.chains.now.chains unload.now.starts.now }
    requires states { HaveStages unload.now.ring.now unload.now.states.now }
    requires cycle { suc cycle < length unload.now.states.now }
    requires small { length unload.now.values.now < 2 ^ 64 }
    requires masks { length masks.now ≡ length unload.now.chains.now.chains }
    ensures { OnOk result ((table : Table) → AreStates unload.now.ring.now table (length unload.now.states.now) unload.now.states.now
        → expected.new.items ≡ expected.old.items ++ map (output_bit unload.now.ring.now table (falling_head unload.now.chains.now) masks.now (by_chain unload.now.chains.now.chains unload.now.values.now) cycle) groups.now) }
{
    for group in groups {
        expected.push(output(unload, masks, group.as_slice(), cycle))?;
    }
    Ok(())
}

/// What each output shows in each cycle of the load of the next channel bits: cycle by cycle, in each output by output.
pub fn expected(
    alloc: Global,
    config: &Config,
    chains: &Chains,
    response: &Response,
    masks: &[bool],
    next: &[u64],
) -> Result<Vec<bool>, AllocError>
    requires ring { IsRingInRange (length chains.now.chains) config.now.ring }
    requires groups { All (λ group. All (λ chain. chain < length chains.now.chains) group) config.now.compactor.groups }
    requires values { length response.now.cells ≡ length (all_cells chains.now.chains) }
    requires masks { length masks.now ≡ length chains.now.chains }
    requires next { chains.now.cycles * config.now.ring.channels ≤ 64 * length next.now }
    ensures { IfOk result (λ expected. expected.items ≡ expected_of config.now.ring config.now.compactor.groups (table_of config.now.ring (packed_bit next.now)) (falling_head chains.now) masks.now (by_chain chains.now.chains response.now.cells) chains.now.cycles) }
{
    let values = response.cells.as_slice();
    let ring = config.ring();
    let states = states(alloc, ring, next, chains.cycles())?;
    let starts = starts(alloc, chains)?;
    let unload = Unload {
        ring,
        chains,
        values,
        starts: &starts,
        states: &states,
    };
    let groups = config.compactor().groups.as_slice();
    let mut expected = Vec::new(alloc);
    for cycle in 0..usize::from(chains.cycles()) {
        add_cycle(&mut expected, &unload, masks, groups, cycle)?;
    }
    Ok(expected)
}
