//! The ring's states while channel bits are loaded.

ghost use Rattle.std.specs.Prelude.{◌≡◌, ℕ, ◌+◌, ◌*◌, ◌/◌, ◌%◌, ◌^◌, ◌<◌, ◌≤◌, ◌==◌, ◌&&◌, false, length, replicate, IfOk};
ghost use Rattle.std.specs.List.{All};
ghost use Rattle.dft_base.specs.Packed.{packed_bit};
ghost use Rattle.dft_base.specs.Solutions.{bit_at, xor};
ghost use Rattle.dft_config.specs.Range.{IsRingInRange};
ghost use Rattle.dft_config.specs.Ring.{tapped, injected, step, sum_of};
ghost use Rattle.dft_expect.specs.Loaded.{table_of};
ghost use Rattle.dft_expect.specs.States.{IsState, AreStates};

use dft_base::Listed;
use dft_config::{Injector, RingConfig, Tap};
use dft_lanes::has_bit;
use std::alloc::{AllocError, Global};
use std::mem;

// The states before and after each cycle of a load of these channel bits: after 0 cycles, 1 cycle and so on.
pub(crate) fn states(
    alloc: Global,
    ring: &RingConfig,
    bits: &[u64],
    cycles: u16,
) -> Result<Vec<Listed<bool>>, AllocError>
    requires ring { (chains : ℕ) × IsRingInRange chains ring.now }
    requires bits { cycles * ring.now.channels ≤ 64 * length bits.now }
    ensures { IfOk result (λ states. AreStates ring.now (table_of ring.now (packed_bit bits.now)) (cycles + 1) states.items) }
{
    let mut states = Vec::with_capacity(alloc, usize::from(cycles) + 1)?;
    let mut state = zero_state(alloc, ring.stages)?;
    for cycle in 0..cycles {
        let first = usize::from(cycle) * usize::from(ring.channels);
        let next = stepped(alloc, ring, &state, bits, first)?;
        states.push(Listed::from_vec(mem::replace(&mut state, next)))?;
    }
    states.push(Listed::from_vec(state))?;
    Ok(states)
}

// The state in which each stage is 0.
fn zero_state(alloc: Global, stages: u8) -> Result<Vec<bool>, AllocError>
    ensures { IfOk result (λ state. state.items ≡ replicate stages false) }
{
    vec![in alloc; false; stages as usize]
}

// The state one step later, where the bits of the channels begin at a place.
fn stepped(
    alloc: Global,
    ring: &RingConfig,
    state: &[bool],
    bits: &[u64],
    first: usize,
) -> Result<Vec<bool>, AllocError>
    requires ring { (chains : ℕ) × IsRingInRange chains ring.now }
    requires stages { length state.now ≡ ring.now.stages }
    requires bits { first + ring.now.channels ≤ 64 * length bits.now }
    requires small { first < 2 ^ 32 }
    ensures stages { IfOk result (λ next. length next.items ≡ ring.now.stages) }
    ensures step { IfOk result (λ next. (stage : ℕ) → bit_at next.items stage ≡ step ring.now (λ channel. packed_bit bits.now (first + channel)) (bit_at state.now) stage) }
{
    let mut next = rotated(alloc, state)?;
    bring(&mut next, ring, state, bits, first);
    Ok(next)
}

// Adds what taps and injectors bring.
fn bring(next: &mut [bool], ring: &RingConfig, state: &[bool], bits: &[u64], first: usize)
    requires ring { (chains : ℕ) × IsRingInRange chains ring.now }
    requires stages { length state.now ≡ ring.now.stages }
    requires next { length next.old ≡ length state.now }
    requires bits { first + ring.now.channels ≤ 64 * length bits.now }
    requires small { first < 2 ^ 32 }
    ensures { (stage : ℕ) → bit_at next.new stage ≡ xor (xor (bit_at next.old stage) (tapped ring.now.taps (bit_at state.now) stage)) (injected ring.now.injectors (λ channel. packed_bit bits.now (first + channel)) stage) }
{
    add_taps(next, ring.taps.as_slice(), state);
    add_injectors(next, ring.injectors.as_slice(), bits, first);
}

// The bits of the stages after each; the stage after the last is the first.
fn rotated(alloc: Global, state: &[bool]) -> Result<Vec<bool>, AllocError>
    ensures stages { IfOk result (λ next. length next.items ≡ length state.now) }
    ensures bits { IfOk result (λ next. (stage : ℕ) → stage < length state.now → bit_at next.items stage ≡ bit_at state.now ((stage + 1) % length state.now)) }
{
    let mut next = Vec::with_capacity(alloc, state.len())?;
    for stage in 0..state.len() {
        next.push(state[(stage + 1) % state.len()])?;
    }
    Ok(next)
}

// Adds what the taps bring from a state.
fn add_taps(next: &mut [bool], taps: &[Tap], state: &[bool])
    requires stages { length next.old ≡ length state.now }
    requires within { All (λ tap. (tap.from < length state.now) × (tap.to < length state.now)) taps.now }
    ensures { (stage : ℕ) → bit_at next.new stage ≡ xor (bit_at next.old stage) (tapped taps.now (bit_at state.now) stage) }
{
    for tap in taps {
        add_at(next, tap.to as usize, state[tap.from as usize]);
    }
}

// Adds what the injectors bring, where the bits of the channels begin at a place.
fn add_injectors(next: &mut [bool], injectors: &[Injector], bits: &[u64], first: usize)
    requires small { first < 2 ^ 32 }
    requires within { All (λ injector. (first + injector.channel < 64 * length bits.now) × (injector.stage < length next.old)) injectors.now }
    ensures { (stage : ℕ) → bit_at next.new stage ≡ xor (bit_at next.old stage) (injected injectors.now (λ channel. packed_bit bits.now (first + channel)) stage) }
{
    for injector in injectors {
        let bit = has_bit(bits, first + injector.channel as usize);
        add_at(next, injector.stage as usize, bit);
    }
}

// Adds a bit to the one at a place.
fn add_at(bits: &mut [bool], place: usize, bit: bool)
    requires { place < length bits.old }
    ensures { (k : ℕ) → bit_at bits.new k ≡ xor (bit_at bits.old k) ((place == k) && bit) }
{
    bits[place] ^= bit;
}

// The sum of the stages that a chain takes.
pub(crate) fn phase_sum(stages: &[u8], state: &[bool]) -> bool
    requires { All (λ stage. stage < length state.now) stages.now }
    ensures { result ≡ sum_of (bit_at state.now) stages.now }
{
    let mut sum = false;
    for stage in stages {
        sum ^= state[usize::from(*stage)];
    }
    sum
}
