ghost use Rattle.std.specs.Prelude.{◌≡◌, ℕ, ◌+◌, ◌%◌, ◌<◌, ◌==◌, ◌&&◌, false, length, replicate, IfOk};
ghost use Rattle.std.specs.List.{All};
ghost use Rattle.dft_base.specs.Solutions.{bit_at, xor};
ghost use Rattle.dft_config.specs.Ring.{tapped, injected, step};
ghost use Rattle.dft_equations.specs.Impulses.{IsImpulse, AreImpulses};

use dft_config::{Config, Injector, Listed, Tap};
use std::alloc::{AllocError, Global};
use std::mem;

/// The first so many states that a single 1 brings, for each channel by its own 1 at cycle 0.
pub fn impulses(
    alloc: Global,
    config: &Config,
    states: u16,
) -> Result<Vec<Listed<Listed<bool>>>, AllocError>
    ensures { IfOk result (λ all. AreImpulses config.now.ring states all.items) }
{
    let mut all = Vec::with_capacity(alloc, config.ring().channels as usize)?;
    for channel in 0..config.ring().channels {
        all.push(impulse(alloc, config, channel, states)?)?;
    }
    Ok(all)
}

// The first so many states that a single 1 on the channel at cycle 0 brings, one for each number of cycles.
fn impulse(
    alloc: Global,
    config: &Config,
    channel: u8,
    states: u16,
) -> Result<Listed<Listed<bool>>, AllocError>
    ensures { IfOk result (IsImpulse config.now.ring channel states) }
{
    let mut response = Vec::with_capacity(alloc, states as usize)?;
    let mut state = zero_state(alloc, config.ring().stages)?;
    for cycle in 0..states {
        let next = stepped(alloc, config, &state, channel, cycle == 0)?;
        response.push(Listed::from_vec(mem::replace(&mut state, next)))?;
    }
    Ok(Listed::from_vec(response))
}

// The state in which each stage is 0.
fn zero_state(alloc: Global, stages: u8) -> Result<Vec<bool>, AllocError>
    ensures { IfOk result (λ state. state.items ≡ replicate stages false) }
{
    vec![in alloc; false; stages as usize]
}

// The state one step later, where the channel is fed this bit and the others 0.
fn stepped(
    alloc: Global,
    config: &Config,
    state: &[bool],
    channel: u8,
    bit: bool,
) -> Result<Vec<bool>, AllocError>
    requires stages { length state.now ≡ config.now.ring.stages }
    ensures stages { IfOk result (λ next. length next.items ≡ config.now.ring.stages) }
    ensures step { IfOk result (λ next. (stage : ℕ) → bit_at next.items stage ≡ step config.now.ring (λ other. (other == channel) && bit) (bit_at state.now) stage) }
{
    let mut next = rotated(alloc, state)?;
    bring(&mut next, config, state, channel, bit);
    Ok(next)
}

// Adds what taps and injectors bring.
fn bring(next: &mut [bool], config: &Config, state: &[bool], channel: u8, bit: bool)
    requires stages { length state.now ≡ config.now.ring.stages }
    requires next { length next.old ≡ length state.now }
    ensures { (stage : ℕ) → bit_at next.new stage ≡ xor (xor (bit_at next.old stage) (tapped config.now.ring.taps (bit_at state.now) stage)) (injected config.now.ring.injectors (λ other. (other == channel) && bit) stage) }
{
    config.soundness();
    add_taps(next, config.ring().taps.as_slice(), state);
    add_injectors(next, config.ring().injectors.as_slice(), channel, bit);
}

// The bits of the stages after each; the stage after the last is the first.
fn rotated(alloc: Global, state: &[bool]) -> Result<Vec<bool>, AllocError>
    ensures stages { IfOk result (λ next. length next.items ≡ length state.now) }
    ensures bits { IfOk result (λ next. (stage : ℕ) → stage < length state.now → bit_at next.items stage ≡ bit_at state.now ((stage + 1) % length state.now)) }
{
    let mut next = Vec::with_capacity(alloc, state.len())?;
    for stage in 0..state.len() {
        next.push(state[(stage + 1) % state.len()])?;
    }
    Ok(next)
}

// Adds what the taps bring from a state.
fn add_taps(next: &mut [bool], taps: &[Tap], state: &[bool])
    requires stages { length next.old ≡ length state.now }
    requires within { All (λ tap. (tap.from < length state.now) × (tap.to < length state.now)) taps.now }
    ensures { (stage : ℕ) → bit_at next.new stage ≡ xor (bit_at next.old stage) (tapped taps.now (bit_at state.now) stage) }
{
    for tap in taps {
        add_at(next, tap.to as usize, state[tap.from as usize]);
    }
}

// Adds what the injectors bring, where the channel is fed this bit and the others 0.
fn add_injectors(next: &mut [bool], injectors: &[Injector], channel: u8, bit: bool)
    requires { All (λ injector. injector.stage < length next.old) injectors.now }
    ensures { (stage : ℕ) → bit_at next.new stage ≡ xor (bit_at next.old stage) (injected injectors.now (λ other. (other == channel) && bit) stage) }
{
    for injector in injectors {
        add_at(
            next,
            injector.stage as usize,
            injector.channel == channel && bit,
        );
    }
}

// Adds a bit to the one at a place.
fn add_at(bits: &mut [bool], place: usize, bit: bool)
    requires { place < length bits.old }
    ensures { (k : ℕ) → bit_at bits.new k ≡ xor (bit_at bits.old k) ((place == k) && bit) }
{
    bits[place] ^= bit;
}
