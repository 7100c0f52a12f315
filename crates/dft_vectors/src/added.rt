//! The added ports.

ghost use Rattle.std.specs.Prelude.{◌≡◌, ◌+◌, ◌*◌, ◌<◌, ◌≤◌, ◌^◌, ◌++◌, ℕ, false, get_or, length, map, IfOk, OnOk};
ghost use Rattle.std.specs.List.{range_with_len};
ghost use Rattle.dft_base.specs.Packed.{packed_bit};
ghost use Rattle.dft_base.specs.Solutions.{bit_at};
ghost use Rattle.dft_config.specs.Segments as segments;
ghost use Rattle.dft_config.specs.Segments.{sent_mask};
ghost use Rattle.dft_vectors.specs.AddedPorts as spec;
ghost use Rattle.dft_vectors.specs.OwnPorts as own;
ghost use Rattle.dft_vectors.specs.Segments.{segments_of, sent_in};

use crate::acts::set_to;
use dft_config::Config;
use dft_lanes::has_bit;
use dft_patterns::Act;
use std::alloc::{AllocError, Global};

// A mask segment: its first chain, and how many chains it has.
#[derive(Clone, Copy)]
pub(crate) struct Segment {
    pub(crate) start: u16,
    pub(crate) length: u16,
}

// The mask segments.
pub(crate) fn segments(alloc: Global, config: &Config) -> Result<Vec<Segment>, AllocError>
    ensures { IfOk result (λ segments. segments.items ≡ segments_of config.now) }
{
    config.soundness();
    let mut segments = Vec::new(alloc);
    let mut start = 0;
    for segment in 0..config.compactor().mask_inputs {
        let length = segment_length(config, segment);
        segments.push(Segment { start, length })?;
        start += length;
    }
    Ok(segments)
}

// How many chains a segment has.
fn segment_length(config: &Config, segment: u8) -> u16
    ensures length { result ≡ segments.segment_length config.now segment }
    ensures few { result ≤ 1025 }
{
    config.soundness();
    let inputs = u16::from(config.compactor().mask_inputs);
    if u16::from(segment) < config.chains() % inputs {
        config.chains() / inputs + 1
    } else {
        config.chains() / inputs
    }
}

// What a segment's port gets so many cycles before the last.
fn sent(segment: Segment, masks: &[bool], place: usize) -> bool
    ensures { result ≡ sent_in segment (bit_at masks.now) place }
{
    place < usize::from(segment.length) && mask_at(masks, usize::from(segment.start) + place)
}

// The mask bit of a chain.
fn mask_at(masks: &[bool], chain: usize) -> bool
    ensures { result ≡ bit_at masks.now chain }
{
    masks.get(chain).copied().unwrap_or(false)
}

// Adds the acts of the mask ports so many cycles before the last.
pub(crate) fn push_masks(
    acts: &mut Vec<Act>,
    segments: &[Segment],
    masks: &[bool],
    place: usize,
) -> Result<(), AllocError>
    ensures { OnOk result (acts.new.items ≡ acts.old.items ++ map (λ segment. own.set_to (sent_in segment (bit_at masks.now) place)) segments.now) }
{
    for segment in segments {
        acts.push(set_to(sent(*segment, masks, place)))?;
    }
    Ok(())
}

// Adds the acts of so many channels, whose bits begin at a column.
pub(crate) fn push_channels(
    acts: &mut Vec<Act>,
    channels: u8,
    bits: &[u64],
    first: usize,
) -> Result<(), AllocError>
    requires bits { first + channels ≤ 64 * length bits.now }
    requires small { first < 2 ^ 32 }
    ensures { OnOk result (acts.new.items ≡ acts.old.items ++ spec.set_all channels (λ channel. packed_bit bits.now (first + channel))) }
{
    for channel in 0..channels {
        acts.push(set_to(has_bit(bits, first + usize::from(channel))))?;
    }
    Ok(())
}

// What edt_clock does.
fn ring_clock(pulse: bool) -> Act
    ensures { result ≡ spec.ring_clock pulse }
{
    if pulse { Act::Pulse } else { Act::Low }
}

// Adds the acts of scan_enable, edt_clock and edt_update.
pub(crate) fn push_controls(
    acts: &mut Vec<Act>,
    enable: bool,
    pulse: bool,
    update: bool,
) -> Result<(), AllocError>
    ensures { OnOk result (acts.new.items ≡ acts.old.items ++ spec.controls enable pulse update) }
{
    acts.push(set_to(enable))?;
    acts.push(ring_clock(pulse))?;
    acts.push(set_to(update))?;
    Ok(())
}

// Adds the acts of so many ports that are 0.
fn push_low(acts: &mut Vec<Act>, ports: u8) -> Result<(), AllocError>
    ensures { OnOk result (acts.new.items ≡ acts.old.items ++ spec.set_all ports spec.no_bits) }
{
    for _port in 0..ports {
        acts.push(set_to(false))?;
    }
    Ok(())
}

// Adds what a capture vector does at the added inputs, the last one of a pattern or one before it.
pub(crate) fn push_capturing(
    acts: &mut Vec<Act>,
    config: &Config,
    last: bool,
) -> Result<(), AllocError>
    ensures { OnOk result (acts.new.items ≡ acts.old.items ++ spec.capturing last config.now) }
{
    push_controls(acts, false, last, last)?;
    push_low(acts, config.ring().channels)?;
    push_low(acts, config.compactor().mask_inputs)
}
