//! The outputs and the masks of a made configuration.

ghost use Rattle.std.specs.Prelude.{◌≡◌, ◌<◌, ◌≤◌, IfOk};
ghost use Rattle.dft_configure.specs.Compacting as spec;

use dft_base::Listed;
use std::alloc::{AllocError, Global};

/// The outputs of so many chains and channels: as many as are wished, or else as many as channels, and at most the chains.
pub fn outputs_of(chains: u16, channels: u8, wished: Option<u8>) -> u8
    ensures { result ≡ spec.outputs_of chains channels wished }
{
    match wished {
        Some(outputs) => outputs,
        None => u16::from(channels).min(chains) as u8,
    }
}

// Whether a chain is one of an output's.
fn is_of(chain: u16, outputs: u8, output: u8) -> bool
    requires { 0 < outputs }
    ensures { result ≡ spec.is_of outputs output chain }
{
    chain % u16::from(outputs) == u16::from(output)
}

// The chains of an output.
fn group_of(alloc: Global, chains: u16, outputs: u8, output: u8) -> Result<Listed<u16>, AllocError>
    requires { 0 < outputs }
    ensures { IfOk result (λ group. group ≡ spec.group_of chains outputs output) }
{
    let mut group = Vec::new(alloc);
    for chain in 0..chains {
        if is_of(chain, outputs, output) {
            group.push(chain)?;
        }
    }
    Ok(Listed::from_vec(group))
}

/// The chains of each output: neighbours come to different outputs.
#[tactic(auto, unfolding(crate::specs::Compacting::groups_of))]
pub fn groups_of(alloc: Global, chains: u16, outputs: u8) -> Result<Listed<Listed<u16>>, AllocError>
    requires { 0 < outputs }
    ensures { IfOk result (λ groups. groups ≡ spec.groups_of chains outputs) }
{
    let mut groups = Vec::new(alloc);
    for output in 0..outputs {
        groups.push(group_of(alloc, chains, outputs, output)?)?;
    }
    Ok(Listed::from_vec(groups))
}

// Whether the longest segment of so many mask inputs is sent in so many cycles.
fn are_enough(chains: u16, cycles: u32, masks: u16) -> bool
    requires chains { chains ≤ 1024 }
    requires masks { (0 < masks) × (masks ≤ 32) }
    ensures { result ≡ spec.are_enough chains cycles masks }
{
    u32::from((chains + (masks - 1)) / masks) <= cycles
}

// The fewest mask inputs that are enough, or else as many as there may be.
fn fewest_masks(chains: u16, cycles: u32) -> u8
    requires { chains ≤ 1024 }
    ensures { result ≡ spec.fewest_masks chains cycles }
{
    let most = chains.min(32);
    for masks in 1..most + 1 {
        if are_enough(chains, cycles, masks) {
            return masks as u8;
        }
    }
    most as u8
}

/// The mask inputs of so many chains: as many as are wished, or else the fewest that send all masks in so many cycles, at most 32 and
/// at most the chains.
pub fn masks_of(chains: u16, cycles: u32, wished: Option<u8>) -> u8
    requires { chains ≤ 1024 }
    ensures { result ≡ spec.masks_of chains cycles wished }
{
    match wished {
        Some(masks) => masks,
        None => fewest_masks(chains, cycles),
    }
}
