//! What is made with the warm cycles.

ghost use Rattle.std.specs.Prelude.{◌≡◌, ◌≤◌, IfOk, OnOk, if◌then◌else◌};
ghost use Rattle.dft_config.specs.Cycles.{part_length};
ghost use Rattle.dft_configure.specs.Compacting.{outputs_of};
ghost use Rattle.dft_configuring.specs.Made.{IsFrame, IsMade, IsRing};
ghost use Rattle.dft_configuring.specs.Rooted as spec;
ghost use Rattle.dft_configuring.specs.Steps.{IsAccepted, IsBase};
ghost use Rattle.dft_configuring.specs.Wanted.{IsWanted};

use crate::checking::Base;
use crate::naming::{Counts, names_for};
use crate::rooting::{clock_names, reset_names};
use crate::wanted::Wanted;
use dft_config::{CompactorConfig, RingConfig};
use dft_config_out::Made;
use dft_configure::{groups_of, masks_of, outputs_of};
use dft_netlist::Design;
use std::alloc::{AllocError, Global};

// 1 where it holds, else 0.
fn one_if(holds: bool) -> u32
    ensures one { result ≡ (if holds then 1 else 0) }
    ensures few { result ≤ 1 }
{
    if holds { 1 } else { 0 }
}

// The cells of the longest of so many chains.
pub(crate) fn longest_chain(cells: u32, chains: u16) -> u32
    requires { 1 ≤ chains }
    ensures length { result ≡ part_length cells chains 0 }
    ensures small { result ≤ cells }
{
    let chains = u32::from(chains);
    cells / chains + one_if(0 < cells % chains)
}

// How many ports there are of each name.
fn counts_of(wanted: &Wanted, chains: u16, masks: u8) -> Counts
    ensures { result ≡ record { channels = wanted.now.channels; masks = masks; outputs = outputs_of chains wanted.now.channels wanted.now.outputs; chains = chains } }
{
    Counts {
        channels: wanted.channels,
        masks,
        outputs: outputs_of(chains, wanted.channels, wanted.outputs),
        chains,
    }
}

// The clocks and resets, the ring and the groups of what is made, with one mask and no warm cycle.
pub(crate) fn framed(
    alloc: Global,
    design: &Design,
    wanted: &Wanted,
    base: &Base,
    ring: RingConfig,
) -> Result<Made, AllocError>
    requires wanted { IsWanted wanted.now }
    requires base { IsBase design.now wanted.now base.now }
    requires ring { IsRing base.now.chains wanted.now.channels ring }
    ensures { IfOk result (IsFrame design.now wanted.now) }
{
    let counts = counts_of(wanted, base.chains, 1);
    Ok(Made {
        domains: clock_names(alloc, design, &base.roots)?,
        resets: reset_names(alloc, design, &base.roots)?,
        chains: base.chains,
        warm: 0,
        ring,
        compactor: CompactorConfig {
            groups: groups_of(alloc, base.chains, counts.outputs)?,
            mask_inputs: 1,
        },
        names: names_for(alloc, design, counts)?,
    })
}

// Gives it so many warm cycles, with the masks and the names that go with them.
pub(crate) fn warm_up(
    alloc: Global,
    design: &Design,
    wanted: &Wanted,
    cells: u32,
    made: &mut Made,
    warm: u16,
) -> Result<(), AllocError>
    requires accepted { IsAccepted design.now wanted.now }
    requires cells { cells ≡ spec.cell_count design.now }
    requires small { cells ≤ 262144 }
    requires frame { IsFrame design.now wanted.now made.old }
    ensures made { OnOk result (IsMade design.now wanted.now made.new) }
    ensures warm { OnOk result (made.new.warm ≡ warm) }
    ensures ring { made.new.ring ≡ made.old.ring }
{
    let cycles = u32::from(warm) + longest_chain(cells, made.chains);
    let masks = masks_of(made.chains, cycles, wanted.masks);
    let names = names_for(alloc, design, counts_of(wanted, made.chains, masks))?;
    made.warm = warm;
    made.compactor.mask_inputs = masks;
    made.names = names;
    Ok(())
}
