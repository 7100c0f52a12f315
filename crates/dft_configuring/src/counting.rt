//! What is counted of a made configuration.

ghost use Rattle.std.specs.Prelude.{◌≡◌};
ghost use Rattle.dft_configuring.specs.Counted as spec;

use crate::making::longest_chain;
use dft_stitch::Planned;

/// What is counted of a made configuration.
#[derive(Clone, Copy, Debug, PartialEq, Eq)]
pub struct MadeCounts {
    /// The flip-flops that are scanned.
    pub cells: u32,
    /// The flip-flops that are judged and not scanned.
    pub unscanned: u32,
    pub domains: u32,
    pub resets: u32,
    pub chains: u16,
    /// The cells of the longest chain.
    pub longest: u32,
    /// The stages of the ring.
    pub stages: u8,
    pub channels: u8,
    pub outputs: u32,
    pub masks: u8,
    /// The cycles before a load reaches the longest chain.
    pub warm: u16,
    /// The cycles of a load.
    pub cycles: u16,
}

// What is counted of a planned design.
pub(crate) fn counts_of(planned: &Planned<'_>) -> MadeCounts
    ensures { result ≡ spec.counts_of planned.now.design planned.now.config }
{
    planned.soundness();
    let design = planned.design();
    let config = planned.config();
    let verdicts = planned.verdicts();
    let chains = planned.chains();
    let ring = config.ring();
    let compactor = config.compactor();
    let scan = dft_scan::counts_of(design.instances().len() as u32, verdicts, chains);
    MadeCounts {
        cells: scan.cells,
        unscanned: scan.unscanned,
        domains: config.domains().len() as u32,
        resets: config.resets().len() as u32,
        chains: config.chains(),
        longest: longest_chain(scan.cells, config.chains()),
        stages: ring.stages,
        channels: ring.channels,
        outputs: compactor.groups.as_slice().len() as u32,
        masks: compactor.mask_inputs,
        warm: config.warm(),
        cycles: chains.cycles(),
    }
}
