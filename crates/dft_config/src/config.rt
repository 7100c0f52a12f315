ghost use Rattle.std.specs.Prelude.{◌≡◌};
ghost use Rattle.dft_config.specs.Range.{IsInRange};
ghost use Rattle.dft_config.specs.Shown.{drafted};

use crate::draft::Draft;
use dft_base::{Listed, Name, Names};
use std::marker::Model;

/// The bits of channels that no equation decides.
#[derive(Clone, Copy, Debug, PartialEq, Eq)]
pub enum FillRule {
    Zeros,
    Ones,
    /// The bits of a generator that starts at this number, below 2^63.
    Seed(u64),
}

/// A tap of the ring: a stage whose bit another stage takes too.
#[derive(Clone, Copy, Debug, PartialEq, Eq, PartialOrd, Ord)]
pub struct Tap {
    pub from: u8,
    pub to: u8,
}

/// A stage of the ring that takes the bit of a channel.
#[derive(Clone, Copy, Debug, PartialEq, Eq, PartialOrd, Ord)]
pub struct Injector {
    pub channel: u8,
    pub stage: u8,
}

/// The ring generator (Rajski and others, 2004), and the phase shifter behind it.
#[derive(Debug)]
pub struct RingConfig {
    /// 2 to 128 stages.
    pub stages: u8,
    /// 1 to 32 channels.
    pub channels: u8,
    pub taps: Listed<Tap>,
    pub injectors: Listed<Injector>,
    /// For each chain the stages whose sum it takes.
    pub phase: Listed<Listed<u8>>,
}

// One call for all fields, so that the proof of what owns a value stays short.
impl Drop for RingConfig {
    fn drop(self) {
        let RingConfig {
            stages: _,
            channels: _,
            taps: _,
            injectors: _,
            phase: _,
        } = self;
    }
}

/// The compactor of the chains' outputs, and its masks.
#[derive(Debug, Drop)]
pub struct CompactorConfig {
    /// For each output the chains whose sum it shows.
    pub groups: Listed<Listed<u16>>,
    /// 1 to 32 inputs, at most the chains.
    pub mask_inputs: u8,
}

/// The names of the ports that are added; a number follows those of channels, masks, outputs and chains.
#[derive(Debug)]
pub struct PortNames {
    pub scan_enable: Name,
    pub edt_clock: Name,
    pub edt_update: Name,
    pub channel: Name,
    pub mask: Name,
    pub output: Name,
    pub scan_in: Name,
    pub scan_out: Name,
}

// One call for all fields, so that the proof of what owns a value stays short.
impl Drop for PortNames {
    fn drop(self) {
        let PortNames {
            scan_enable: _,
            edt_clock: _,
            edt_update: _,
            channel: _,
            mask: _,
            output: _,
            scan_in: _,
            scan_out: _,
        } = self;
    }
}

/// A configuration. It is in range: no call that takes one asks more. A clause sees it as a record.
#[derive(Debug)]
pub struct Config {
    domains: Names,
    resets: Names,
    keep: Names,
    chains: u16,
    warm: u16,
    window: u8,
    fill: FillRule,
    always_masked: Listed<u16>,
    ring: RingConfig,
    compactor: CompactorConfig,
    names: PortNames,
}

// One call for all fields, so that the proof of what owns a value stays short.
impl Drop for Config {
    fn drop(self) {
        let Config {
            domains: _,
            resets: _,
            keep: _,
            chains: _,
            warm: _,
            window: _,
            fill: _,
            always_masked: _,
            ring: _,
            compactor: _,
            names: _,
        } = self;
    }
}

impl Model for Config {
    ghost use Rattle.dft_config.specs.Config.{Config};

    ghost Value = { Config };

    ghost use Rattle.dft_config.specs.Shown.{config_in, IsConfigInside};

    ghost view = { config_in };

    ghost invariant = { IsConfigInside };
}

impl Config {
    /// The configuration of a draft.
    pub fn of_draft(draft: Draft) -> Config
        requires { IsInRange (drafted draft) }
        ensures { result ≡ drafted draft }
    {
        let clocking = draft.clocking;
        let loading = draft.loading;
        Config {
            domains: clocking.domains,
            resets: clocking.resets,
            keep: clocking.keep,
            chains: loading.chains,
            warm: loading.warm,
            window: loading.window,
            fill: loading.fill,
            always_masked: loading.always_masked,
            ring: draft.ring,
            compactor: draft.compactor,
            names: draft.names,
        }
    }

    /// Does nothing: its clause is what holds of every configuration. Each number is within its bounds, nothing stands
    /// twice in one list, and each chain stands in a group of the compactor.
    pub fn soundness(&self)
        ensures { IsInRange self.now }
    {
        let _chains = self.chains;
    }

    /// The clock ports, 1 to 16.
    pub fn domains(&self) -> &[Name]
        ensures { result.now ≡ self.now.domains }
    {
        self.domains.as_slice()
    }

    /// The reset ports, at most 16.
    pub fn resets(&self) -> &[Name]
        ensures { result.now ≡ self.now.resets }
    {
        self.resets.as_slice()
    }

    /// The flip-flops that are not scanned.
    pub fn keep(&self) -> &[Name]
        ensures { result.now ≡ self.now.keep }
    {
        self.keep.as_slice()
    }

    /// 1 to 1,024 chains.
    pub fn chains(&self) -> u16
        ensures { result ≡ self.now.chains }
    {
        self.chains
    }

    /// The cycles before a load reaches the longest chain, at most 4,095.
    pub fn warm(&self) -> u16
        ensures { result ≡ self.now.warm }
    {
        self.warm
    }

    /// The patterns that a cube may still join, 1 to 16.
    pub fn window(&self) -> u8
        ensures { result ≡ self.now.window }
    {
        self.window
    }

    /// The bits of channels that no equation decides.
    pub fn fill(&self) -> FillRule
        ensures { result ≡ self.now.fill }
    {
        self.fill
    }

    /// The chains that are masked in each pattern.
    pub fn always_masked(&self) -> &[u16]
        ensures { result.now ≡ self.now.always_masked }
    {
        self.always_masked.as_slice()
    }

    /// The ring generator and the phase shifter.
    pub fn ring(&self) -> &RingConfig
        ensures { result.now ≡ self.now.ring }
    {
        &self.ring
    }

    /// The compactor and its masks.
    pub fn compactor(&self) -> &CompactorConfig
        ensures { result.now ≡ self.now.compactor }
    {
        &self.compactor
    }

    /// The names of the ports that are added.
    pub fn names(&self) -> &PortNames
        ensures { result.now ≡ self.now.names }
    {
        &self.names
    }
}
