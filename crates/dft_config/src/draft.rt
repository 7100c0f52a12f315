use crate::config::{CompactorConfig, FillRule, PortNames, RingConfig};
use dft_base::{Listed, Names};

/// What is read first: the domains, the resets and the kept cells.
#[derive(Drop)]
pub struct Clocking {
    pub domains: Names,
    pub resets: Names,
    pub keep: Names,
}

/// What is read next: the chains, the loads, and the chains that are always masked.
#[derive(Drop)]
pub struct Loading {
    pub chains: u16,
    pub warm: u16,
    pub window: u8,
    pub fill: FillRule,
    pub always_masked: Listed<u16>,
}

/// What the keys of a table give, before it is checked as a whole.
#[derive(Drop)]
pub struct Draft {
    pub clocking: Clocking,
    pub loading: Loading,
    pub ring: RingConfig,
    pub compactor: CompactorConfig,
    pub names: PortNames,
}
