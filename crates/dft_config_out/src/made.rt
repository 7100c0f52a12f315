//! Made configurations.

ghost use Rattle.std.specs.Prelude.{◌≡◌, IfOk};
ghost use Rattle.dft_config_out.specs.Written as spec;

use crate::sections::{add_compactor, add_front, add_ports, add_ring};
use dft_base::{Listed, Name};
use dft_config::{CompactorConfig, PortNames, RingConfig};
use std::alloc::{AllocError, Global};

/// What differs from one made configuration to another.
#[derive(Debug)]
pub struct Made {
    /// The clock ports.
    pub domains: Listed<Name>,
    /// The reset ports.
    pub resets: Listed<Name>,
    /// The number of chains.
    pub chains: u16,
    /// The cycles before a load reaches the longest chain.
    pub warm: u16,
    /// The ring and the phase sets.
    pub ring: RingConfig,
    /// The outputs and the masks.
    pub compactor: CompactorConfig,
    /// The names of the added ports.
    pub names: PortNames,
}

// One call for all fields, so that the proof of what owns a value stays short.
impl Drop for Made {
    fn drop(self) {
        let Made {
            domains: _,
            resets: _,
            chains: _,
            warm: _,
            ring: _,
            compactor: _,
            names: _,
        } = self;
    }
}

/// The text of a made configuration for so many flip-flops.
#[tactic(auto, unfolding(crate::specs::Written::made_text))]
pub fn made_text(alloc: Global, cells: u32, made: &Made) -> Result<Vec<u8>, AllocError>
    ensures { IfOk result (λ text. text.items ≡ spec.made_text cells made.now) }
{
    let mut out = Vec::new(alloc);
    add_front(&mut out, cells, made)?;
    add_ring(&mut out, &made.ring)?;
    add_compactor(&mut out, &made.compactor)?;
    add_ports(&mut out, &made.names)?;
    Ok(out)
}
