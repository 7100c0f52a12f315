//! The ring of a made configuration.

ghost use Rattle.std.specs.Prelude.{ℕ, ◌+◌, ◌≤◌, IfErr, IfOk, None, Some};
ghost use Rattle.dft_decompressor.specs.Fits.{IsFitting};
ghost use Rattle.dft_configuring.specs.Made.{IsRing};
ghost use Rattle.dft_configuring.specs.Causes.{IsNoRing};

use crate::error::ConfigureError;
use dft_base::Listed;
use dft_config::RingConfig;
use dft_decompressor::{Fitting, fit, injectors, taps};
use std::alloc::{AllocError, Global};

// The ring of a fitting size.
fn ring_of(alloc: Global, fitting: Fitting, channels: u8) -> Result<RingConfig, AllocError>
    requires stages { fitting.stages ≤ 128 }
    requires channels { (1 ≤ channels) × (channels + 3 ≤ fitting.stages) }
    ensures { IfOk result (λ ring. (chains : ℕ) → IsFitting chains channels (Some fitting) → IsRing chains channels ring) }
{
    let taps = taps(alloc, fitting.stages)?;
    let injectors = injectors(alloc, fitting.stages, channels)?;
    Ok(RingConfig {
        taps: Listed::from_vec(taps),
        injectors: Listed::from_vec(injectors),
        stages: fitting.stages,
        channels,
        phase: fitting.phase,
    })
}

// The ring for so many chains and channels.
pub(crate) fn ring_for(
    alloc: Global,
    chains: u16,
    channels: u8,
) -> Result<RingConfig, ConfigureError>
    requires chains { chains ≤ 1024 }
    requires channels { (1 ≤ channels) × (channels ≤ 32) }
    ensures ring { IfOk result (IsRing chains channels) }
    ensures refused { IfErr result (IsNoRing (IsFitting chains channels None)) }
{
    let found = fit(alloc, chains, channels)?;
    match found {
        Some(fitting) => {
            let ring = ring_of(alloc, fitting, channels)?;
            Ok(ring)
        }
        None => Err(ConfigureError::NoRing),
    }
}
