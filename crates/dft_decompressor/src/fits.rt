//! The ring that a number of chains and channels gets.

ghost use Rattle.std.specs.Prelude.{◌≡◌, ◌≤◌, IfOk};
ghost use Rattle.dft_decompressor.specs.Fits.{IsFitting};

use crate::shifter::phases;
use crate::sizing::{need, sizes};
use dft_base::Listed;
use std::alloc::{AllocError, Global};

/// A ring that fits: its stages, and the phase sets of the chains.
#[derive(Debug, Drop)]
pub struct Fitting {
    /// The number of stages.
    pub stages: u8,
    /// For each chain the three stages whose sum it takes.
    pub phase: Listed<Listed<u8>>,
}

/// The first size of ring that so many chains and channels fit in, with the phase sets of the chains; None where no size has them.
pub fn fit(alloc: Global, chains: u16, channels: u8) -> Result<Option<Fitting>, AllocError>
    requires { chains ≤ 1024 }
    ensures { IfOk result (IsFitting chains channels) }
{
    let need = need(chains, channels);
    let sizes = sizes();
    for size in sizes {
        if *size >= need {
            match phases(alloc, *size, chains)? {
                Some(phase) => return Ok(Some(Fitting {
                    stages: *size,
                    phase,
                })),
                None => {}
            }
        }
    }
    Ok(None)
}
