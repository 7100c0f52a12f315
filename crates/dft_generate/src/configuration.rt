//! The configuration of a generated job.

ghost use Rattle.std.specs.Prelude.{◌≡◌, IfOk};
ghost use Rattle.dft_generate.specs.Configurations.{configuration_text};

use std::alloc::{AllocError, Global};

// The configuration, which is the same for all seeds and sizes.
#[tactic(auto, unfolding(crate::specs::Configurations::configuration_text))]
pub(crate) fn configuration(alloc: Global) -> Result<Vec<u8>, AllocError>
    ensures { IfOk result (λ text. text.items ≡ configuration_text) }
{
    let mut out = Vec::new(alloc);
    out.extend_from_slice(b"version = 1\ndomains = [\"clk0\", \"clk1\"]\n")?;
    out.extend_from_slice(b"chains = 16\nwarm = 16\nwindow = 8\nfill = \"zeros\"\n")?;
    out.extend_from_slice(b"\n[ring]\nstages = 16\nchannels = 2\n")?;
    out.extend_from_slice(b"taps = [[3, 12], [6, 9]]\ninjectors = [[0, 0], [1, 8]]\n")?;
    out.extend_from_slice(b"phase = [[0, 5, 11], [1, 6, 12], [2, 7, 13], [3, 8, 14], ")?;
    out.extend_from_slice(b"[4, 9, 15], [5, 10, 0], [6, 11, 1], [7, 12, 2], ")?;
    out.extend_from_slice(b"[8, 13, 3], [9, 14, 4], [10, 15, 5], [11, 0, 6], ")?;
    out.extend_from_slice(b"[12, 1, 7], [13, 2, 8], [14, 3, 9], [15, 4, 10]]\n")?;
    out.extend_from_slice(b"\n[compactor]\ngroups = [[0, 2, 4, 6, 8, 10, 12, 14], ")?;
    out.extend_from_slice(b"[1, 3, 5, 7, 9, 11, 13, 15]]\nmask_inputs = 2\n")?;
    Ok(out)
}
