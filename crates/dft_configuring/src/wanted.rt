//! What is wished of a configuration.

ghost use Rattle.std.specs.Prelude.{◌≡◌, ◌≤◌, None, max};
ghost use Rattle.dft_decompressor.specs.Sizes.{rounded_up};
ghost use Rattle.dft_configuring.specs.Wanted as spec;
ghost use Rattle.dft_configuring.specs.Wanted.{IsUpTo, IsWanted};

/// What is wished of a configuration: either the chains or their length, and the channels. The outputs and the masks are found where
/// they are not wished.
#[derive(Clone, Copy, Debug, PartialEq, Eq)]
pub struct Wanted {
    /// 1 to 1,024.
    pub chains: Option<u16>,
    /// The most cells of a chain, 1 to 65,536.
    pub length: Option<u32>,
    /// 1 to 32.
    pub channels: u8,
    /// 1 to 32.
    pub outputs: Option<u8>,
    /// 1 to 32.
    pub masks: Option<u8>,
}

// The fewest chains of so many cells that are not longer than this, at least one.
fn fewest_chains(cells: u32, length: u32) -> u32
    requires cells { cells ≤ 262144 }
    requires length { (1 ≤ length) × (length ≤ 65536) }
    ensures { result ≡ max 1 (rounded_up cells length) }
{
    1u32.max((cells + (length - 1)) / length)
}

// The chains where their number is not wished.
fn chains_by_length(cells: u32, length: Option<u32>) -> u32
    requires cells { cells ≤ 262144 }
    requires length { IsUpTo 65536 length }
    ensures { result ≡ spec.chains_by None length cells }
{
    match length {
        Some(length) => fewest_chains(cells, length),
        None => 1,
    }
}

// The chains for so many scanned cells.
pub(crate) fn chains_for(wanted: &Wanted, cells: u32) -> u32
    requires wanted { IsWanted wanted.now }
    requires cells { cells ≤ 262144 }
    ensures { result ≡ spec.chains_for wanted.now cells }
{
    match wanted.chains {
        Some(chains) => u32::from(chains),
        None => chains_by_length(cells, wanted.length),
    }
}
