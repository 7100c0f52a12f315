//! How large a ring is made.

ghost use Rattle.std.specs.Prelude.{◌≡◌, ◌<◌, ◌≤◌};
ghost use Rattle.dft_decompressor.specs.Sizes as spec;

/// The stages of the rings that are made, from the fewest on.
pub fn sizes() -> &'static [u8]
    ensures { result.now ≡ spec.sizes }
{
    &[8, 16, 24, 32, 48, 64, 96, 128]
}

// A whole division, rounded up.
pub(crate) fn rounded_up(number: u32, by: u32) -> u32
    requires some { 0 < by }
    requires small { number ≤ 65535 }
    requires small_by { by ≤ 65535 }
    ensures { result ≡ spec.rounded_up number by }
{
    (number + (by - 1)) / by
}

// The stages that the channels ask for.
fn wanted_by_channels(chains: u16, channels: u8) -> u32
    ensures { result ≡ spec.wanted_by_channels chains channels }
{
    let channels = u32::from(channels);
    let many = (3 * u32::from(chains)).min((12 * channels).max(32));
    (4 * channels + 3).max(many)
}

/// The stages that a ring for so many chains and channels needs, at most 128: three and four for each channel, one for each
/// eight chains, and for many chains twelve for each channel and at least 32.
pub fn need(chains: u16, channels: u8) -> u8
    ensures { result ≡ spec.need chains channels }
{
    let wanted = wanted_by_channels(chains, channels);
    let stages = wanted.max(rounded_up(u32::from(chains), 8));
    stages.min(128) as u8
}
