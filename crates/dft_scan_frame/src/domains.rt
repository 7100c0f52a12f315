//! The nets of the clock domains.

ghost use Rattle.std.specs.Prelude.{◌≡◌, ◌≤◌, [], length, slice_index_or};
ghost use Rattle.dft_netlist.specs.declared.limits.TheConstants.{MAX_NETS, MAX_PORTS};
ghost use Rattle.dft_scan_frame.specs.Pins.{domain_in};

use crate::gap::Gap;
use dft_config::Config;
use dft_netlist::{Design, NetId};

/// The net of the port of a domain.
pub fn domain_net(design: &Design, config: &Config, gap: &Gap, domain: u8) -> NetId
    requires room { gap.now.width ≤ MAX_PORTS }
    requires few { length design.now.nets ≤ MAX_NETS }
    ensures { result.0 ≡ domain_in design.now gap.now config.now domain }
{
    match design.input(domain_name(config, domain)) {
        Some(net) => gap.moved(net),
        None => NetId(0),
    }
}

fn domain_name(config: &Config, domain: u8) -> &[u8]
    ensures { result.now ≡ slice_index_or config.now.domains domain [] }
{
    match config.domains().get(usize::from(domain)) {
        Some(name) => name.as_slice(),
        None => &[],
    }
}
