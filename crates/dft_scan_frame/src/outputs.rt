//! The nets at the outputs of instances.

ghost use Rattle.std.specs.Prelude.{◌≡◌, ◌<◌, IfSome, length, option_map};
ghost use Rattle.dft_scan_frame.specs.Pins as spec;

use dft_cells::Role;
use dft_netlist::{Design, InstanceId, NetId, Signal};

/// The net that the output pin of an instance is joined to, if there is one.
pub fn own_output(design: &Design, cell: InstanceId) -> Option<NetId>
    ensures net { option_map (λ net. net.0) result ≡ spec.own_output design.now cell }
    ensures live { IfSome result (λ net. net.0 < length design.now.nets) }
{
    match design.signal(cell, Role::Output)? {
        Signal::Net(net) => Some(net),
        Signal::Constant(_) | Signal::Unconnected => None,
    }
}
