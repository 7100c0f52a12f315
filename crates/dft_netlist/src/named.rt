ghost use Rattle.std.specs.Prelude.{◌≡◌};
ghost use Rattle.dft_netlist.specs.NamedParts.{net_in, instance_in};

use crate::ids::{InstanceId, NetId, PortId};

/// What a printed name stands for. Nets, ports and instances have one name space.
#[derive(Clone, Copy, Debug, PartialEq, Eq)]
pub enum Named {
    /// A net; the bit of a port is one.
    Net(NetId),
    /// A port with a range, which has a name besides its bits'.
    Vector(PortId),
    Instance(InstanceId),
}

// The net, if a net is named.
pub(crate) fn net_of(named: Option<Named>) -> Option<NetId>
    ensures { result ≡ net_in named }
{
    match named {
        Some(Named::Net(net)) => Some(net),
        _ => None,
    }
}

// The instance, if an instance is named.
pub(crate) fn instance_of(named: Option<Named>) -> Option<InstanceId>
    ensures { result ≡ instance_in named }
{
    match named {
        Some(Named::Instance(instance)) => Some(instance),
        _ => None,
    }
}
