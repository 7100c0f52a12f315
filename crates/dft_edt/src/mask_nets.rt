use dft_netlist::NetId;

/// The nets of a chain's mask bit and of its hold bit.
#[derive(Clone, Copy, Debug, PartialEq, Eq)]
pub struct MaskNets {
    pub mask: NetId,
    pub hold: NetId,
}
