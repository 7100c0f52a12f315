use dft_netlist::NetId;

/// A single stuck-at fault: the net has this bit whatever drives it.
#[derive(Clone, Copy, Debug, PartialEq, Eq)]
pub struct Fault {
    pub net: NetId,
    pub value: bool,
}
