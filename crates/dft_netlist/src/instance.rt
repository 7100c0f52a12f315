use crate::ids::NetId;
use crate::pins::PinSignals;
use dft_base::Name;
use dft_cells::{CellId, Gate};

/// What a pin is joined to.
#[derive(Clone, Copy, Debug, Default, PartialEq, Eq)]
pub enum Signal {
    Net(NetId),
    Constant(bool),
    #[default]
    Unconnected,
}

/// What an instance is an instance of.
#[derive(Clone, Copy, Debug, PartialEq, Eq)]
pub enum CellRef {
    /// A cell of the design's library.
    Library(CellId),
    /// A gate primitive (IEEE 1364) and how many inputs it has; its pins are its inputs, then its output.
    Gate(Gate, u8),
}

/// An instance. Its pins follow the order of its cell's pins.
#[derive(Debug, Drop)]
pub struct Instance {
    pub name: Option<Name>,
    pub cell: CellRef,
    pub pins: PinSignals,
}

/// A continuous assignment of one bit (IEEE 1364 `assign`): the target has the source's bit.
#[derive(Clone, Copy, Debug, PartialEq, Eq)]
pub struct Join {
    pub target: NetId,
    pub source: Signal,
}
