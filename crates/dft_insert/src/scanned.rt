use dft_netlist::{Design, PortId};

/// A design with its scan chains.
#[derive(Debug, Drop)]
pub struct Scanned {
    pub design: Design,
    /// The ports that were added, in order.
    pub added: Vec<PortId>,
}
