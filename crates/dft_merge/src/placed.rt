use dft_base::Listed;
use dft_netlist::InstanceId;

/// What became of a cube.
#[derive(Debug, Drop)]
pub enum Placed {
    /// It is in the pattern with this number.
    Into(u32),
    /// No channel bits load it: these positions among its cells are the stated certificate.
    Unsolvable(Listed<u32>),
    /// It names a cell that is not scanned; this is the first.
    Skipped(InstanceId),
}
