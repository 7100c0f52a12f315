//! Laws about chains, as contracts of functions that do nothing.

ghost use Rattle.dft_stitch.specs.Laws.{CellsAreScanned, CellsStandOnce, ChainsAreEven, ChainsFit, ChainsHoldCells, FallingFirst};

/// The cells of the chains, one chain after the other, are the scanned cells in their order.
pub fn chains_hold_cells()
    ensures { ChainsHoldCells }
{}

/// No chain is longer than another by more than one cell.
pub fn chains_are_even()
    ensures { ChainsAreEven }
{}

/// Each scanned flip-flop stands at one place of the chains, and at no other.
pub fn cells_stand_once()
    ensures { CellsStandOnce }
{}

/// Each cell of the chains is a scanned flip-flop.
pub fn cells_are_scanned()
    ensures { CellsAreScanned }
{}

/// Along a chain no falling cell stands behind a rising one.
pub fn falling_cells_first()
    ensures { FallingFirst }
{}

/// Each chain that is planned for a design fits a load.
pub fn chains_fit_loads()
    ensures { ChainsFit }
{}
