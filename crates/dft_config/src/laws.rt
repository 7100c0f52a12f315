ghost use Rattle.dft_config.specs.LoadExamples.{FallingHead, RisingHeads};
ghost use Rattle.dft_config.specs.Loads.{LoadsAreSums};

/// What comes to a cell in a load is the sum of the channels' bits over the cell's load equation, whatever they are
/// (Rajski and others, 2004).
pub fn loads_are_sums()
    ensures { LoadsAreSums }
{}

/// The load equations of a small ring: where each chain begins with a rising cell, and where one begins with a falling cell.
pub fn worked_loads()
    ensures rising { RisingHeads }
    ensures falling { FallingHead }
{}
