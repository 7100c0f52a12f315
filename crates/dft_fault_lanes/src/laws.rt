//! Laws of lanes, as contracts of functions that do nothing.

ghost use Rattle.dft_fault_lanes.specs.Laws.{LaneIsFaulty, LanesAreExact};

/// In a lane in which one net is stuck, settled nets are those of the logic in which this net has the constant.
pub fn lane_is_faulty()
    ensures { LaneIsFaulty }
{}

/// Where no clock, reset or set comes by a fault's net, what its lane tells is the fault's grade.
pub fn lanes_are_exact()
    ensures { LanesAreExact }
{}
