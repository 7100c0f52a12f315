//! What holds of every placement.

ghost use Rattle.dft_merge.specs.Laws.{PlacementIsOne, PlansStandApart, UnsolvableIsExact};
ghost use Rattle.dft_merge.specs.Staying.{CubesStay, PatternsAreSound};

/// Cubes have one placement.
pub fn placement_is_one()
    ensures { PlacementIsOne }
{}

/// A cube of scanned cells is unsolvable exactly where no channel bits give each of its cells its bit by the sum over
/// the cell's load equation.
pub fn unsolvable_is_exact()
    ensures { UnsolvableIsExact }
{}

/// No cell of a design's chains stands at two places of them.
pub fn plans_stand_apart()
    ensures { PlansStandApart }
{}

/// Where a cube was placed in a pattern, the pattern of that number behind all cubes has the cube's clock and gives each
/// cell and each port of the cube the cube's bit: nothing is taken out of a pattern.
pub fn cubes_stay()
    ensures { CubesStay }
{}

/// Patterns of sound cubes are sound: each clock is a domain, no cell and no port is given twice, each cell is an instance,
/// and each port is the bit of an input port that is no clock and no reset of the configuration.
pub fn patterns_are_sound()
    ensures { PatternsAreSound }
{}
