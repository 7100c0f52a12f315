//! Laws of test cubes in runs, as contracts of functions that do nothing.

ghost use Rattle.dft_seek_laws.specs.Laws.{CubesApply, CubesDetect, FaultyStandsAbove, GoodStandsAbove, TurnsExist};

/// What a capture knows stands above every turn in which it is made, whatever the order of edges and the free bits: that of the design, and,
/// where no clock, reset or set comes by the stuck net, that of the design with the fault.
pub fn captures_stand_above()
    ensures good { GoodStandsAbove }
    ensures faulty { FaultyStandsAbove }
{}

/// Where no clock, reset or set comes by the stuck net, a cube that a search tells detects its fault in runs: at one point every turn of
/// the design in which the cube is applied shows one bit, and every such turn of the design with the fault shows the opposite.
pub fn cubes_detect_in_runs()
    ensures { CubesDetect }
{}

/// There are such turns: a cube that is told can be applied, and wherever it is, both designs have a turn.
pub fn cubes_apply()
    ensures apply { CubesApply }
    ensures turns { TurnsExist }
{}
