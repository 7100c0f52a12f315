//! What the tree of a search tells, as contracts of functions that do nothing.

ghost use Rattle.dft_seek.specs.Laws.{ConeIsOne, CubeIsTrue, CubesDetect, FewDeadNodes, NoneDetects, NoneIsTrue, SoughtIsOne, TreeIsOne, TreesExist};

/// A search has exactly one tree.
pub fn tree_is_one()
    ensures exists { TreesExist }
    ensures one { TreeIsOne }
{}

/// Each completion of a found node detects the fault.
pub fn cubes_detect()
    ensures { CubesDetect }
{}

/// Where no node is found, no assignment of bits detects the fault.
pub fn none_detects()
    ensures { NoneDetects }
{}

/// What a search tells is determined.
pub fn sought_is_one()
    ensures cone { ConeIsOne }
    ensures told { SoughtIsOne }
{}

/// With n variables there are at most 2^n dead nodes, so a search with that limit is never aborted.
pub fn few_dead_nodes()
    ensures { FewDeadNodes }
{}

/// A cube that is told detects the fault in each of its completions, and where it is told that there is none, no assignment detects it.
pub fn sought_is_true()
    ensures cube { CubeIsTrue }
    ensures none { NoneIsTrue }
{}
