//! Laws about outcomes, as contracts of functions that do nothing.

ghost use Rattle.dft_top.specs.Saved.{SavedIsCertified, SavedIsReplayed};
ghost use Rattle.dft_top.specs.Laws.{OutcomeIsOne, PassingIsCertified, PassingIsCompiled, PassingIsConfigured, PassingIsGraded, PassingIsReplayed, PassingIsScanned, PassingIsSought, PlacementsHavePatterns};

/// Words and held files have one outcome at most.
pub fn outcome_is_one()
    ensures { OutcomeIsOne }
{}

/// Each placement of cubes has patterns, where the nets of the design have an order: some channel bits are those that the fill rule
/// chooses, and from them the design captures something.
pub fn placements_have_patterns()
    ensures { PlacementsHavePatterns }
{}

/// Files that pass their own checks are not refused for themselves: a replay comes to its verdict, or to P7 where a signal is no bit
/// of a port with its direction; a design is scanned where no check of the scan fails; cubes are compiled where no check of the design and
/// of their placement fails; cubes that are reported unsolvable are certified where no check of the design and of the
/// report's sums fails; faults are graded where the patterns pass and their report is not too long; a configuration is made where there is
/// one; and what the searches of all faults tell is saved where there are not too many cubes and no text is too long.
pub fn passing_files_are_answered()
    ensures replayed { PassingIsReplayed }
    ensures scanned { PassingIsScanned }
    ensures compiled { PassingIsCompiled }
    ensures certified { PassingIsCertified }
    ensures graded { PassingIsGraded }
    ensures configured { PassingIsConfigured }
    ensures sought { PassingIsSought }
{}

/// What becomes of the files that a compilation saved: a replay of its netlist and its patterns over the same cells passes, where the
/// netlist's text and the number of vectors keep the limits of a replay; and a test of its report against the same netlist,
/// configuration and cubes certifies the cubes that it calls unsolvable.
pub fn saved_files_are_good()
    ensures replayed { SavedIsReplayed }
    ensures certified { SavedIsCertified }
{}
