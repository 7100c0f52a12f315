//! Laws, each as the contract of a function that does nothing.

ghost use Rattle.dft_hier_laws.specs.Laws.{FlatIsJoined, FlatLogicIsJoined, FlatRunsAreJoined};

/// The settled assignments of a flat design, read by path, are the settled ones of its modules side by side, joined at their ports,
/// for all ports, states, levels of clocks, held and free bits.
pub fn flat_designs_are_joined()
    ensures { FlatIsJoined }
{}

/// What a flat design does is what its modules do side by side, joined at their ports: what each net means, and of each flip-flop and
/// lock-up the clock and its edge, what it takes and what forces it, for all ports.
pub fn flat_logic_is_joined()
    ensures { FlatLogicIsJoined }
{}

/// The runs of a flat design are those of its modules side by side, joined at their ports: whatever the vectors, the start, the order of
/// the clock edges and the free bits.
pub fn flat_runs_are_joined()
    ensures { FlatRunsAreJoined }
{}
