//! What the evaluator's definitions say of each other.

ghost use Rattle.dft_evaluator.specs.Laws.{SettledForAnyPorts, SettledFromSources, TreesComplete};

/// Values that are settled from what sources show are the settled values of these sources, and the other way round.
pub fn settled_from_sources()
    ensures { SettledFromSources }
{}

/// Whatever ports are clocks and resets, the same values are settled from what is given.
pub fn settled_for_any_ports()
    ensures { SettledForAnyPorts }
{}

/// A tree of choices over the inputs of a table gives the bit that all completions of the unknown inputs share, and
/// otherwise either.
pub fn trees_complete()
    ensures { TreesComplete }
{}
