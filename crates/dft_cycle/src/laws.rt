//! Laws about the machine, as contracts of functions that do nothing.

ghost use Rattle.dft_cycle.specs.MachineLaws.{StartIsForced, SetStands, CallsAreRound};

/// The machine's calls for a vector come to the round of the abstract cycle: set its inputs, each once at most, then
/// strobe, then pulse.
pub fn calls_are_round()
    ensures start { StartIsForced }
    ensures set { SetStands }
    ensures round { CallsAreRound }
{}
