//! The laws of the abstract cycle, as contracts of functions that do nothing.

ghost use Rattle.dft_abstract.specs.Laws.{ClosedExists, StrobeExists, StrobeIsAbove, PhaseIsAbove, TurnIsAbove, StepIsBelow, NoneChanges, RoundIsOne, OneDomain, KnownAfterTurn, KnownAfterFalls, KnownAtStrobe, LowAfterTurn};

/// In every run, whatever the order of edges, any of them at once, and the free bits, the abstract values stand above the bits.
pub fn cycle_is_above()
    ensures strobe { StrobeIsAbove }
    ensures phase { PhaseIsAbove }
    ensures turn { TurnIsAbove }
{}

/// The abstract values of a vector exist for any map and are determined; joins stay below all closed maps, and a phase in
/// which no cell takes a value leaves all as it was.
pub fn cycle_is_determined()
    ensures closed { ClosedExists }
    ensures strobe { StrobeExists }
    ensures step { StepIsBelow }
    ensures rest { NoneChanges }
    ensures one { RoundIsOne }
{}

/// Where one domain pulses, rising flip-flops take their next values from the strobe's values.
pub fn one_domain()
    ensures { OneDomain }
{}

/// What the abstract cycle knows from a run's own bits, the run has.
pub fn known_in_runs()
    ensures after { KnownAfterTurn }
    ensures falls { KnownAfterFalls }
    ensures strobe { KnownAtStrobe }
    ensures low { LowAfterTurn }
{}
