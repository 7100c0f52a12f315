//! Worked examples, as contracts of functions that do nothing.

ghost use Rattle.dft_replay.specs.EdgeExamples.{AcrossEdges, HighLockup, QuietFalls, Resets, ThreeFalls, TwoFalls};
ghost use Rattle.dft_replay.specs.Examples.{KeptInput, QuietLockup, ThreeDomains, TwoDomains};

/// The verdicts of small designs, whose domains pulse in one vector or whose inputs keep what they were set to.
pub fn worked_examples()
    ensures two_domains { TwoDomains }
    ensures kept_input { KeptInput }
    ensures quiet_lockup { QuietLockup }
    ensures three_domains { ThreeDomains }
{}

/// The verdicts of small designs with inverted clocks: flip-flops that take their bits at rises and at falls, and lock-ups
/// that hold while their clock is high, or while it is low.
pub fn worked_edges()
    ensures across_edges { AcrossEdges }
    ensures two_falls { TwoFalls }
    ensures high_lockup { HighLockup }
    ensures quiet_falls { QuietFalls }
    ensures resets { Resets }
    ensures three_falls { ThreeFalls }
{}
