//! Worked examples, as contracts of a function that does nothing.

ghost use Rattle.dft_seek.specs.Examples.{ResetActsByPin, TieIsSought};

/// A flip-flop whose reset pin is at a tie cell: the faults that are sought, and what it takes where the tie cell's net is stuck.
pub fn worked_reset()
    ensures sought { TieIsSought }
    ensures acts { ResetActsByPin }
{}
