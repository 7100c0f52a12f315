//! What captures, masks and expected bits are.

ghost use Rattle.dft_expect.specs.CaptureExamples.{BehindUnscanned, CellsInARow};
ghost use Rattle.dft_expect.specs.Examples.{FallingPatterns, RisingPatterns};
ghost use Rattle.dft_expect.specs.Laws.{CaptureIsOne, SettledStandsAbove, UnmaskedAreKnown};

/// In a design whose nets have an order, a pattern captures one response.
pub fn capture_is_one()
    ensures { CaptureIsOne }
{}

/// What is known of settled values stands above what they are where more is known.
pub fn settled_stands_above()
    ensures { SettledStandsAbove }
{}

/// A chain that is not masked holds nothing unknown.
pub fn unmasked_are_known()
    ensures { UnmaskedAreKnown }
{}

/// Two patterns of a small design: what their loads bring and what their unloads show, where each chain begins with a rising cell, and where
/// one begins with a falling cell.
pub fn worked_patterns()
    ensures rising { RisingPatterns }
    ensures falling { FallingPatterns }
{}

/// Captures of two flip-flops in a row on one clock, of both edges, as cells of a chain and behind a flip-flop that is none.
pub fn worked_captures()
    ensures row { CellsInARow }
    ensures unscanned { BehindUnscanned }
{}
