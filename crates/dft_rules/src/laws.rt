//! Laws of the judgement, as contracts of functions that do nothing.

ghost use Rattle.dft_rules.specs.Laws.{FlipFlopsAreJudged, ScannedAreClocked};

/// An instance is not judged exactly where it is no flip-flop of kind dff, dffr or dffs.
pub fn flip_flops_are_judged()
    ensures { FlipFlopsAreJudged }
{}

/// A scanned flip-flop takes its bit at the edge that it is scanned by, of the clock at its domain's port.
pub fn scanned_are_clocked()
    ensures { ScannedAreClocked }
{}
