//! Laws of compiled patterns, as contracts of functions that do nothing.

ghost use Rattle.dft_pattern_behavior.specs.Rounds.{LoadsShow, PatternsShow};
ghost use Rattle.dft_pattern_behavior.specs.Doing.{CapturesCapture, LoadsLoad, SetSuits, SetUpClears};
ghost use Rattle.dft_pattern_behavior.specs.Listed.{ListedShow};
ghost use Rattle.dft_pattern_behavior.specs.Statements.{CapturesStandOver};

/// While a pattern is unloaded the compactor's outputs show the sums of the chains that are not masked, and in each capture vector the
/// design's outputs show what the capture knows; one pattern after another.
pub fn patterns_show()
    ensures loads { LoadsShow }
    ensures patterns { PatternsShow }
{}

/// The listed vectors of compiled patterns are such vectors of the scanned netlist of style Edt as the laws of patterns ask: a set-up
/// vector clears, the vectors of a load carry its table and send its masks, and its capture vectors capture. The
/// ports of the set, by which what pulses is a clock, suit those of the configuration. So the
/// vectors of a list of patterns show these patterns.
pub fn vectors_play()
    ensures set_up { SetUpClears }
    ensures loads { LoadsLoad }
    ensures captures { CapturesCapture }
    ensures ports { SetSuits }
    ensures show { ListedShow }
{}

/// What a capture knows of the outputs and of the cells stands above the values of every netlist that covers the design.
pub fn captures_stand_over()
    ensures { CapturesStandOver }
{}
