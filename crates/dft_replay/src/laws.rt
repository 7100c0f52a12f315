//! What a verdict says of every run, as contracts of functions that do nothing.

ghost use Rattle.dft_replay.specs.Choices.{EveryChoiceRuns};
ghost use Rattle.dft_replay.specs.Laws.{PassIsSound, MismatchIsSound, VerdictIsOne};
ghost use Rattle.dft_replay.specs.Plain.{VerdictIsPlain};

/// Where the verdict is Pass, every run shows each compared bit as printed: for any design with an order, whoever
/// wrote the patterns, any starting bits, any order of the rises and of the falls in each vector, any of them at once, and
/// any free bits.
pub fn pass_is_sound()
    ensures { PassIsSound }
{}

/// Where the verdict is Mismatch, every run shows the opposite of the printed bit there, and every compared bit
/// before it as printed.
pub fn mismatch_is_sound()
    ensures { MismatchIsSound }
{}

/// Patterns have one verdict on a design at most.
pub fn verdict_is_one()
    ensures { VerdictIsOne }
{}

/// Patterns have a verdict on every design with an order. The plain replay gives it: it settles nets by levels of
/// drivers, and raises the map of a pulse round by round.
pub fn verdict_is_plain()
    ensures { VerdictIsPlain }
{}

/// Every choice is that of a run of a design with an order: any start with low clocks, any order of the rises and of
/// the falls in each vector, any of them at once, and any free bits at each moment. So what holds in every run is never
/// said of none.
pub fn every_choice_runs()
    ensures { EveryChoiceRuns }
{}
