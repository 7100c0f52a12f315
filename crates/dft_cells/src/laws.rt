//! Laws about the meaning of cells, as contracts of functions that do nothing.

ghost use Rattle.dft_cells.specs.Laws.{CompletionsAreAbove, ForcedIsAbove, ChosenIsAbove, TakenIsAbove, LeftIsAbove};

/// What all completions of the unknown inputs share stands above the output at each completion.
pub fn completions_are_above()
    ensures { CompletionsAreAbove }
{}

/// The three-valued next values stand above the next bits.
pub fn next_values_are_above()
    ensures forced { ForcedIsAbove }
    ensures chosen { ChosenIsAbove }
    ensures taken { TakenIsAbove }
    ensures left { LeftIsAbove }
{}
