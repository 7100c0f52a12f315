//! Laws of the report, as contracts of functions that do nothing.

ghost use Rattle.dft_scan.specs.Laws.{FlipFlopsHaveLines};

/// Of each flip-flop that is judged a line can be written: where it stands, at whichever place, or why it is not scanned.
pub fn flip_flops_have_lines()
    ensures { FlipFlopsHaveLines }
{}
