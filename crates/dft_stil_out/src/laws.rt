//! Laws about the written form, as contracts of functions that do nothing.

ghost use Rattle.dft_stil_out.specs.Laws.{HasOneForm};
ghost use Rattle.dft_stil_out.specs.LengthLaws.{HasWrittenLength};

/// Patterns without notes have one written form.
pub fn one_form()
    ensures { HasOneForm }
{}

/// The written form of patterns has the length that their signals, the number of their vectors and their notes give.
pub fn has_written_length()
    ensures { HasWrittenLength }
{}
