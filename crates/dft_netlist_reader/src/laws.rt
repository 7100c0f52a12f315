//! Laws of the designs of netlist texts, as contracts of functions that do nothing.

ghost use Rattle.dft_netlist_reader.specs.Laws.{DesignOrRefusal, FlatAreJoined, RefusalsAreOne};

/// The gates of the design that a text stands for are joined at every pin, so whatever was read can be written.
pub fn designs_can_be_written()
    ensures { FlatAreJoined }
{}

/// A text is refused for one reason at most, want of memory aside, and not where it stands for a design.
pub fn texts_have_one_end()
    ensures one { RefusalsAreOne }
    ensures either { DesignOrRefusal }
{}
