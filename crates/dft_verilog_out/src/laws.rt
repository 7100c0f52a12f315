//! Laws about netlists and their texts, as contracts of functions that do nothing.

ghost use Rattle.dft_verilog_out.specs.Laws.{LibraryIsKept, TextsAreJoined, WrittenStands};

/// The gates of a netlist that a text stands for are joined at every pin, so whatever was read can be written. And the
/// netlist is over the cells that the text was read with.
pub fn texts_are_joined()
    ensures joined { TextsAreJoined }
    ensures library { LibraryIsKept }
{}

/// The written form of a netlist stands for it, whoever wrote it.
pub fn written_stands()
    ensures { WrittenStands }
{}
