//! Laws of made configurations, as contracts of functions that do nothing.

ghost use Rattle.dft_configure.specs.Good.{PairsAreLoaded, TestedAreGood};
ghost use Rattle.dft_configure.specs.Most.{MostAreScanned};
ghost use Rattle.dft_configure.specs.Scanned.{ScannedAreCounted};

/// Where no load equation is empty and no two are the same, some channel bits load any one cell and any two cells with any bits.
pub fn pairs_are_loaded()
    ensures { PairsAreLoaded }
{}

/// Where no clock and no reset is left out for want of room, each flip-flop that any accepted configuration scans is scanned under the
/// clocks and resets that are made.
pub fn most_are_scanned()
    ensures { MostAreScanned }
{}

/// The test of load equations passes exactly where none is empty and no two are the same.
pub fn tested_are_good()
    ensures { TestedAreGood }
{}

/// As many flip-flops are counted as are scanned under a configuration with the clocks and resets of the netlist.
pub fn scanned_are_counted()
    ensures { ScannedAreCounted }
{}
