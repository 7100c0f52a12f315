//! Laws of made configurations, as contracts of functions that do nothing.

ghost use Rattle.dft_configure_laws.specs.MadeLoads.{MadeIsGood, MadeLoads, NoneIsUnsolvable};
ghost use Rattle.dft_configure_laws.specs.MadeScans.{MadeScansMost};
ghost use Rattle.dft_configure_laws.specs.Moves.{ApartIsPlain, MovesAreSums};
ghost use Rattle.dft_configure_laws.specs.Pairs.{FewAreLoaded, FewAreSolvable};
ghost use Rattle.dft_configure_laws.specs.Taken.{CompilesPass, ScansPass, TextsAreTaken};

/// Where no load equation is empty and no two are the same, some channel bits load any care bits of one cell or of two into the
/// flip-flops in every run of the netlist that is made, and no cube of them is ever unsolvable.
pub fn few_are_loaded()
    ensures loaded { FewAreLoaded }
    ensures solvable { FewAreSolvable }
{}

/// So it is under every made configuration, and a compilation of any cubes never tells one of these as unsolvable.
pub fn made_loads()
    ensures good { MadeIsGood }
    ensures loaded { MadeLoads }
    ensures solvable { NoneIsUnsolvable }
{}

/// The text of a made configuration gives it, and no other, and is refused for want of memory alone. No check of a compilation of the
/// netlist before its cubes fails under it, and a scan of the netlist is refused by its insertion or its report alone.
pub fn made_is_taken()
    ensures text { TextsAreTaken }
    ensures compile { CompilesPass }
    ensures scan { ScansPass }
{}

/// Where no clock and no reset is left out for want of room, each flip-flop that any accepted configuration scans is scanned under the made
/// one.
pub fn made_scans()
    ensures { MadeScansMost }
{}

/// Without channel bits the sum over a set of stages after so many cycles is the sum over what the set has become in as many moves. Two sets are
/// apart exactly where no sum of the one is always, so few cycles later, what that of the other is now.
pub fn moves_are_sums()
    ensures sums { MovesAreSums }
    ensures apart { ApartIsPlain }
{}
