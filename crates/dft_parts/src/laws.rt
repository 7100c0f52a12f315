//! Laws of what is made, as contracts of functions that do nothing.

ghost use Rattle.dft_parts.specs.Growth.{PartsGrow, PartsStay};
ghost use Rattle.dft_parts.specs.Order.{OrderStays};
ghost use Rattle.dft_parts.specs.Ranks.{FlipFlopRanked, GateRanked, LockupRanked, OrderRanks, PartsRank, RanksOrder};
ghost use Rattle.dft_parts.specs.Single.{NewIsFree, StaysSingle, TimesAddUp};
ghost use Rattle.dft_parts.specs.Standing.{FlopStands, GateStands, InverseStands, LockupStands, PortShowsItself};
ghost use Rattle.dft_parts.specs.SumTrees.{SumBit, SumStands, SumValue};

/// What was there stays, and behind it stand the parts, under made names in order; parts go on standing.
pub fn parts_grow()
    ensures grow { PartsGrow }
    ensures stay { PartsStay }
{}

/// How often nets are driven adds up, a net that is not there yet is not driven, and no net gets two drivers where those that parts
/// drive are different and were not driven before.
pub fn parts_stay_single()
    ensures times { TimesAddUp }
    ensures new { NewIsFree }
    ensures single { StaysSingle }
{}

/// Nets that come after what they read can be ordered.
pub fn order_stays()
    ensures { OrderStays }
{}

/// Where each instance drives nets that stand above those that it reads, every net can be ordered; an order of a netlist's nets ranks all,
/// and parts that are ranked leave all ranked: a flip-flop always is, a gate and a lock-up whose output stands above what they read are.
pub fn ranks_order()
    ensures order { RanksOrder }
    ensures ranks { OrderRanks }
    ensures parts { PartsRank }
    ensures flip_flop { FlipFlopRanked }
    ensures gate { GateRanked }
    ensures lockup { LockupRanked }
{}

/// In a finished netlist a made gate drives its net from its inputs, a made flip-flop takes its input and shows its bit, a made `not`
/// of a clock port shows its inverse, and a made lock-up holds its input, high on such an inverse and low on the port.
pub fn made_parts_drive()
    ensures gate { GateStands }
    ensures flop { FlopStands }
    ensures port { PortShowsItself }
    ensures inverse { InverseStands }
    ensures lockup { LockupStands }
{}

/// In a finished netlist the net of a sum's recipe is the sum of the terms, and in every settled assignment it has the sum of their
/// bits, over two and over three values.
pub fn sums_add_up()
    ensures stands { SumStands }
    ensures bit { SumBit }
    ensures value { SumValue }
{}
