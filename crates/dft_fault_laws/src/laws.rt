//! Laws of stuck nets, as contracts of functions that do nothing.

ghost use Rattle.dft_fault_laws.specs.Laws.{FaultyMeans, PassOfBound, RankStays, RoundOfPasses, RoundOfRises, StillStays};

/// Where no clock, reset or set comes by a stuck net, the design with it does what the design does, but for the constant at the net.
pub fn faulty_means()
    ensures means { FaultyMeans }
    ensures rank { RankStays }
{}

/// What a net shows of the pulsed domains without the stuck net bounds what it shows with it.
pub fn still_stays()
    ensures { StillStays }
{}

/// A vector whose cells all read what is still has a round from one assignment for its rises and one for its falls.
pub fn rounds_have_passes()
    ensures pass { PassOfBound }
    ensures both { RoundOfPasses }
    ensures rises { RoundOfRises }
{}
