//! The laws of what has to be settled, as contracts of functions that do nothing.

ghost use Rattle.dft_takings.specs.Laws.{LockupIsInput, LockupIsWire, NeededIsView, NeededIsStrobe, NextOfNeeded, LookOfNeeded, StillIsOne, StillHasOneNext, StillIsStrobe, StillNextIsStrobe, OnePass, ShownIsStrobe, PassOfShown, NextOfStrobe, NextOfSource, NextOfForce, OriginIsShown, EntryIsNext, PassOfEntries, PassOfNeeded, EntryStays, ListIsClosed, ListIsSettled, ViewIsAboveStrobe, NoTwoBits, ViewsRise, ReadsRise};

/// In every view of the rises a low lock-up shows its input in the view of its own clock, pulsing or not. At a strobe it
/// is a wire, and a high one holds.
pub fn lockup_shows_input()
    ensures view { LockupIsInput }
    ensures strobe { LockupIsWire }
{}

/// What is not read need not be settled: an assignment that gives each net of a set closed under reading its
/// driver's value agrees there with the settled one.
pub fn needed_is_settled()
    ensures view { NeededIsView }
    ensures next { NextOfNeeded }
    ensures strobe { NeededIsStrobe }
    ensures look { LookOfNeeded }
{}

/// What does not move has one pass: where nothing that a flip-flop needs moves, its next value is one whatever the
/// map, and without another pulsed clock it is that from the values before the edges of the phase.
pub fn still_has_one_pass()
    ensures one { StillIsOne }
    ensures next { StillHasOneNext }
    ensures strobe { StillIsStrobe }
    ensures from { StillNextIsStrobe }
    ensures pass { OnePass }
{}

/// What nets show of the pulsed domains is found in one pass for all views, and where nothing needed moves one
/// assignment, before the edges of the phase and of the needed nets alone, gives all next values.
pub fn one_assignment()
    ensures view { ShownIsStrobe }
    ensures pass { PassOfShown }
{}

/// What a next value takes from the values before the edges: what it is read from, one source, a reset or set that acts; and which
/// flip-flop a net shows through joins and lock-ups.
pub fn next_at_strobe()
    ensures read { NextOfStrobe }
    ensures source { NextOfSource }
    ensures force { NextOfForce }
    ensures origin { OriginIsShown }
{}

/// What each flip-flop takes is told by an entry, where nothing that it needs moves. Where all have one, they give the
/// values after the pulse.
pub fn entries_tell()
    ensures next { EntryIsNext }
    ensures pass { PassOfEntries }
    ensures needed { PassOfNeeded }
    ensures stay { EntryStays }
{}

/// A list in which each net comes after those that it is settled from settles in its order.
pub fn lists_settle()
    ensures closed { ListIsClosed }
    ensures settled { ListIsSettled }
{}

/// Each net's value in each view stands above its value before the edges of the phase, and rises with the map.
pub fn views_rise()
    ensures strobe { ViewIsAboveStrobe }
    ensures bits { NoTwoBits }
    ensures map { ViewsRise }
    ensures reads { ReadsRise }
{}
