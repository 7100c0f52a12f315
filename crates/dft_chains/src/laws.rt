//! The laws, as contracts of functions that do nothing.

ghost use Rattle.dft_chains.specs.Hardware.{ChainsStay};
ghost use Rattle.dft_chains.specs.ScanOff.{PinsKeep, ScanOff};
ghost use Rattle.dft_chains.specs.Shifts.{EndsShow, EndsShowBefore, EntryLaw, LinkLaw, ShiftExperiment, ShiftInRuns};

/// What shift vectors do to the chains, on the abstract cycle and in every run: whatever the order of the edges and the
/// free bits, each cell takes the bit of the one before it.
pub fn chains_shift()
    ensures links { LinkLaw }
    ensures entries { EntryLaw }
    ensures runs { ShiftInRuns }
    ensures experiment { ShiftExperiment }
    ensures ends { EndsShow }
    ensures ends_before { EndsShowBefore }
{}

/// While scan is off, a design that contains another behaves as it.
pub fn scan_off_agrees()
    ensures { ScanOff }
{}

/// A flip-flop whose pins are kept keeps what it takes while scan is off.
pub fn pins_keep()
    ensures { PinsKeep }
{}

/// The chains stand under every wider set of ports, as those of a pattern set are.
pub fn chains_stay()
    ensures { ChainsStay }
{}
