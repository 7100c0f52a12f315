//! Laws of scanned netlists, as contracts of functions that do nothing.

ghost use Rattle.dft_scan_behavior.specs.Capturing.{CapturesFollow, StrobesFollow};
ghost use Rattle.dft_scan_behavior.specs.EdtVectors.{HasEdtUnder, VectorsAct, VectorsActInRuns};
ghost use Rattle.dft_scan_behavior.specs.Existence.{EventsRunWhileOff, ShiftsRun};
ghost use Rattle.dft_scan_behavior.specs.Experiments.{LoadsReach, UnloadsShow};
ghost use Rattle.dft_scan_behavior.specs.Facts.{HasEdtHardware, HasPlainHardware, HasScanChains};
ghost use Rattle.dft_scan_behavior.specs.FlopOrder.{FlopsInOrder};
ghost use Rattle.dft_scan_behavior.specs.PlainLaws.{ScannedShifts, ScannedShows};

/// For a finished design that the scan rules pass, the scanned netlist of either style has the planned chains; in style Plain they
/// stand between ports of their own, and in style Edt it has all of the compression hardware, under the configuration's ports and the
/// clock edt_clock, and under all ports that suit them.
pub fn scanned_has()
    ensures chains { HasScanChains }
    ensures plain { HasPlainHardware }
    ensures hardware { HasEdtHardware }
    ensures wider { HasEdtUnder }
    ensures order { FlopsInOrder }
{}

/// In style Plain, in every run, the chains shift by one place a shift vector, and each scan output shows its last cell. Each table of bits
/// is shifted in by some run.
pub fn plain_shifts()
    ensures shifts { ScannedShifts }
    ensures shows { ScannedShows }
    ensures run { ShiftsRun }
{}

/// In style Edt, what one vector does to the hardware: in every run, and on the abstract cycle for any halves.
pub fn edt_acts()
    ensures runs { VectorsActInRuns }
    ensures cycle { VectorsAct }
{}

/// In style Edt a load puts into each cell the sum over its load equation, and an unload shows at each output the sum of the chains of
/// its group that are not masked: in every run, and on the abstract cycle.
pub fn edt_loads()
    ensures loads { LoadsReach }
    ensures unloads { UnloadsShow }
{}

/// In style Edt, what one capture vector does beside the design alone. That one which clears leaves the ring 0, and takes the mask
/// bits into the hold bits, is told by edt_acts.
pub fn edt_captures()
    ensures strobes { StrobesFollow }
    ensures captures { CapturesFollow }
{}

/// From any two starts a design and its scanned netlist with scan_enable 0 go through the same events, whatever the design's events and
/// free bits are: so what is said of both while scan is off is never said of none.
pub fn events_run()
    ensures { EventsRunWhileOff }
{}
