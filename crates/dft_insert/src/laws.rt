//! Laws about scanned netlists, as contracts of functions that do nothing.

ghost use Rattle.dft_insert.specs.Counts.{CountsAdded};
ghost use Rattle.dft_insert.specs.Statements.{AddsInOrder, KeepsDesign};
ghost use Rattle.dft_insert.specs.Finishing.{CanBeFinished};
ghost use Rattle.dft_insert.specs.Agreeing.{AgreesWhileOff, ContainsDesign};

/// Behind the design's instances a scanned netlist has as many flip-flops and lock-ups as its style adds: in style Edt the stages of
/// the ring and two flip-flops for each chain, in style Plain none; and the planned lock-ups between domains, in style Edt with one on
/// edt_clock for each chain whose first cell is rising.
pub fn scanned_counts()
    ensures { CountsAdded }
{}

/// A scanned netlist keeps its design: its ports, nets, joins and instances in order and under their names, but that the
/// scanned flip-flops are their scan cells. What is added stands behind: ports with their names and directions, and nets and
/// instances under made names in order.
pub fn scanned_keeps()
    ensures keeps { KeepsDesign }
    ensures adds { AddsInOrder }
{}

/// For a finished design that the scan rules pass, no net of the scanned netlist of either style has two drivers, and every net of it
/// can be ordered.
pub fn scanned_can_finish()
    ensures { CanBeFinished }
{}

/// A scanned netlist of either style contains its design, and behaves as it while scan is off.
pub fn scanned_agrees()
    ensures contains { ContainsDesign }
    ensures agrees { AgreesWhileOff }
{}
