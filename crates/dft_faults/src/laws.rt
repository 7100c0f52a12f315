//! Laws about designs with a stuck net, as contracts of functions that do nothing.

ghost use Rattle.dft_faults.specs.Laws.{DriversStay, FaultyCanFinish, ListedAreFaults, OrderStays};

/// A design with a stuck net is never refused: no net has two drivers, and every net can be ordered. Each fault that is listed is one.
pub fn faulty_can_finish()
    ensures finished { FaultyCanFinish }
    ensures order { OrderStays }
    ensures listed { ListedAreFaults }
{}

/// The stuck net has the constant, and every other net has the driver that it had.
pub fn faulty_drivers()
    ensures { DriversStay }
{}
