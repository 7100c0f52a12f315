//! Laws about designs, as contracts of functions that do nothing.

ghost use Rattle.dft_netlist.specs.DesignLaws.{ListedDrives, OrderRanks, OrderedIsOrderable};

/// Where no net has two drivers, what is listed as its driver drives it.
pub fn listed_drivers_drive()
    ensures { ListedDrives }
{}

/// An order of a design's nets ranks each above the nets that its driver reads, so all of them can be ordered.
pub fn orders_rank()
    ensures ranks { OrderRanks }
    ensures orderable { OrderedIsOrderable }
{}
