ghost use Rattle.std.specs.Prelude.{◌≡◌, ◌++◌, ◌∷◌, [], false, OnOk};
ghost use Rattle.dft_certify.specs.Certifying.{has_cell};

use dft_netlist::InstanceId;
use indexmap::IndexSet;
use std::alloc::{AllocError, Global};
use std::marker::Model;

// Cells, each once, found by their numbers. A clause sees them in the order in which they were added.
#[derive(Debug)]
pub(crate) struct CellSet {
    numbers: IndexSet<u32>,
}

// One call for all fields, so that the proof of what owns a value stays short.
impl Drop for CellSet {
    fn drop(self) {
        let CellSet { numbers: _ } = self;
    }
}

impl Model for CellSet {
    ghost use Rattle.std.specs.Prelude.{List};
    ghost use Rattle.dft_netlist.specs.declared.ids.InstanceId.{InstanceId};
    ghost use Rattle.dft_certify.specs.Shown.{cells_in};

    ghost Value = { List InstanceId };

    ghost view = { cells_in };
}

impl CellSet {
    // No cell yet.
    pub(crate) fn new(alloc: Global) -> CellSet
        ensures { result ≡ [] }
    {
        CellSet {
            numbers: IndexSet::new(alloc),
        }
    }

    // Whether this cell was added.
    pub(crate) fn has(&self, cell: InstanceId) -> bool
        ensures { result ≡ has_cell self.now cell }
    {
        self.numbers.contains(&cell.0)
    }

    // Adds a cell that is not there.
    pub(crate) fn add(&mut self, cell: InstanceId) -> Result<(), AllocError>
        requires { has_cell self.old cell ≡ false }
        ensures { OnOk result (self.new ≡ self.old ++ cell ∷ []) }
    {
        self.numbers.insert(cell.0)?;
        Ok(())
    }
}
