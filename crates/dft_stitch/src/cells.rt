ghost use Rattle.std.specs.Prelude.{◌≡◌, IfOk};

use dft_netlist::InstanceId;
use std::alloc::{AllocError, Global};
use std::marker::Model;

/// The cells of a chain, from the one nearest the scan input on. A clause sees them as a list.
#[derive(Debug)]
pub struct Cells {
    cells: Vec<InstanceId>,
}

// One call for all fields, so that the proof of what owns a value stays short.
impl Drop for Cells {
    fn drop(self) {
        let Cells { cells: _ } = self;
    }
}

impl Model for Cells {
    ghost use Rattle.std.specs.Prelude.{List};
    ghost use Rattle.dft_netlist.specs.declared.ids.InstanceId.{InstanceId};

    ghost Value = { List InstanceId };

    ghost view = { λ c. c.cells.items };
}

impl Cells {
    // These cells.
    pub(crate) fn from_slice(alloc: Global, cells: &[InstanceId]) -> Result<Cells, AllocError>
        ensures { IfOk result (λ chain. chain ≡ cells.now) }
    {
        Ok(Cells {
            cells: Vec::from_slice(alloc, cells)?,
        })
    }

    /// The cells.
    pub fn as_slice(&self) -> &[InstanceId]
        ensures { result.now ≡ self.now }
    {
        &self.cells
    }
}
