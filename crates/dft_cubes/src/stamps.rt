ghost use Rattle.std.specs.Prelude.{◌≡◌, ◌<◌, ◌≤◌, ◌++◌, ◌∷◌, [], Bool, IfOk, List, OnOk, vec_len};
ghost use Rattle.dft_cubes.specs.Cubes.{has_cell, has_port};
ghost use Rattle.dft_cubes.specs.Taking.{AreStamped, cell_in, cube_of, port_in};

use crate::draft::Draft;
use dft_netlist::{InstanceId, NetId};
use std::alloc::{AllocError, Global};

// What the pending cube has given: each instance and each net bears the number of the last cube that named it.
#[derive(Debug, Drop)]
pub(crate) struct Stamps {
    pub(crate) cells: Vec<u32>,
    pub(crate) ports: Vec<u32>,
    // The number of the pending cube, or of the next one.
    pub(crate) number: u32,
}

impl Stamps {
    // No cube has named anything.
    pub(crate) fn new(alloc: Global, instances: usize, nets: usize) -> Result<Stamps, AllocError>
        ensures number { IfOk result (λ stamps. stamps.number ≡ 1) }
        ensures cells { IfOk result (λ stamps. (vec_len stamps.cells ≡ instances) × AreStamped 1 stamps.cells.items (cell_in [])) }
        ensures ports { IfOk result (λ stamps. (vec_len stamps.ports ≡ nets) × AreStamped 1 stamps.ports.items (port_in [])) }
    {
        Ok(Stamps {
            cells: vec![in alloc; 0; instances]?,
            ports: vec![in alloc; 0; nets]?,
            number: 1,
        })
    }

    // Whether the pending cube has given this cell.
    pub(crate) fn has_cell(&self, cell: InstanceId) -> bool
        requires { cell.0 < vec_len self.now.cells }
        ensures { (given : List (InstanceId × Bool)) → AreStamped self.now.number self.now.cells.items (cell_in given) → result ≡ cell_in given cell.0 }
    {
        self.cells[cell.0 as usize] == self.number
    }

    // Whether the pending cube has given this port.
    pub(crate) fn has_port(&self, port: NetId) -> bool
        requires { port.0 < vec_len self.now.ports }
        ensures { (given : List (NetId × Bool)) → AreStamped self.now.number self.now.ports.items (port_in given) → result ≡ port_in given port.0 }
    {
        self.ports[port.0 as usize] == self.number
    }
}
