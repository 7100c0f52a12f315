ghost use Rattle.std.specs.Prelude.{◌≡◌, ◌++◌, ◌∷◌, [], IfOk};
ghost use Rattle.dft_base.specs.Name.{IsName};
ghost use Rattle.dft_cubes.specs.Taking.{cube_of, bare};

use crate::cube::{Cube, Domains};
use dft_base::{Listed, Name};
use dft_netlist::{InstanceId, NetId};
use std::alloc::{AllocError, Global};

// A cube that has not ended.
#[derive(Debug, Drop)]
pub(crate) struct Draft {
    pub(crate) name: Name,
    pub(crate) domains: Domains,
    pub(crate) cells: Vec<(InstanceId, bool)>,
    pub(crate) ports: Vec<(NetId, bool)>,
}

impl Draft {
    // The cube that has given nothing yet.
    pub(crate) fn new(alloc: Global, name: &[u8], domains: Domains) -> Result<Draft, AllocError>
        requires { IsName name.now }
        ensures { IfOk result (λ draft. cube_of draft ≡ bare name.now domains) }
    {
        Ok(Draft {
            name: Name::from_slice(alloc, name)?,
            domains,
            cells: Vec::new(alloc),
            ports: Vec::new(alloc),
        })
    }

    // The cube, where it ends.
    pub(crate) fn into_cube(self) -> Cube
        ensures { result ≡ cube_of self }
    {
        Cube {
            name: self.name,
            domains: self.domains,
            cells: Listed::from_vec(self.cells),
            ports: Listed::from_vec(self.ports),
        }
    }
}
