ghost use Rattle.std.specs.Prelude.{◌≡◌};
ghost use Rattle.dft_hier.specs.declared.error.HierError.TheVariants.{Memory};

use dft_base::{Name, Place};
use dft_netlist::NetlistError;
use std::alloc::AllocError;
use thiserror::Error;

/// Why modules have no flat design.
#[derive(Debug, Error, Drop)]
pub enum HierError {
    /// An instance of a module that is not there.
    #[error("an instance of what is no cell of the library and no module of the text")]
    H2 { name: Name },
    /// A module that has an instance of itself, or below one of its instances.
    #[error("a module has an instance of itself, or below one of its instances")]
    H3 { name: Name },
    /// The number of modules that no module has an instance of is not 1.
    #[error("the modules that no module has an instance of are not one")]
    H4 { count: usize },
    /// A connection that fits no port of its module: the module has none of this name, or one of another width, or one that
    /// drives a constant.
    #[error("a connection that fits no port of its module: the module has none of this name, it has another width, or it is an output and joined to a constant")]
    H5 { place: Place, name: Name },
    /// The flat netlist is refused: a name that is taken, one more than there may be, two drivers, or a loop.
    #[error("the flat design is refused")]
    Netlist(NetlistError),
    /// Memory ran out.
    #[error("out of memory")]
    Memory(AllocError),
}

impl From<AllocError> for HierError {
    ghost from_gives = { λ error gives. gives ≡ Memory error };

    fn from(error: AllocError) -> HierError {
        HierError::Memory(error)
    }
}
