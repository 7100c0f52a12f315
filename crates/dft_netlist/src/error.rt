ghost use Rattle.std.specs.Prelude.{◌≡◌};
ghost use Rattle.dft_netlist.specs.declared.error.NetlistError.TheVariants.{Memory};

use dft_base::Name;
use std::alloc::AllocError;
use thiserror::Error;

/// What a limit counts.
#[derive(Clone, Copy, Debug, PartialEq, Eq)]
pub enum Counted {
    Ports,
    Nets,
    Instances,
}

/// Why a netlist is refused.
#[derive(Debug, Error, Drop)]
pub enum NetlistError {
    /// N1: the net has two drivers among input ports, output pins and joins; it is the first such net.
    #[error("a net has two drivers")]
    MultipleDrivers { net: Name },
    /// N2: no order puts each net after the nets that its driver reads. The net is where a walk back
    /// from the first net that cannot be ordered first comes again.
    #[error("the nets have no order: this one lies on a loop")]
    Loop { net: Name },
    /// N3: the printed name is taken.
    #[error("a printed name is taken")]
    DuplicateName { name: Name },
    /// N4: there would be more than the limit.
    #[error("more than 32,768 ports, 524,288 nets or 262,144 instances")]
    TooMany { what: Counted, limit: i64 },
    /// Memory ran out.
    #[error("out of memory")]
    Memory(AllocError),
}

impl From<AllocError> for NetlistError {
    ghost from_gives = { λ error gives. gives ≡ Memory error };

    fn from(error: AllocError) -> NetlistError {
        NetlistError::Memory(error)
    }
}
