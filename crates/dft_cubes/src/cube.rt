ghost use Rattle.std.specs.Prelude.{◌≡◌, length, slice_get, MatchBool};
ghost use Rattle.dft_cubes.specs.Domains.{captured};

use dft_base::{Listed, Name};
use dft_netlist::{InstanceId, NetId};

/// The clocks of a capture, one for each of its vectors in turn, as places among the domains of the configuration: one or two.
#[derive(Clone, Copy, Debug, PartialEq, Eq)]
pub struct Domains {
    /// The clock of the first vector.
    pub first: u8,
    /// The clock of the second vector, if there is one.
    pub second: Option<u8>,
}

impl Domains {
    /// Whether these are the same clocks.
    pub fn are(self, other: Domains) -> bool
        ensures { MatchBool result (self ≡ other) (self ≡ other → ⊥) }
    {
        self.first == other.first && are_one(self.second, other.second)
    }

    /// The clock of the vector with this number, if there is one.
    pub fn at(self, vector: u8) -> Option<u8>
        ensures { result ≡ slice_get (captured self) vector }
    {
        match vector {
            0 => Some(self.first),
            1 => self.second,
            _ => None,
        }
    }

    /// How many clocks there are.
    pub fn count(self) -> u8
        ensures { result ≡ length (captured self) }
    {
        match self.second {
            Some(_) => 2,
            None => 1,
        }
    }
}

// Whether two second clocks are one, or there is none.
fn are_one(one: Option<u8>, other: Option<u8>) -> bool
    ensures { MatchBool result (one ≡ other) (one ≡ other → ⊥) }
{
    match (one, other) {
        (Some(one), Some(other)) => one == other,
        (None, None) => true,
        _ => false,
    }
}

/// A test cube: the bits that a pattern has to have, and the clocks that capture.
#[derive(Debug)]
pub struct Cube {
    pub name: Name,
    /// The clocks of its capture.
    pub domains: Domains,
    /// The bits that flip-flops hold before the capture, each named once.
    pub cells: Listed<(InstanceId, bool)>,
    /// The bits of input ports in the capture, each named once.
    pub ports: Listed<(NetId, bool)>,
}

// One call for all fields, so that the proof of what owns a value stays short.
impl Drop for Cube {
    fn drop(self) {
        let Cube {
            name: _,
            domains: _,
            cells: _,
            ports: _,
        } = self;
    }
}

/// What is to be loaded and set by one pattern: cubes that were put together.
#[derive(Debug, Drop)]
pub struct Merged {
    pub domains: Domains,
    pub cells: Listed<(InstanceId, bool)>,
    pub ports: Listed<(NetId, bool)>,
}
