ghost use Rattle.std.specs.Prelude.{◌≡◌};
ghost use Rattle.dft_behavior.specs.Roots as roots;

use dft_netlist::NetId;

/// Where a walk back from a net, through buffers and joins, ends.
#[derive(Clone, Copy, Debug, PartialEq, Eq)]
pub enum Root {
    /// At this net, the bit of an input port.
    Port(NetId),
    /// At a constant or a tie cell.
    Constant(bool),
    /// At neither.
    Other,
}

/// The clock that a net shows: the bit of an input port, by its net, or its inverse.
#[derive(Clone, Copy, Debug, PartialEq, Eq)]
pub struct ClockRoot {
    pub port: NetId,
    pub inverted: bool,
}

/// The root of a net: where a walk back from it, through buffers, joins and inverters, ends.
#[derive(Clone, Copy, Debug, PartialEq, Eq)]
pub enum NetRoot {
    /// At this net, the bit of an input port: the net shows it, or its inverse; straight where no inverter is passed.
    Port(NetId, bool, bool),
    /// At a constant or a tie cell, and no inverter is passed.
    Constant(bool),
    /// At neither.
    Other,
}

impl NetRoot {
    /// Where a net with this root traces to, through no inverter.
    pub fn traced(self) -> Root
        ensures { result ≡ roots.traced self }
    {
        match self {
            NetRoot::Port(net, _, straight) => {
                if straight {
                    Root::Port(net)
                } else {
                    Root::Other
                }
            }
            NetRoot::Constant(bit) => Root::Constant(bit),
            NetRoot::Other => Root::Other,
        }
    }

    /// The clock that a net with this root shows, if it shows one.
    pub fn clock(self) -> Option<ClockRoot>
        ensures { result ≡ roots.clock_shown self }
    {
        match self {
            NetRoot::Port(port, inverted, _) => Some(ClockRoot { port, inverted }),
            NetRoot::Constant(_) | NetRoot::Other => None,
        }
    }
}
