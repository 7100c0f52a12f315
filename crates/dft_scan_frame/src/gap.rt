//! Where the nets of a design stand in its scanned netlist.

ghost use Rattle.std.specs.Prelude.{◌≡◌, ◌+◌, ◌<◌, ◌^◌};
ghost use Rattle.dft_scan_frame.specs.Moves as spec;

use crate::counting::count_port_nets;
use dft_netlist::{Design, NetId};
use std::marker::Model;

/// The nets of the added ports, which stand between those of the design's ports and its other nets.
#[derive(Debug, Drop)]
pub struct Gap {
    before: u32,
    width: u32,
}

impl Model for Gap {
    ghost use Rattle.dft_scan_frame.specs.Moves as moves;

    ghost Value = { moves.Gap };

    ghost view = { λ g. record { before = g.before; width = g.width } };
}

impl Gap {
    /// That of so many nets of added ports.
    pub fn new(design: &Design, width: u32) -> Gap
        ensures { result ≡ spec.gap_of design.now width }
    {
        design.soundness();
        Gap {
            before: count_port_nets(design) as u32,
            width,
        }
    }

    /// How many nets come before those of the added ports.
    pub fn before(&self) -> u32
        ensures { result ≡ self.now.before }
    {
        self.before
    }

    /// How many nets the added ports have.
    pub fn width(&self) -> u32
        ensures { result ≡ self.now.width }
    {
        self.width
    }

    /// The number of a net of the design in the scanned netlist.
    pub fn moved(&self, net: NetId) -> NetId
        requires { net.0 + self.now.width < 2 ^ 32 }
        ensures { result.0 ≡ spec.moved self.now net.0 }
    {
        if net.0 < self.before {
            net
        } else {
            NetId(net.0 + self.width)
        }
    }
}
