//! How many nets there are before those of added ports.

ghost use Rattle.std.specs.Prelude.{◌≡◌, ◌≤◌, ◌<◌, ◌^◌, length};
ghost use Rattle.dft_netlist.specs.Sound.{bits_of};

use dft_netlist::{Design, Port};

// How many nets are bits of ports.
pub(crate) fn count_port_nets(design: &Design) -> usize
    ensures count { result ≡ length (bits_of design.now.ports) }
    ensures within { result ≤ length design.now.nets }
{
    count_bits(design.ports())
}

// How many bits these ports have.
fn count_bits(ports: &[Port]) -> usize
    requires { length (bits_of ports.now) < 2 ^ 64 }
    ensures { result ≡ length (bits_of ports.now) }
{
    let mut count = 0;
    for port in ports {
        count += port.bits.as_slice().len();
    }
    count
}
