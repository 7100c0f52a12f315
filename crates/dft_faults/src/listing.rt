//! The faults of a design.

ghost use Rattle.std.specs.Prelude.{◌≡◌, ◌<◌, IfOk, length};
ghost use Rattle.dft_behavior.specs.RootTables.{AreRoots};
ghost use Rattle.dft_netlist.specs.Netlist.{Netlist};
ghost use Rattle.dft_faults.specs.Faults as spec;

use crate::fault::Fault;
use dft_behavior::{NetRoot, clock_in, find_roots};
use dft_netlist::{Design, NetDriver, NetId, Signal};
use std::alloc::{AllocError, Global};

// Whether this is one of the clocks.
fn is_clock(clocks: &[NetId], net: NetId) -> bool
    ensures { result ≡ spec.is_clock_in clocks.now net.0 }
{
    clocks.iter().any(|clock| clock.0 == net.0)
}

// Whether the net shows one of these clock ports, itself or inverted, by what each net shows.
fn shows_clock(roots: &[NetRoot], clocks: &[NetId], net: NetId) -> bool
    ensures { (n : Netlist) → AreRoots n roots.now → result ≡ spec.shows_clock n (spec.is_clock_in clocks.now) net.0 }
{
    match clock_in(roots, Signal::Net(net)) {
        Some(root) => is_clock(clocks, root.port),
        None => false,
    }
}

// Whether the net has faults: it has a driver, is no bit of an input port, and shows no clock.
fn has_faults(design: &Design, roots: &[NetRoot], clocks: &[NetId], net: NetId) -> bool
    requires net { net.0 < length design.now.nets }
    requires roots { AreRoots design.now roots.now }
    ensures { result ≡ spec.has_faults design.now (spec.is_clock_in clocks.now) net.0 }
{
    match design.driver(net) {
        NetDriver::Input | NetDriver::Nothing => false,
        NetDriver::Pin { .. } | NetDriver::Join(_) => !shows_clock(roots, clocks, net),
    }
}

/// The faults of a design whose clock ports are these: for each net in order that has a driver, is no bit of an input port and shows
/// no clock, value 0 and then 1.
pub fn faults(alloc: Global, design: &Design, clocks: &[NetId]) -> Result<Vec<Fault>, AllocError>
    ensures { IfOk result (λ faults. faults.items ≡ spec.faults design.now (spec.is_clock_in clocks.now)) }
{
    let roots = find_roots(alloc, design)?;
    let mut faults = Vec::new(alloc);
    for number in 0..design.net_count() {
        let net = NetId(number);
        if has_faults(design, &roots, clocks, net) {
            faults.push(Fault { net, value: false })?;
            faults.push(Fault { net, value: true })?;
        }
    }
    Ok(faults)
}
