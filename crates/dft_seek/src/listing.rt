//! The faults for which test cubes are sought.

ghost use Rattle.std.specs.Prelude.{◌≡◌, ℕ, IfOk, filter};
ghost use Rattle.dft_faults.specs.Faults.{is_clock_in};
ghost use Rattle.dft_seek.specs.SoughtFaults as spec;

use dft_base::Name;
use dft_behavior::{NetRoot, Root, find_roots, root_in};
use dft_config::Config;
use dft_faults::{Fault, faults};
use dft_netlist::{Design, NetId, Signal};
use std::alloc::{AllocError, Global};

// The bits of input ports that these names stand for.
fn port_nets(alloc: Global, design: &Design, names: &[Name]) -> Result<Vec<NetId>, AllocError>
    ensures { IfOk result (λ nets. (net : ℕ) → is_clock_in nets.items net ≡ spec.is_named design.now names.now net) }
{
    let mut nets = Vec::new(alloc);
    for name in names {
        match design.input(name.as_slice()) {
            Some(net) => nets.push(net)?,
            None => {}
        }
    }
    Ok(nets)
}

// Whether the net is one of these.
fn is_among(nets: &[NetId], net: NetId) -> bool
    ensures { result ≡ is_clock_in nets.now net.0 }
{
    nets.iter().any(|other| other.0 == net.0)
}

// Whether the net traces to one of these ports, by the roots of the nets.
fn traces_port(roots: &[NetRoot], ports: &[NetId], net: NetId) -> bool
    ensures { result ≡ spec.traces_port roots.now ports.now net.0 }
{
    match root_in(roots, Signal::Net(net)) {
        Root::Port(port) => is_among(ports, port),
        Root::Constant(_) | Root::Other => false,
    }
}

// Those of the faults whose nets trace to none of these ports, by the roots of the nets.
fn untraced(
    alloc: Global,
    faults: &[Fault],
    roots: &[NetRoot],
    ports: &[NetId],
) -> Result<Vec<Fault>, AllocError>
    ensures { IfOk result (λ left. left.items ≡ filter (spec.is_left roots.now ports.now) faults.now) }
{
    let mut left = Vec::new(alloc);
    for fault in faults {
        if !traces_port(roots, ports, fault.net) {
            left.push(*fault)?;
        }
    }
    Ok(left)
}

/// The faults for which test cubes are sought: for each net in order that has a driver, is no bit of an input port, shows no
/// configured domain and traces to no configured reset, value 0 and then 1.
pub fn seek_faults(
    alloc: Global,
    design: &Design,
    config: &Config,
) -> Result<Vec<Fault>, AllocError>
    ensures { IfOk result (λ faults. faults.items ≡ spec.seek_faults design.now config.now) }
{
    let clocks = port_nets(alloc, design, config.domains())?;
    let resets = port_nets(alloc, design, config.resets())?;
    let roots = find_roots(alloc, design)?;
    let all = faults(alloc, design, &clocks)?;
    untraced(alloc, &all, &roots, &resets)
}
