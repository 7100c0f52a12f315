//! Whether connections of module instances fit the ports of their modules.

ghost use Rattle.std.specs.Prelude.{◌≡◌, ◌<◌, ℕ, [], ◌∷◌, None, Some, length, find, not, map, slice_get, IfOk, IfErr, OnOk};
ghost use Rattle.std.specs.List.{list_any};
ghost use Rattle.dft_hier.specs.Fitting.{ArePortsFound, TellsMisfit};
ghost use Rattle.dft_hier.specs.Hierarchy.{all_subs, find_module, subs_of};
ghost use Rattle.dft_numbered.specs.Numbers.{Finds};
ghost use Rattle.dft_hier.specs.Numbers.{children_of, number_of, port_names};
ghost use Rattle.dft_hier.specs.Refusals as spec;
ghost use Rattle.dft_hier.specs.Refusals.{first_misfit, first_unknown, fits};

use crate::children::{Children, sub_in};
use crate::error::HierError;
use dft_modules::{Connection, Module, SubInstance};
use dft_netlist::{Dir, Port, Signal};
use dft_numbered::Numbered;
use std::alloc::{AllocError, Global};

/// The ports of a module by their names.
pub fn port_numbers<'a>(alloc: Global, owner: &'a Module) -> Result<Numbered<'a>, AllocError>
    ensures { IfOk result (λ numbers. Finds numbers (port_names owner.now.ports)) }
{
    let mut numbers = Numbered::new(alloc);
    for (number, port) in owner.ports().iter().enumerate() {
        numbers.put(port.name.as_slice(), number)?;
    }
    Ok(numbers)
}

/// The ports of each module by their names.
pub fn all_ports<'a>(alloc: Global, modules: &'a [Module]) -> Result<Vec<Numbered<'a>>, AllocError>
    ensures { IfOk result (λ ports. ArePortsFound modules.now ports.items) }
{
    let mut all = Vec::with_capacity(alloc, modules.len())?;
    for owner in modules {
        all.push(port_numbers(alloc, owner)?)
            .map_err(AllocError::from)?;
    }
    Ok(all)
}

// Whether signals are none, or as many as the bits of a port.
fn has_width(port: &Port, signals: &[Signal]) -> bool
    ensures { result ≡ spec.has_width port.now signals.now }
{
    signals.is_empty() || signals.len() == port.bits.as_slice().len()
}

// Whether one of these is a constant.
fn has_constant(signals: &[Signal]) -> bool
    ensures { result ≡ list_any spec.is_constant signals.now }
{
    signals
        .iter()
        .any(|signal| matches!(signal, Signal::Constant(_)))
}

// Whether a port would drive a constant.
fn drives_constant(dir: Dir, signals: &[Signal]) -> bool
    ensures { result ≡ spec.drives_constant dir signals.now }
{
    match dir {
        Dir::Input => false,
        Dir::Output => has_constant(signals),
    }
}

// Whether a port may be joined to these signals.
fn fits_port(port: &Port, signals: &[Signal]) -> bool
    ensures { result ≡ spec.fits_port (Some port.now) signals.now }
{
    has_width(port, signals) && !drives_constant(port.dir, signals)
}

// Whether a connection fits a port of its module.
fn fits_module(owner: &Module, ports: &Numbered<'_>, connection: &Connection) -> bool
    requires { Finds ports.now (port_names owner.now.ports) }
    ensures { result ≡ fits owner.now.ports connection.now }
{
    match ports.find(connection.port.as_slice()) {
        Some(number) => fits_port(&owner.ports()[number], connection.signals.as_slice()),
        None => false,
    }
}

// Tests the connections of a module instance.
fn check_sub(
    alloc: Global,
    owner: &Module,
    ports: &Numbered<'_>,
    sub: &SubInstance,
) -> Result<(), HierError>
    requires { Finds ports.now (port_names owner.now.ports) }
    ensures ok { OnOk result (find (λ c. not (fits owner.now.ports c)) sub.now.connections ≡ None) }
    ensures refused { IfErr result (TellsMisfit (find (λ c. not (fits owner.now.ports c)) sub.now.connections)) }
{
    for connection in sub.connections.as_slice() {
        if !fits_module(owner, ports, connection) {
            return Err(HierError::H5 {
                place: connection.place,
                name: connection.port.copy(alloc)?,
            });
        }
    }
    Ok(())
}

// Tests the connections of a module's instances.
fn check_module(
    alloc: Global,
    modules: &[Module],
    ports: &[Numbered<'_>],
    owner: &Module,
    children: &[usize],
) -> Result<(), HierError>
    requires ports { ArePortsFound modules.now ports.now }
    requires children { map (λ s. number_of modules.now s.of) (subs_of owner.now.items) ≡ map Some children.now }
    ensures ok { OnOk result (first_misfit modules.now (subs_of owner.now.items) ≡ None) }
    ensures refused { IfErr result (TellsMisfit (first_misfit modules.now (subs_of owner.now.items))) }
{
    let mut next = 0;
    for item in owner.items() {
        if let Some(sub) = sub_in(item) {
            let child = children[next];
            check_sub(alloc, &modules[child], &ports[child], sub)?;
            next += 1;
        }
    }
    Ok(())
}

/// Tests the connections of all module instances. Refused with `H5` for the first that fits no port.
pub fn check_all(
    alloc: Global,
    modules: &[Module],
    ports: &[Numbered<'_>],
    children: &[Children],
) -> Result<(), HierError>
    requires ports { ArePortsFound modules.now ports.now }
    requires known { first_unknown modules.now ≡ None }
    requires children { children.now ≡ children_of modules.now }
    ensures ok { OnOk result (first_misfit modules.now (all_subs modules.now) ≡ None) }
    ensures refused { IfErr result (TellsMisfit (first_misfit modules.now (all_subs modules.now))) }
{
    for (number, owner) in modules.iter().enumerate() {
        check_module(alloc, modules, ports, owner, children[number].as_slice())?;
    }
    Ok(())
}
