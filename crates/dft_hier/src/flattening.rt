//! The flat design of modules.

ghost use Rattle.std.specs.Prelude.{◌≡◌, ◌<◌, ◌≤◌, List, None, Some, drop, length, slice_get, IfOk, IfErr, OnOk};
ghost use Rattle.dft_cells.specs.declared.cell.Cell.{Cell};
ghost use Rattle.dft_hier.specs.Fitting.{ArePortsFound};
ghost use Rattle.dft_hier.specs.Flat as spec;
ghost use Rattle.dft_modules.specs.Modules as said;
ghost use Rattle.dft_hier.specs.Growing.{Builds, Grows};
ghost use Rattle.dft_hier.specs.Hierarchy.{HaveOwnNames};
ghost use Rattle.dft_hier.specs.Laid.{IsFlatNetlist, IsLaid, IsTopOf, flat_at, name_at, told_of};
ghost use Rattle.dft_hier.specs.Numbers.{children_of};
ghost use Rattle.dft_hier.specs.Reach.{AreBelow, IsOrder};
ghost use Rattle.dft_hier.specs.Refusals.{IsFlat, CannotFlatten, NoneInItself, TellsFirst, first_unknown};
ghost use Rattle.dft_modules.specs.Sound.{AreModules};
ghost use Rattle.dft_netlist.specs.Building.{empty_netlist};
ghost use Rattle.dft_netlist.specs.Sound.{HasOnlyPorts};
ghost use Rattle.dft_netlist_text.specs.NetlistText.{add_nets};

use crate::children::{Children, all_children, module_numbers};
use crate::descent::descend;
use crate::error::HierError;
use crate::fitting::{all_ports, check_all};
use crate::flat_items::add_items;
use crate::flat_nets::{Hierarchy, add_nets_below};
use crate::reach::first_in_itself;
use crate::tops::top;
use crate::weights::{all_live_items, net_count, weights};
use dft_base::Name;
use dft_cells::Library;
use dft_modules::Module;
use dft_netlist::{Design, DesignBuilder, NetlistError, Port};
use dft_numbered::Numbered;
use std::alloc::{AllocError, Global};

// The modules in an order, each behind the modules below it. Refused with `H3` for the first module that stands below itself.
fn ordered(
    alloc: Global,
    modules: &[Module],
    children: &[Children],
) -> Result<Vec<usize>, HierError>
    requires names { HaveOwnNames modules.now }
    requires children { children.now ≡ children_of modules.now }
    ensures order { IfOk result (λ order. IsOrder children.now order.items) }
    ensures live { IfOk result (λ order. AreBelow (length children.now) order.items) }
    ensures apart { IfOk result (λ order. NoneInItself modules.now modules.now) }
    ensures refused { IfErr result (TellsFirst modules.now) }
{
    let walk = descend(alloc, children)?;
    if walk.circle {
        let first = first_in_itself(alloc, children, &walk.order)?;
        return Err(HierError::H3 {
            name: modules[first].name().copy(alloc)?,
        });
    }
    Ok(walk.order)
}

// The one top, whose hierarchy can be joined. Refused with `H4` or `H5`.
fn top_of(
    alloc: Global,
    modules: &[Module],
    ports: &[Numbered<'_>],
    children: &[Children],
) -> Result<usize, HierError>
    requires names { HaveOwnNames modules.now }
    requires known { first_unknown modules.now ≡ None }
    requires apart { NoneInItself modules.now modules.now }
    requires children { children.now ≡ children_of modules.now }
    requires ports { ArePortsFound modules.now ports.now }
    ensures ok { IfOk result (IsTopOf modules.now) }
    ensures refused { IfErr result (λ error. (library : List Cell) → CannotFlatten modules.now library error) }
{
    let number = top(alloc, children)?;
    check_all(alloc, modules, ports, children)?;
    Ok(number)
}

// Adds these ports.
fn add_ports(alloc: Global, builder: &mut DesignBuilder, ports: &[Port]) -> Result<(), NetlistError>
    requires { HasOnlyPorts builder.old }
    ensures { Grows (spec.add_ports ports.now builder.old) result builder.new }
{
    for port in ports {
        builder.port(port.name.copy(alloc)?, port.dir, port.range)?;
    }
    Ok(())
}

// Adds the nets of these names that have none yet.
fn add_other_nets(
    alloc: Global,
    builder: &mut DesignBuilder,
    names: &[Name],
) -> Result<(), NetlistError>
    ensures { Grows (add_nets (drop (length builder.old.nets) names.now) builder.old) result builder.new }
{
    let bits = builder.net_count() as usize;
    for number in bits..names.len() {
        builder.net(names[number].copy(alloc)?)?;
    }
    Ok(())
}

// Adds all that the top and the modules below it give.
fn add_all(
    alloc: Global,
    hierarchy: &Hierarchy<'_>,
    builder: &mut DesignBuilder,
    top: usize,
) -> Result<(), NetlistError>
    requires laid { IsLaid builder.old.library hierarchy.now }
    requires top { IsTopOf hierarchy.now.modules.now top }
    requires none { builder.old ≡ empty_netlist (name_at hierarchy.now.modules.now top) builder.old.library }
    ensures { Grows (flat_at hierarchy.now.modules.now builder.old.library top) result builder.new }
{
    let module = &hierarchy.modules[top];
    add_ports(alloc, builder, module.ports())?;
    add_other_nets(alloc, builder, module.nets())?;
    add_nets_below(alloc, hierarchy, builder, top)?;
    add_items(alloc, hierarchy, builder, top)
}

// The flat netlist of a top that has nothing yet, and room for so many nets and for an instance for each item of the top.
fn begun(
    alloc: Global,
    owner: &Module,
    nets: usize,
    library: Library,
) -> Result<DesignBuilder, AllocError>
    ensures { IfOk result (λ builder. builder ≡ empty_netlist owner.now.name library) }
{
    let name = owner.name().copy(alloc)?;
    let items = owner.items().len();
    let mut builder = DesignBuilder::new(alloc, name, library);
    builder.reserve(nets.saturating_add(items), items)?;
    Ok(builder)
}

// The flat netlist of a hierarchy, not finished yet.
fn built(
    alloc: Global,
    hierarchy: &Hierarchy<'_>,
    library: Library,
    top: usize,
) -> Result<DesignBuilder, NetlistError>
    requires laid { IsLaid library hierarchy.now }
    requires top { IsTopOf hierarchy.now.modules.now top }
    ensures { Builds (flat_at hierarchy.now.modules.now library top) result }
{
    let nets = net_count(hierarchy.weights, top);
    let mut builder = begun(alloc, &hierarchy.modules[top], nets, library)?;
    add_all(alloc, hierarchy, &mut builder, top)?;
    Ok(builder)
}

/// How a refusal of the flat netlist is told.
pub fn told(error: NetlistError) -> HierError
    ensures { result ≡ told_of error }
{
    match error {
        NetlistError::Memory(error) => HierError::Memory(error),
        error => HierError::Netlist(error),
    }
}

// The flat netlist of modules that can be joined, in an order in which each stands behind those below it, not finished yet.
fn built_in_order(
    alloc: Global,
    modules: &[Module],
    children: &[Children],
    order: &[usize],
    top: usize,
    library: Library,
) -> Result<DesignBuilder, HierError>
    requires sound { AreModules library modules.now }
    requires children { children.now ≡ children_of modules.now }
    requires order { IsOrder children.now order.now }
    requires live { AreBelow (length children.now) order.now }
    requires top { IsTopOf modules.now top }
    ensures flat { IfOk result (IsFlatNetlist modules.now library) }
    ensures refused { IfErr result (CannotFlatten modules.now library) }
{
    let weights = weights(alloc, modules, children, order)?;
    let items = all_live_items(alloc, modules, children, &weights)?;
    let hierarchy = Hierarchy {
        modules,
        items: &items,
        weights: &weights,
    };
    match built(alloc, &hierarchy, library, top) {
        Ok(builder) => Ok(builder),
        Err(error) => Err(told(error)),
    }
}

// The flat netlist of modules, not finished yet, or why there is none.
fn joined(alloc: Global, modules: &[Module], library: Library) -> Result<DesignBuilder, HierError>
    requires sound { AreModules library modules.now }
    requires names { HaveOwnNames modules.now }
    ensures flat { IfOk result (IsFlatNetlist modules.now library) }
    ensures refused { IfErr result (CannotFlatten modules.now library) }
{
    let numbers = module_numbers(alloc, modules)?;
    let children = all_children(alloc, modules, &numbers)?;
    let order = ordered(alloc, modules, &children)?;
    let ports = all_ports(alloc, modules)?;
    let top = top_of(alloc, modules, &ports, &children)?;
    built_in_order(alloc, modules, &children, &order, top, library)
}

// The flat netlist of modules, which are given back then.
fn joined_alone(
    alloc: Global,
    modules: Vec<Module>,
    library: Library,
) -> Result<DesignBuilder, HierError>
    requires sound { AreModules library modules.items }
    requires names { HaveOwnNames modules.items }
    ensures flat { IfOk result (IsFlatNetlist modules.items library) }
    ensures refused { IfErr result (CannotFlatten modules.items library) }
{
    joined(alloc, &modules, library)
}

// The design of a flat netlist.
fn finished(builder: DesignBuilder) -> Result<Design, HierError>
    ensures flat { IfOk result (λ design. (ms : List said.Module) → (library : List Cell) → IsFlatNetlist ms library builder → IsFlat ms library design) }
    ensures refused { IfErr result (λ error. (ms : List said.Module) → (library : List Cell) → IsFlatNetlist ms library builder → CannotFlatten ms library error) }
{
    match builder.finish() {
        Ok(design) => Ok(design),
        Err(error) => Err(told(error)),
    }
}

/// The flat design of the modules of a text over the cells that it was read with: the one module that no module has an
/// instance of is its top, and names below instances stand behind their paths, with `/` between. No two modules have the same
/// name. Refused with `H2`, `H3`, `H4`, `H5` in this order, each for the first in the order of the text, and then as the flat
/// netlist is. The modules are given back before the flat netlist is finished.
pub fn flatten(alloc: Global, modules: Vec<Module>, library: Library) -> Result<Design, HierError>
    requires sound { AreModules library modules.items }
    requires names { HaveOwnNames modules.items }
    ensures flat { IfOk result (λ design. IsFlat modules.items library design) }
    ensures refused { IfErr result (λ error. CannotFlatten modules.items library error) }
{
    match joined_alone(alloc, modules, library) {
        Ok(builder) => finished(builder),
        Err(error) => Err(error),
    }
}
