//! The netlist of what a module said (IEEE 1364, structural part): its ports in header order, the other nets, the
//! joins, the instances.

ghost use Rattle.std.specs.Prelude.{◌≡◌, [], ◌∷◌, length, unwrap_or, IfOk, OnOk, IfErr};
ghost use Rattle.dft_netlist.specs.Building.{empty_netlist};
ghost use Rattle.dft_netlist_text.specs.NetlistText as spec;
ghost use Rattle.dft_netlist.specs.Sound.{HasOnlyPorts};
ghost use Rattle.dft_verilog_draft.specs.Drafts.{InstanceFits, JoinFits, nets_alone};
ghost use Rattle.dft_verilog.specs.FinalNets.{name_unless, without_number, all_numbered, AreFinal};
ghost use Rattle.dft_verilog.specs.Built.{IsGrown, Grows, Builds, HasNetsOf, IsBuilt, CannotBuild};

use crate::final_nets::{final_net, final_pins, final_signal, port_numbers};
use dft_base::Name;
use dft_cells::Library;
use dft_netlist::{Design, DesignBuilder, Instance, Join, NetId, NetlistError};
use dft_verilog_draft::{DraftInstance, HeaderPort, ModuleDraft};
use dft_verilog_tokens::Word;
use std::alloc::{AllocError, Global};

// Adds a port of the header, if it was declared.
fn add_port(
    alloc: Global,
    builder: &mut DesignBuilder,
    port: &HeaderPort,
) -> Result<(), NetlistError>
    requires { HasOnlyPorts builder.old }
    ensures grown { Grows (spec.add_declared builder.old port.now.name port.now.declared) result builder.new }
    ensures only_ports { HasOnlyPorts builder.new }
{
    match port.declared() {
        Some(declared) => {
            let name = port.name().copy(alloc)?;
            builder.port(name, declared.dir, declared.shape.range)?;
            Ok(())
        }
        None => Ok(()),
    }
}

// Adds the ports of the header that were declared.
fn add_ports(
    alloc: Global,
    builder: &mut DesignBuilder,
    ports: &[HeaderPort],
) -> Result<(), NetlistError>
    requires { HasOnlyPorts builder.old }
    ensures { Grows (spec.add_ports ports.now builder.old) result builder.new }
{
    for port in ports {
        add_port(alloc, builder, port)?;
    }
    Ok(())
}

// The number of a net, which is added where it has none.
fn number_or_add(
    alloc: Global,
    builder: &mut DesignBuilder,
    name: &Word<'_>,
    number: Option<NetId>,
) -> Result<NetId, NetlistError>
    requires { IsGrown (spec.add_nets (name_unless number name.now) builder.old) }
    ensures grown { Grows (spec.add_nets (name_unless number name.now) builder.old) result builder.new }
    ensures number { IfOk result (λ net. net ≡ unwrap_or number (record { 0 = length builder.old.nets })) }
{
    match number {
        Some(net) => Ok(net),
        None => Ok(builder.add_net(Name::from_slice(alloc, name.as_slice())?)?),
    }
}

// Adds the nets that have no number yet, and gives the numbers of all.
fn add_others(
    alloc: Global,
    builder: &mut DesignBuilder,
    names: &[Word<'_>],
    numbers: &[Option<NetId>],
) -> Result<Vec<NetId>, NetlistError>
    requires count { length names.now ≡ length numbers.now }
    requires grown { IsGrown (spec.add_nets (without_number names.now numbers.now) builder.old) }
    ensures grown { Grows (spec.add_nets (without_number names.now numbers.now) builder.old) result builder.new }
    ensures finals { IfOk result (λ finals. finals.items ≡ all_numbered (length builder.old.nets) numbers.now) }
{
    let mut finals = Vec::with_capacity(alloc, numbers.len())?;
    for (net, number) in numbers.iter().enumerate() {
        let number = number_or_add(alloc, builder, &names[net], *number)?;
        finals.push(number).map_err(AllocError::from)?;
    }
    Ok(finals)
}

// Adds a draft's ports and its other nets, and gives the final numbers of its nets.
fn add_all_nets(
    alloc: Global,
    builder: &mut DesignBuilder,
    draft: &ModuleDraft<'_>,
) -> Result<Vec<NetId>, NetlistError>
    requires none { builder.old ≡ empty_netlist draft.now.name draft.now.library }
    requires grown { IsGrown (spec.and_grown (spec.add_ports draft.now.ports builder.old) (spec.add_nets (spec.names_of_others draft.now))) }
    ensures grown { Grows (spec.and_grown (spec.add_ports draft.now.ports builder.old) (spec.add_nets (spec.names_of_others draft.now))) result builder.new }
    ensures finals { IfOk result (λ finals. AreFinal draft.now finals.items) }
    ensures nets { OnOk result (HasNetsOf draft.now builder.new) }
{
    let numbers = port_numbers(alloc, draft.ports(), draft.net_count())?;
    add_ports(alloc, builder, draft.ports())?;
    add_others(alloc, builder, draft.nets(), &numbers)
}

// Adds a join of a draft.
fn add_join(
    builder: &mut DesignBuilder,
    draft: &ModuleDraft<'_>,
    finals: &[NetId],
    join: Join,
) -> Result<(), AllocError>
    requires nets { HasNetsOf draft.now builder.old }
    requires finals { AreFinal draft.now finals.now }
    requires fits { JoinFits (nets_alone draft.now) join }
    ensures { OnOk result (builder.new ≡ spec.add_joins (spec.net_order draft.now) (join ∷ []) builder.old) }
{
    let target = final_net(finals, join.target);
    let source = final_signal(finals, join.source);
    builder.join(target, source)
}

// Adds the joins of a draft.
fn add_joins(
    builder: &mut DesignBuilder,
    draft: &ModuleDraft<'_>,
    finals: &[NetId],
) -> Result<(), AllocError>
    requires nets { HasNetsOf draft.now builder.old }
    requires finals { AreFinal draft.now finals.now }
    ensures { OnOk result (builder.new ≡ spec.add_joins (spec.net_order draft.now) draft.now.joins builder.old) }
{
    for join in draft.joins() {
        add_join(builder, draft, finals, *join)?;
    }
    Ok(())
}

// Adds an instance of a draft.
fn add_instance(
    alloc: Global,
    builder: &mut DesignBuilder,
    draft: &ModuleDraft<'_>,
    finals: &[NetId],
    instance: &DraftInstance<'_>,
) -> Result<(), NetlistError>
    requires nets { HasNetsOf draft.now builder.old }
    requires finals { AreFinal draft.now finals.now }
    requires fits { InstanceFits (nets_alone draft.now) instance.now }
    requires grown { IsGrown (spec.add_instance (spec.net_order draft.now) builder.old instance.now) }
    ensures grown { Grows (spec.add_instance (spec.net_order draft.now) builder.old instance.now) result builder.new }
    ensures nets { HasNetsOf draft.now builder.new }
{
    let name = instance.name(alloc)?;
    let cell = instance.cell();
    let pins = final_pins(alloc, finals, instance.pins())?;
    builder.add_instance(Instance { name, cell, pins })?;
    Ok(())
}

// Adds the instances of a draft.
fn add_instances(
    alloc: Global,
    builder: &mut DesignBuilder,
    draft: &ModuleDraft<'_>,
    finals: &[NetId],
) -> Result<(), NetlistError>
    requires nets { HasNetsOf draft.now builder.old }
    requires finals { AreFinal draft.now finals.now }
    requires grown { IsGrown (spec.add_instances (spec.net_order draft.now) draft.now.instances builder.old) }
    ensures { Grows (spec.add_instances (spec.net_order draft.now) draft.now.instances builder.old) result builder.new }
{
    for instance in draft.instances() {
        add_instance(alloc, builder, draft, finals, instance)?;
    }
    Ok(())
}

// Adds all that a draft has to a netlist that has nothing yet.
fn add_all(
    alloc: Global,
    builder: &mut DesignBuilder,
    draft: &ModuleDraft<'_>,
) -> Result<(), NetlistError>
    requires none { builder.old ≡ empty_netlist draft.now.name draft.now.library }
    requires grown { IsGrown (spec.built draft.now) }
    ensures { Grows (spec.built draft.now) result builder.new }
{
    let finals = add_all_nets(alloc, builder, draft)?;
    add_joins(builder, draft, &finals)?;
    add_instances(alloc, builder, draft, &finals)
}

// A netlist over a draft's cells that has nothing yet, and room for what the draft has.
fn begun(
    alloc: Global,
    library: Library,
    draft: &ModuleDraft<'_>,
) -> Result<DesignBuilder, AllocError>
    requires { library ≡ draft.now.library }
    ensures { IfOk result (λ builder. builder ≡ empty_netlist draft.now.name draft.now.library) }
{
    let instances = draft.instance_count();
    let name = draft.name().copy(alloc)?;
    let mut builder = DesignBuilder::new(alloc, name, library);
    builder.reserve(draft.net_count() + instances, instances)?;
    Ok(builder)
}

// The netlist of a draft, not finished yet. The names that are taken are let go first.
fn built(
    alloc: Global,
    library: Library,
    draft: ModuleDraft<'_>,
) -> Result<DesignBuilder, NetlistError>
    requires library { library ≡ draft.library }
    requires grown { IsGrown (spec.built draft) }
    ensures { Builds (spec.built draft.entry) result }
{
    let draft = draft.without_names();
    let mut builder = begun(alloc, library, &draft)?;
    add_all(alloc, &mut builder, &draft)?;
    Ok(builder)
}

/// The design of what a module said, of which no part is refused, over its cells, which are given once more. Refused with
/// `MultipleDrivers` for the first net with two drivers, and else with `Loop` where the nets have no order.
pub fn finished(
    alloc: Global,
    library: Library,
    draft: ModuleDraft<'_>,
) -> Result<Design, NetlistError>
    requires library { library ≡ draft.library }
    requires grown { IsGrown (spec.built draft) }
    ensures ok { IfOk result (λ design. IsBuilt draft.entry design) }
    ensures refused { IfErr result (λ why. CannotBuild draft.entry why) }
{
    built(alloc, library, draft)?.finish()
}
