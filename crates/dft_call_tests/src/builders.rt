//! A netlist that is built piece by piece.

ghost use Rattle.std.specs.Prelude.{◌<◌, length};

use dft_base::{Dir, Name, Range};
use dft_cells::{Gate, Library};
use dft_netlist::{CellRef, Design, DesignBuilder, NetId, NetlistError, Signal};
use std::alloc::{AllocError, Global};
use std::test::Fail;

// An input of two bits.
fn add_input(alloc: Global, builder: DesignBuilder) -> Result<DesignBuilder, NetlistError> {
    let name = Name::from_slice(alloc, b"a")?;
    let mut builder = builder;
    if builder.net_count() == 0 && builder.ports().is_empty() {
        builder.port(name, Dir::Input, Some(Range { left: 1, right: 0 }))?;
    }
    Ok(builder)
}

// Two nets; the name of the second is taken where `twice`.
fn add_nets(alloc: Global, builder: &mut DesignBuilder, twice: bool) -> Result<(), NetlistError> {
    builder.net(Name::from_slice(alloc, b"y")?)?;
    builder.net(Name::from_slice(alloc, if twice { b"y" } else { b"z" })?)?;
    Ok(())
}

// An inverter between two nets.
fn add_inverter(
    builder: &mut DesignBuilder,
    input: NetId,
    output: NetId,
) -> Result<(), NetlistError>
    requires input { input.0 < length builder.old.nets }
    requires output { output.0 < length builder.old.nets }
{
    let pins = [Signal::Net(input), Signal::Net(output)];
    builder.instance(None, CellRef::Gate(Gate::Inv, 1), &pins)?;
    Ok(())
}

// The inverter and a join; both have one target where `twice`.
fn join_nets(builder: &mut DesignBuilder, twice: bool) -> Result<(), NetlistError>
    requires { 3 < length builder.old.nets }
{
    let target = NetId(if twice { 2 } else { 3 });
    builder.join(target, Signal::Net(NetId(1)))?;
    add_inverter(builder, NetId(0), NetId(2))
}

// What a netlist has twice.
#[derive(Clone, Copy)]
enum Twice {
    Nothing,
    Name,
    Driver,
}

fn built(alloc: Global, builder: DesignBuilder, twice: Twice) -> Result<Design, NetlistError> {
    let mut builder = add_input(alloc, builder)?;
    add_nets(alloc, &mut builder, matches!(twice, Twice::Name))?;
    if builder.net_count() > 3 {
        join_nets(&mut builder, matches!(twice, Twice::Driver))?;
    }
    builder.finish()
}

fn push_bytes(line: &mut String, name: &Name) -> Result<(), AllocError> {
    for byte in name.as_slice() {
        line.push(char::from(*byte))?;
    }
    line.push(' ')
}

fn counts_of(alloc: Global, design: &Design) -> Result<String, AllocError> {
    let mut line = String::new(alloc);
    for net in 0..design.net_count() {
        push_bytes(&mut line, design.net_name(NetId(net)))?;
    }
    let ports = design.ports().len();
    let instances = design.instances().len();
    let joins = design.joins().len();
    line.push_str(&format!(in alloc; "{ports} {instances} {joins}")?)?;
    Ok(line)
}

// A code, and the name that it is told with.
fn named(alloc: Global, code: &str, name: &Name) -> Result<String, AllocError> {
    let mut line = String::new(alloc);
    push_bytes(&mut line, name)?;
    line.push_str(code)?;
    Ok(line)
}

fn refusal_of(alloc: Global, error: NetlistError) -> Result<String, AllocError> {
    match error {
        NetlistError::MultipleDrivers { net } => named(alloc, "N1", &net),
        NetlistError::Loop { net } => named(alloc, "N2", &net),
        NetlistError::DuplicateName { name } => named(alloc, "N3", &name),
        NetlistError::TooMany { what, limit } => format!(in alloc; "{what:?} {limit}"),
        NetlistError::Memory(error) => Err(error),
    }
}

fn line_of(alloc: Global, twice: Twice) -> Result<String, AllocError> {
    let name = Name::from_slice(alloc, b"m")?;
    let library = Library::standard(alloc)?;
    match built(alloc, DesignBuilder::new(alloc, name, library), twice) {
        Ok(design) => counts_of(alloc, &design),
        Err(error) => refusal_of(alloc, error),
    }
}

// What is there twice; the names of the nets, how many ports, instances and joins there are, or the refusal.
static BUILT: [(Twice, &str); 3] = [
    (Twice::Nothing, "a[1] a[0] y z 1 1 1"),
    (Twice::Name, "y N3"),
    (Twice::Driver, "y N1"),
];

#[test]
fn netlists_are_built(rt: HostRuntime) -> Result<(), Fail> {
    for (twice, line) in &BUILT {
        assert_eq!(rt; line_of(rt.alloc(), *twice)?.as_str(), *line);
    }
    Ok(())
}
