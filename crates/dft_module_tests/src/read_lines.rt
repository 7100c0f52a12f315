//! How the modules of a text are told, for tests.

ghost use Rattle.std.specs.Prelude.{◌≤◌, length};

use crate::flat_lines::{push_instance, push_name, push_signal};
use dft_base::Dir;
use dft_cells::Library;
use dft_modules::{Connection, Item, Module, SubInstance};
use dft_netlist::{NetId, Port, Signal};
use dft_verilog::{MAX_TEXT, TextSaid, read_text};
use std::alloc::{AllocError, Global};

// Bits, each behind a mark.
fn push_bits(
    alloc: Global,
    line: &mut String,
    mark: char,
    bits: &[Signal],
) -> Result<(), AllocError> {
    for bit in bits {
        line.push(mark)?;
        push_signal(alloc, line, *bit)?;
    }
    Ok(())
}

// A port: its name, and the numbers of its bits.
fn push_port(alloc: Global, line: &mut String, port: &Port) -> Result<(), AllocError> {
    line.push(' ')?;
    push_name(line, &port.name)?;
    let mark = match port.dir {
        Dir::Input => '>',
        Dir::Output => '<',
    };
    for net in port.bits.as_slice() {
        let NetId(net) = *net;
        push_bits(alloc, line, mark, &[Signal::Net(NetId(net))])?;
    }
    Ok(())
}

// A connection: the place and the name of its port, and the bits.
fn push_connection(
    alloc: Global,
    line: &mut String,
    connection: &Connection,
) -> Result<(), AllocError> {
    let row = connection.place.line;
    let column = connection.place.column;
    line.push_str(&format!(in alloc; " {row}:{column} ")?)?;
    push_name(line, &connection.port)?;
    push_bits(alloc, line, '=', connection.signals.as_slice())
}

// An instance of a module.
fn push_sub(alloc: Global, line: &mut String, sub: &SubInstance) -> Result<(), AllocError> {
    line.push_str("; ")?;
    push_name(line, &sub.name)?;
    line.push('/')?;
    push_name(line, &sub.of)?;
    for connection in sub.connections.as_slice() {
        push_connection(alloc, line, connection)?;
    }
    Ok(())
}

fn push_item(alloc: Global, line: &mut String, item: &Item) -> Result<(), AllocError> {
    match item {
        Item::Join(join) => {
            line.push_str("; ")?;
            push_signal(alloc, line, Signal::Net(join.target))?;
            push_bits(alloc, line, '=', &[join.source])
        }
        Item::Cell(instance) => push_instance(alloc, line, instance),
        Item::Sub(sub) => push_sub(alloc, line, sub),
    }
}

// A module: its name and ports, the names of its nets, and its items.
fn push_module(alloc: Global, line: &mut String, module: &Module) -> Result<(), AllocError> {
    push_name(line, module.name())?;
    for port in module.ports() {
        push_port(alloc, line, port)?;
    }
    line.push(':')?;
    for net in module.nets() {
        line.push(' ')?;
        push_name(line, net)?;
    }
    for item in module.items() {
        push_item(alloc, line, item)?;
    }
    line.push('.')
}

// Modules, one behind the other.
fn modules_of(alloc: Global, modules: &[Module]) -> Result<String, AllocError> {
    let mut line = String::new(alloc);
    for module in modules {
        push_module(alloc, &mut line, module)?;
    }
    Ok(line)
}

fn outcome(alloc: Global, text: &[u8], library: &Library) -> Result<String, AllocError>
    requires { length text.now ≤ MAX_TEXT }
{
    match read_text(alloc, text, library).ok() {
        Some(TextSaid::Modules(modules)) => modules_of(alloc, &modules),
        _ => String::from_str(alloc, "refused, or one module alone"),
    }
}

/// How what is read of a text is told.
pub fn read_line(alloc: Global, text: &[u8]) -> Result<String, AllocError> {
    if text.len() > MAX_TEXT {
        return String::from_str(alloc, "long");
    }
    outcome(alloc, text, &Library::standard(alloc)?)
}
