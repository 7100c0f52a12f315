//! How a text of several modules is told, for tests: its flat design, or that it is refused.

ghost use Rattle.std.specs.Prelude.{◌≤◌, length};

use dft_base::Name;
use dft_cells::Library;
use dft_netlist::{CellRef, Design, Instance, NetId, Signal};
use dft_netlist_reader::read;
use dft_verilog::MAX_TEXT;
use std::alloc::{AllocError, Global};

/// Writes a name.
pub fn push_name(line: &mut String, name: &Name) -> Result<(), AllocError> {
    for byte in name.as_slice() {
        line.push(char::from(*byte))?;
    }
    Ok(())
}

/// A net by its number, a constant behind a quote.
pub fn push_signal(alloc: Global, line: &mut String, signal: Signal) -> Result<(), AllocError> {
    match signal {
        Signal::Net(net) => {
            let number = net.0;
            line.push_str(&format!(in alloc; "{number}")?)
        }
        Signal::Constant(false) => line.push_str("'0"),
        Signal::Constant(true) => line.push_str("'1"),
        Signal::Unconnected => line.push('-'),
    }
}

/// An instance: its name or a star, the kind of a gate, and its pins.
pub fn push_instance(
    alloc: Global,
    line: &mut String,
    instance: &Instance,
) -> Result<(), AllocError> {
    line.push_str("; ")?;
    match &instance.name {
        Some(name) => push_name(line, name)?,
        None => line.push('*')?,
    }
    if let CellRef::Gate(kind, inputs) = instance.cell {
        line.push_str(&format!(in alloc; ":{kind:?}{inputs}")?)?;
    }
    for signal in instance.pins.as_slice() {
        line.push(' ')?;
        push_signal(alloc, line, *signal)?;
    }
    Ok(())
}

// The names of the nets, the joins and the instances.
fn design_of(alloc: Global, design: &Design) -> Result<String, AllocError> {
    let mut line = String::new(alloc);
    push_name(&mut line, design.module())?;
    line.push(':')?;
    for net in 0..design.net_count() {
        line.push(' ')?;
        push_name(&mut line, design.net_name(NetId(net)))?;
    }
    for join in design.joins() {
        let target = join.target.0;
        line.push_str(&format!(in alloc; "; {target}=")?)?;
        push_signal(alloc, &mut line, join.source)?;
    }
    for instance in design.instances() {
        push_instance(alloc, &mut line, instance)?;
    }
    Ok(line)
}

// The flat design of a text over the standard cells, if it has one.
fn outcome(alloc: Global, text: &str, library: Library) -> Result<String, AllocError>
    requires { length text.now ≤ MAX_TEXT }
{
    match read(alloc, text.as_bytes(), library) {
        Ok(design) => design_of(alloc, &design),
        Err(_) => String::from_str(alloc, "refused"),
    }
}

/// How a text is told.
pub fn told(alloc: Global, text: &str) -> Result<String, AllocError> {
    if text.len() > MAX_TEXT {
        return String::from_str(alloc, "long");
    }
    match Library::standard(alloc) {
        Ok(library) => outcome(alloc, text, library),
        Err(error) => Err(error),
    }
}
