//! How a netlist text is told, for tests: the design that it stands for, or its refusal.

use dft_base::{Name, Place};
use dft_cells::Library;
use dft_netlist::{CellRef, Counted, Design, Instance, NetlistError, Signal};
use dft_netlist_reader::{DesignError, read};
use dft_verilog::{MAX_TEXT, ModulesError, VerilogError};
use std::alloc::{AllocError, Global};

fn push_name(line: &mut String, name: &Name) -> Result<(), AllocError> {
    for byte in name.as_slice() {
        line.push(char::from(*byte))?;
    }
    Ok(())
}

// A code, and its place.
fn placed(alloc: Global, code: &str, place: &Place) -> Result<String, AllocError> {
    let line = place.line;
    let column = place.column;
    format!(in alloc; "{code} {line}:{column}")
}

fn counted(what: &Counted) -> &'static str {
    match what {
        Counted::Ports => "ports",
        Counted::Nets => "nets",
        Counted::Instances => "instances",
    }
}

fn refusal_of(alloc: Global, error: &NetlistError) -> Result<String, AllocError> {
    match error {
        NetlistError::TooMany { what, limit } => {
            let what = counted(what);
            format!(in alloc; "N4 {what} {limit}")
        }
        _ => String::from_str(alloc, "refused"),
    }
}

// The end of a text, and what is too many; other refusals are shown by runs.
fn module_error_of(alloc: Global, error: &VerilogError) -> Result<String, AllocError> {
    match error {
        VerilogError::V9 { place } => placed(alloc, "V9", place),
        VerilogError::Netlist(error) => refusal_of(alloc, error),
        _ => String::from_str(alloc, "refused"),
    }
}

fn error_of(alloc: Global, error: &DesignError) -> Result<String, AllocError> {
    match error {
        DesignError::Text(ModulesError::Module(error)) => module_error_of(alloc, error),
        _ => String::from_str(alloc, "refused"),
    }
}

// A net by its number, a constant behind a quote.
fn push_signal(alloc: Global, line: &mut String, signal: Signal) -> Result<(), AllocError> {
    match signal {
        Signal::Net(net) => {
            let number = net.0;
            line.push_str(&format!(in alloc; "{number}")?)
        }
        Signal::Constant(false) => line.push_str("'0"),
        Signal::Constant(true) => line.push_str("'1"),
        Signal::Unconnected => line.push('-'),
    }
}

// An instance: its name or a star, the kind of a gate, and its pins.
fn push_instance(alloc: Global, line: &mut String, instance: &Instance) -> Result<(), AllocError> {
    line.push_str("; ")?;
    match &instance.name {
        Some(name) => push_name(line, name)?,
        None => line.push('*')?,
    }
    if let CellRef::Gate(kind, inputs) = instance.cell {
        line.push_str(&format!(in alloc; ":{kind:?}{inputs}")?)?;
    }
    for signal in instance.pins.as_slice() {
        line.push(' ')?;
        push_signal(alloc, line, *signal)?;
    }
    Ok(())
}

// The names of the nets, the joins and the instances.
fn design_of(alloc: Global, design: &Design) -> Result<String, AllocError> {
    let mut line = String::new(alloc);
    for net in 0..design.net_count() {
        line.push(' ')?;
        push_name(&mut line, design.net_name(dft_netlist::NetId(net)))?;
    }
    for join in design.joins() {
        let target = join.target.0;
        line.push_str(&format!(in alloc; "; {target}=")?)?;
        push_signal(alloc, &mut line, join.source)?;
    }
    for instance in design.instances() {
        push_instance(alloc, &mut line, instance)?;
    }
    Ok(line)
}

/// The line that tells of a text over the standard cells.
pub fn line_of(alloc: Global, text: &[u8]) -> Result<String, AllocError> {
    if text.len() > MAX_TEXT {
        return String::from_str(alloc, "too long");
    }
    match read(alloc, text, Library::standard(alloc)?) {
        Ok(design) => design_of(alloc, &design),
        Err(error) => error_of(alloc, &error),
    }
}
