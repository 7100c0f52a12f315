//! The heading and the declarations.

ghost use Rattle.std.specs.Prelude.{◌≡◌, ◌++◌, OnOk, flat_map, map};
ghost use Rattle.dft_netlist.specs.declared.port.Port.{Port as APort};
ghost use Rattle.dft_verilog_out.specs.Written as form;

use crate::names::{add_name, add_number};
use crate::nets::NetText;
use dft_base::{Name, Range};
use dft_netlist::{Dir, Port};
use std::alloc::AllocError;

// Adds the names of ports, with commas between them.
fn add_port_names(out: &mut Vec<u8>, ports: &[Port]) -> Result<(), AllocError>
    ensures { OnOk result (out.new.items ≡ out.old.items ++ form.list_text (map (λ (p : APort). form.name_text p.name) ports.now)) }
{
    let mut before: &[u8] = b"";
    for port in ports {
        out.extend_from_slice(before)?;
        add_name(out, &port.name)?;
        before = b", ";
    }
    Ok(())
}

// Adds the heading of the module.
#[tactic(auto, unfolding(crate::specs::Written::module_line))]
pub(crate) fn add_heading(out: &mut Vec<u8>, name: &Name, ports: &[Port]) -> Result<(), AllocError>
    ensures { OnOk result (out.new.items ≡ out.old.items ++ form.module_line name.now ports.now) }
{
    out.extend_from_slice(b"module ")?;
    add_name(out, name)?;
    out.extend_from_slice(b" (")?;
    add_port_names(out, ports)?;
    out.extend_from_slice(b");\n")
}

fn dir_text(dir: Dir) -> &'static [u8]
    ensures { result.now ≡ form.dir_text dir }
{
    match dir {
        Dir::Input => b"input ",
        Dir::Output => b"output ",
    }
}

// Adds a range, if there is one.
fn add_range(out: &mut Vec<u8>, range: Option<Range>) -> Result<(), AllocError>
    ensures { OnOk result (out.new.items ≡ out.old.items ++ form.range_text range) }
{
    let Some(range) = range else {
        return Ok(());
    };
    out.push(b'[')?;
    add_number(out, range.left)?;
    out.push(b':')?;
    add_number(out, range.right)?;
    out.extend_from_slice(b"] ")
}

// Adds the line of a port.
#[tactic(auto, unfolding(crate::specs::Written::port_line))]
fn add_port(out: &mut Vec<u8>, port: &Port) -> Result<(), AllocError>
    ensures { OnOk result (out.new.items ≡ out.old.items ++ form.port_line port.now) }
{
    out.extend_from_slice(dir_text(port.dir))?;
    add_range(out, port.range)?;
    add_name(out, &port.name)?;
    out.extend_from_slice(b";\n")
}

// Adds the lines of ports.
pub(crate) fn add_ports(out: &mut Vec<u8>, ports: &[Port]) -> Result<(), AllocError>
    ensures { OnOk result (out.new.items ≡ out.old.items ++ flat_map form.port_line ports.now) }
{
    for port in ports {
        add_port(out, port)?;
    }
    Ok(())
}

// Adds the lines of other nets.
#[tactic(auto, unfolding(crate::specs::Written::wire_line))]
pub(crate) fn add_wires(out: &mut Vec<u8>, nets: &[NetText]) -> Result<(), AllocError>
    ensures { OnOk result (out.new.items ≡ out.old.items ++ flat_map form.wire_line nets.now) }
{
    for net in nets {
        out.extend_from_slice(b"wire ")?;
        out.extend_from_slice(net.as_slice())?;
        out.extend_from_slice(b";\n")?;
    }
    Ok(())
}
