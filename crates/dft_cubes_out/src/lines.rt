//! The lines of a cube.

ghost use Rattle.std.specs.Prelude.{◌≡◌, ◌++◌, OnOk, flat_map};
ghost use Rattle.dft_cubes_out.specs.Written as form;

use dft_base::Name;
use dft_config::Config;
use dft_cubes::Cube;
use dft_netlist::{Design, InstanceId, NetId};
use std::alloc::AllocError;

// The name of a clock, and nothing where there is none.
fn clock_name(config: &Config, domain: u8) -> &[u8]
    ensures { result.now ≡ form.clock_name config.now domain }
{
    match config.domains().get(domain as usize) {
        Some(name) => name.as_slice(),
        None => b"".as_slice(),
    }
}

// The bytes of a name, and nothing where there is none.
fn bytes_of(name: &Option<Name>) -> &[u8]
    ensures { result.now ≡ form.name_of name.now }
{
    match name {
        Some(name) => name.as_slice(),
        None => b"".as_slice(),
    }
}

// The name of an instance, and nothing where it has none.
fn cell_name(design: &Design, cell: InstanceId) -> &[u8]
    ensures { result.now ≡ form.cell_name design.now cell.0 }
{
    match design.instances().get(cell.0 as usize) {
        Some(instance) => bytes_of(&instance.name),
        None => b"".as_slice(),
    }
}

// The name of a net, and nothing where there is none.
fn port_name(design: &Design, net: NetId) -> &[u8]
    ensures { result.now ≡ form.port_name design.now net.0 }
{
    if net.0 < design.net_count() {
        design.net_name(net).as_slice()
    } else {
        b"".as_slice()
    }
}

fn bit_text(bit: bool) -> &'static [u8]
    ensures { result.now ≡ form.bit_text bit }
{
    if bit { b" 1\n" } else { b" 0\n" }
}

// Adds the first line of a cube.
#[tactic(auto, unfolding(crate::specs::Written::begin_line))]
fn add_begin(out: &mut Vec<u8>, name: &[u8], clock: &[u8]) -> Result<(), AllocError>
    ensures { OnOk result (out.new.items ≡ out.old.items ++ form.begin_line name.now clock.now) }
{
    out.extend_from_slice(b"cube ")?;
    out.extend_from_slice(name)?;
    out.extend_from_slice(b" ")?;
    out.extend_from_slice(clock)?;
    out.extend_from_slice(b"\n")
}

// Adds the line of a cell.
#[tactic(auto, unfolding(crate::specs::Written::cell_line))]
fn add_cell(out: &mut Vec<u8>, design: &Design, given: (InstanceId, bool)) -> Result<(), AllocError>
    ensures { OnOk result (out.new.items ≡ out.old.items ++ form.cell_line design.now given) }
{
    out.extend_from_slice(b"cell ")?;
    out.extend_from_slice(cell_name(design, given.0))?;
    out.extend_from_slice(bit_text(given.1))
}

// Adds the lines of cells.
fn add_cells(
    out: &mut Vec<u8>,
    design: &Design,
    cells: &[(InstanceId, bool)],
) -> Result<(), AllocError>
    ensures { OnOk result (out.new.items ≡ out.old.items ++ flat_map (form.cell_line design.now) cells.now) }
{
    for given in cells {
        add_cell(out, design, *given)?;
    }
    Ok(())
}

// Adds the line of a port.
#[tactic(auto, unfolding(crate::specs::Written::port_line))]
fn add_port(out: &mut Vec<u8>, design: &Design, given: (NetId, bool)) -> Result<(), AllocError>
    ensures { OnOk result (out.new.items ≡ out.old.items ++ form.port_line design.now given) }
{
    out.extend_from_slice(b"port ")?;
    out.extend_from_slice(port_name(design, given.0))?;
    out.extend_from_slice(bit_text(given.1))
}

// Adds the lines of ports.
fn add_ports(out: &mut Vec<u8>, design: &Design, ports: &[(NetId, bool)]) -> Result<(), AllocError>
    ensures { OnOk result (out.new.items ≡ out.old.items ++ flat_map (form.port_line design.now) ports.now) }
{
    for given in ports {
        add_port(out, design, *given)?;
    }
    Ok(())
}

/// Adds the lines of a cube to a text: `cube` with its name and the clock of its first capture, its cells and its ports in order,
/// `end`. What has no name in the design or the configuration has an empty one.
#[tactic(auto, unfolding(crate::specs::Written::cube_text))]
pub fn add_cube(
    out: &mut Vec<u8>,
    design: &Design,
    config: &Config,
    cube: &Cube,
) -> Result<(), AllocError>
    ensures { OnOk result (out.new.items ≡ out.old.items ++ form.cube_text design.now config.now cube.now) }
{
    add_begin(
        out,
        cube.name.as_slice(),
        clock_name(config, cube.domains.first),
    )?;
    add_cells(out, design, cube.cells.as_slice())?;
    add_ports(out, design, cube.ports.as_slice())?;
    out.extend_from_slice(b"end\n")
}
