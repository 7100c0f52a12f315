//! What is told of a netlist and cubes, as one line.

ghost use Rattle.std.specs.Prelude.{◌≤◌, length};

use crate::groups;
use crate::texts::WIDE;
use dft_cells::Library;
use dft_config::Config;
use dft_cubes::{Cube, read as read_cubes};
use dft_netlist::Design;
use dft_netlist_reader::read as read_netlist;
use dft_stitch::Planned;
use dft_test_configs::config_of;
use dft_verilog::MAX_TEXT;
use std::alloc::{AllocError, Global};

// Longer texts of cubes are not read.
const LONGEST: usize = 4096;

// What the texts stand for, with the chains of the design.
#[derive(Clone, Copy)]
pub(crate) struct Job<'a> {
    pub(crate) planned: &'a Planned<'a>,
    pub(crate) cubes: &'a [Cube],
}

// Whether these cubes for a netlist, in eight chains, capture the same in groups and one by one.
pub(crate) fn line_for(alloc: Global, netlist: &str, cubes: &str) -> Result<String, AllocError> {
    if netlist.len() > MAX_TEXT || cubes.len() > LONGEST {
        return String::from_str(alloc, "too long");
    }
    let library = Library::standard(alloc)?;
    match read_netlist(alloc, netlist.as_bytes(), library) {
        Ok(design) => configured(alloc, &design, cubes),
        Err(_) => String::from_str(alloc, "no netlist"),
    }
}

fn configured(alloc: Global, design: &Design, cubes: &str) -> Result<String, AllocError>
    requires { length cubes.now ≤ 4096 }
{
    let config = config_of(alloc, &WIDE)?;
    with_cubes(alloc, design, &config, cubes)
}

fn with_cubes(
    alloc: Global,
    design: &Design,
    config: &Config,
    cubes: &str,
) -> Result<String, AllocError>
    requires { length cubes.now ≤ 4096 }
{
    match read_cubes(alloc, cubes.as_bytes(), design, config) {
        Ok(cubes) => with_chains(alloc, design, config, &cubes),
        Err(_) => String::from_str(alloc, "no cubes"),
    }
}

fn with_chains(
    alloc: Global,
    design: &Design,
    config: &Config,
    cubes: &[Cube],
) -> Result<String, AllocError> {
    match Planned::prepare(alloc, design, config) {
        Ok(planned) => groups::line(
            alloc,
            &Job {
                planned: &planned,
                cubes,
            },
        ),
        Err(_) => String::from_str(alloc, "not planned"),
    }
}
