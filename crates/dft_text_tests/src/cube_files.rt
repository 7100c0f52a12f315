//! Cube files: what each stands for, and how many cubes one has at most.

use dft_base::Name;
use dft_cells::Library;
use dft_config::{Config, FillRule};
use dft_cubes::{Cube, CubeError, read};
use dft_netlist::Design;
use dft_netlist_reader::read as read_netlist;
use dft_test_configs::{Shape, config_of};
use std::alloc::{AllocError, Global};
use std::test::Fail;

// Nets: clk 0, rst 1, a 2, v[1] 3, v[0] 4, y 5. Instances: f0 0, f1 1, f2 2, g 3.
static NETLIST: &[u8] =
    b"module m (clk, rst, a, v, y); input clk, rst, a; input [1:0] v; output y; DFF f0 (.CK(clk), .D(a), .Q(q0)); DFF f1 (.CK(clk), .D(q0), .Q(q1)); DFFR f2 (.CK(clk), .D(q1), .RN(rst), .Q(y)); INV g (.A(q1), .Y(n)); endmodule";

static CONFIG: Shape = Shape {
    domains: &["clk"],
    resets: &["rst"],
    chains: 1,
    warm: 0,
    window: 1,
    fill: FillRule::Zeros,
    stages: 2,
    channels: 1,
    taps: &[],
    injectors: &[],
    phase: &[&[0]],
    groups: &[&[0]],
    mask_inputs: 1,
};

static CASES: [(&str, &str); 9] = [
    // a text, and its cubes with cells and ports by number
    ("", ""),
    ("cube k clk\nend\n", " k"),
    (
        "cube k clk\ncell f2 1\nport a 0\ncell f0 0\nport v[0] 1\nend\n",
        " k c2=1 c0=0 p2=0 p4=1",
    ),
    (
        "cube k clk\ncell f0 1\nport a 0\nend\ncube l clk\ncell f0 0\nport a 1\nend\n",
        " k c0=1 p2=0 l c0=0 p2=1",
    ),
    (
        "# é\n\n\t \r\ncube k clk # x\r\n\tcell\tf0 1\r\n  end  ",
        " k c0=1",
    ),
    ("cube k#1 clk\nend", " k#1"),
    ("version 1\n", ""),
    ("version 2", ""),
    (
        "# x\n\n version 2 # x\ncube k clk clk\ncell f0 1\nend\ncube l clk\nend\n",
        " k @0 c0=1 l",
    ),
];

fn push_name(line: &mut String, name: &Name) -> Result<(), AllocError> {
    line.push(' ')?;
    for byte in name.as_slice() {
        line.push(char::from(*byte))?;
    }
    Ok(())
}

// The cubes, each with its second clock, if there is one, its cells and ports.
fn cubes_of(alloc: Global, cubes: &[Cube]) -> Result<String, AllocError> {
    let mut line = String::new(alloc);
    for cube in cubes {
        push_name(&mut line, &cube.name)?;
        if let Some(second) = cube.domains.second {
            line.push_str(&format!(in alloc; " @{second}")?)?;
        }
        for (cell, bit) in cube.cells.as_slice() {
            let number = cell.0;
            let bit = u8::from(*bit);
            line.push_str(&format!(in alloc; " c{number}={bit}")?)?;
        }
        for (port, bit) in cube.ports.as_slice() {
            let number = port.0;
            let bit = u8::from(*bit);
            line.push_str(&format!(in alloc; " p{number}={bit}")?)?;
        }
    }
    Ok(line)
}

// That there is a cube too many, or that a file is refused for another cause.
fn refusal_of(alloc: Global, error: &CubeError) -> Result<String, AllocError> {
    match error {
        CubeError::Q9 { place } => {
            let number = place.line;
            let column = place.column;
            format!(in alloc; "Q9 {number}:{column}")
        }
        _ => String::from_str(alloc, "refused"),
    }
}

// What a cube file stands for.
fn line_of(
    alloc: Global,
    text: &[u8],
    design: &Design,
    config: &Config,
) -> Result<String, AllocError> {
    if text.len() > 67_108_864 {
        return String::from_str(alloc, "too long");
    }
    match read(alloc, text, design, config) {
        Ok(cubes) => cubes_of(alloc, &cubes),
        Err(error) => refusal_of(alloc, &error),
    }
}

// What a cube file for the small design stands for.
fn line_for(alloc: Global, text: &[u8]) -> Result<String, AllocError> {
    let library = Library::standard(alloc)?;
    match read_netlist(alloc, NETLIST, library) {
        Ok(design) => line_in(alloc, text, &design),
        Err(_) => String::from_str(alloc, "no netlist"),
    }
}

fn line_in(alloc: Global, text: &[u8], design: &Design) -> Result<String, AllocError> {
    let config = config_of(alloc, &CONFIG)?;
    line_of(alloc, text, design, &config)
}

#[test]
fn cube_files_are_read(rt: HostRuntime) -> Result<(), Fail> {
    for (text, wanted) in &CASES {
        let line = line_for(rt.alloc(), text.as_bytes())?;
        assert_eq!(rt; line.as_str(), *wanted, "{text}");
    }
    Ok(())
}

// So many empty cubes.
fn empty_cubes(alloc: Global, count: u32) -> Result<String, AllocError> {
    let mut text = String::new(alloc);
    for cube in 0..count {
        text.push_str(&format!(in alloc; "cube k{cube} clk\nend\n")?)?;
    }
    Ok(text)
}

// What so many empty cubes stand for.
fn line_of_empty(alloc: Global, count: u32) -> Result<String, AllocError> {
    let text = empty_cubes(alloc, count)?;
    line_for(alloc, text.as_bytes())
}

#[test]
fn as_many_cubes_as_may_be_are_read(rt: HostRuntime) -> Result<(), Fail> {
    let line = line_of_empty(rt.alloc(), 65_536)?;
    assert!(rt; line.len() == 447_642, "all are read");
    Ok(())
}

#[test]
fn a_cube_too_many_is_refused(rt: HostRuntime) -> Result<(), Fail> {
    let line = line_of_empty(rt.alloc(), 65_537)?;
    assert_eq!(rt; line.as_str(), "Q9 131073:1");
    Ok(())
}
