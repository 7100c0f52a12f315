use dft_base::Name;
use dft_cells::Library;
use dft_library_text::LibraryError;
use std::alloc::{AllocError, Global};
use std::test::Fail;

static STANDARD: &str = "\
[cells]
AND2 = { kind = 'and', inputs = ['A', 'B'], output = 'Y' }
AND3 = { kind = 'and', inputs = ['A', 'B', 'C'], output = 'Y' }
AND4 = { kind = 'and', inputs = ['A', 'B', 'C', 'D'], output = 'Y' }
BUF = { kind = 'buf', inputs = ['A'], output = 'Y' }
CKGATE = { kind = 'opaque', inputs = ['CK', 'EN'], outputs = ['GCK'] }
DFF = { kind = 'dff', clock = 'CK', din = 'D', output = 'Q', inverted = 'QN', scan = 'SDFF' }
DFFR = { kind = 'dffr', clock = 'CK', din = 'D', reset = 'RN', output = 'Q', inverted = 'QN', scan = 'SDFFR' }
DFFS = { kind = 'dffs', clock = 'CK', din = 'D', set = 'SN', output = 'Q', inverted = 'QN', scan = 'SDFFS' }
INV = { kind = 'inv', inputs = ['A'], output = 'Y' }
LATCH = { kind = 'opaque', inputs = ['G', 'D'], outputs = ['Q'] }
LOCKUP = { kind = 'lockup', clock = 'CK', din = 'D', output = 'Q' }
MUX2 = { kind = 'mux2', inputs = ['A', 'B', 'S'], output = 'Y' }
NAND2 = { kind = 'nand', inputs = ['A', 'B'], output = 'Y' }
NAND3 = { kind = 'nand', inputs = ['A', 'B', 'C'], output = 'Y' }
NAND4 = { kind = 'nand', inputs = ['A', 'B', 'C', 'D'], output = 'Y' }
NOR2 = { kind = 'nor', inputs = ['A', 'B'], output = 'Y' }
NOR3 = { kind = 'nor', inputs = ['A', 'B', 'C'], output = 'Y' }
NOR4 = { kind = 'nor', inputs = ['A', 'B', 'C', 'D'], output = 'Y' }
OR2 = { kind = 'or', inputs = ['A', 'B'], output = 'Y' }
OR3 = { kind = 'or', inputs = ['A', 'B', 'C'], output = 'Y' }
OR4 = { kind = 'or', inputs = ['A', 'B', 'C', 'D'], output = 'Y' }
SDFF = { kind = 'sdff', clock = 'CK', din = 'D', scan_in = 'SI', scan_enable = 'SE', output = 'Q', inverted = 'QN' }
SDFFR = { kind = 'sdffr', clock = 'CK', din = 'D', reset = 'RN', scan_in = 'SI', scan_enable = 'SE', output = 'Q', inverted = 'QN' }
SDFFS = { kind = 'sdffs', clock = 'CK', din = 'D', set = 'SN', scan_in = 'SI', scan_enable = 'SE', output = 'Q', inverted = 'QN' }
TIE0 = { kind = 'tie0', output = 'Y' }
TIE1 = { kind = 'tie1', output = 'Y' }
XNOR2 = { kind = 'xnor', inputs = ['A', 'B'], output = 'Y' }
XOR2 = { kind = 'xor', inputs = ['A', 'B'], output = 'Y' }
";

// The library of a text, as Rust shows it.
fn library_of(alloc: Global, text: &str) -> Result<String, AllocError> {
    if text.len() > 67_108_864 {
        return String::from_str(alloc, "too long");
    }
    match dft_library_text::read(alloc, text.as_bytes()) {
        Ok(library) => format!(in alloc; "{library:?}"),
        Err(_) => String::from_str(alloc, "refused"),
    }
}

fn standard(alloc: Global) -> Result<String, AllocError> {
    let library = Library::standard(alloc)?;
    format!(in alloc; "{library:?}")
}

#[test]
fn the_standard_cells_are_read(rt: HostRuntime) -> Result<(), Fail> {
    let made = standard(rt.alloc())?;
    let read = library_of(rt.alloc(), STANDARD)?;
    assert_eq!(rt; read.as_str(), made.as_str());
    Ok(())
}

// The cells that each library needs, as the standard library has them.
static NEEDED: &str =
    "[cells.DFF]\nkind = 'dff'\nclock = 'CK'\ndin = 'D'\noutput = 'Q'\n[cells.LOCKUP]\nkind = 'lockup'\nclock = 'CK'\ndin = 'D'\noutput = 'Q'\n";

// What a text reads as: `read`, a refusal for a name, or another one.
fn line_of(alloc: Global, text: &str) -> Result<String, AllocError> {
    if text.len() > 67_108_864 {
        return String::from_str(alloc, "too long");
    }
    match dft_library_text::read(alloc, text.as_bytes()).err() {
        None => String::from_str(alloc, "read"),
        Some(error) => refused(alloc, &error),
    }
}

fn refused(alloc: Global, error: &LibraryError) -> Result<String, AllocError> {
    match error {
        LibraryError::L7 { name } => shown(alloc, "L7", name),
        _ => String::from_str(alloc, "another"),
    }
}

fn shown(alloc: Global, code: &str, name: &Name) -> Result<String, AllocError> {
    let mut line = String::from_str(alloc, code)?;
    line.push(' ')?;
    for byte in name.as_slice() {
        line.push(char::from(*byte))?;
    }
    Ok(line)
}

// Writes a cell of a name that ends so.
fn push_cell(alloc: Global, text: &mut String, number: usize) -> Result<(), AllocError> {
    let cell = format!(in alloc; "[cells.t{number}]\nkind = 'tie0'\noutput = 'Y'\n")?;
    text.push_str(cell.as_str())
}

// A library of so many cells beside the needed ones.
fn with_cells(alloc: Global, cells: usize) -> Result<String, AllocError> {
    let mut text = String::new(alloc);
    for number in 0..cells {
        push_cell(alloc, &mut text, number)?;
    }
    text.push_str(NEEDED)?;
    Ok(text)
}

// What a library of so many cells beside the needed ones reads as.
fn line_of_cells(alloc: Global, cells: usize) -> Result<String, AllocError> {
    let text = with_cells(alloc, cells)?;
    line_of(alloc, text.as_str())
}

// Cells beside the two needed ones, of which a library has at most 4,096, and what comes of it.
static CELLS: [(usize, &str); 2] = [(4_094, "read"), (4_095, "L7 cells")];

#[test]
fn a_library_has_no_more_cells_than_its_limit(rt: HostRuntime) -> Result<(), Fail> {
    for (cells, line) in &CELLS {
        assert_eq!(rt; line_of_cells(rt.alloc(), *cells)?.as_str(), *line);
    }
    Ok(())
}
