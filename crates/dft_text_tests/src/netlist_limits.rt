//! Netlist texts that are long, or cut off.

use crate::netlist_lines::line_of;
use dft_cells::Library;
use dft_netlist_reader::{DesignError, read};
use dft_verilog::{MAX_TEXT, ModulesError, VerilogError};
use std::alloc::{AllocError, Global};
use std::test::Fail;

static SMALL: &[u8] =
    b"module m (clk, a, y); input clk, a; output y; NAND2 g0 (.A(a), .B(q4), .Y(d0)); DFF f0 (.CK(clk), .D(d0), .Q(q0)); DFF f1 (.CK(clk), .D(q0), .Q(q1)); DFF f2 (.CK(clk), .D(q1), .Q(q2)); DFF f3 (.CK(clk), .D(q2), .Q(q3)); DFF f4 (.CK(clk), .D(q3), .Q(q4)); INV g1 (.A(q4), .Y(y)); endmodule";

// The column of the place that an error is told with.
fn column_of(error: &VerilogError) -> Option<u32> {
    match error {
        VerilogError::V1 { place }
        | VerilogError::V2 { place }
        | VerilogError::V3 { place, .. }
        | VerilogError::V5 { place, .. }
        | VerilogError::V6 { place }
        | VerilogError::V7 { place }
        | VerilogError::V9 { place }
        | VerilogError::V10 { place }
        | VerilogError::V11 { place, .. }
        | VerilogError::V12 { place, .. } => Some(place.column),
        VerilogError::Netlist(_) | VerilogError::Memory(_) => None,
    }
}

// Where a text is refused, if it is refused at a place.
fn refused_at(alloc: Global, text: &[u8]) -> Result<Option<u32>, AllocError> {
    if text.len() > MAX_TEXT {
        return Ok(None);
    }
    let library = Library::standard(alloc)?;
    match read(alloc, text, library).err() {
        Some(DesignError::Text(ModulesError::Module(error))) => Ok(column_of(&error)),
        _ => Ok(None),
    }
}

#[test]
fn a_text_is_read_whole_alone(rt: HostRuntime) -> Result<(), Fail> {
    let line = line_of(rt.alloc(), SMALL)?;
    assert_eq!(rt;
        line.as_str(),
        " clk a y q4 d0 q0 q1 q2 q3; g0 1 3 4; f0 0 4 5 -; f1 0 5 6 -; f2 0 6 7 -; f3 0 7 8 -; f4 0 8 3 -; g1 3 2"
    );
    for len in 0..SMALL.len() {
        let place = refused_at(rt.alloc(), &SMALL[..len])?;
        assert!(rt;
            matches!(place, Some(column) if column as usize <= len + 1),
            "{len} bytes"
        );
    }
    Ok(())
}

// So many braces that open and do not close.
fn braces(alloc: Global, count: u32) -> Result<Vec<u8>, AllocError> {
    let mut text = b"module m; assign n = ".to_vec(alloc)?;
    for _brace in 0..count {
        text.push(b'{')?;
    }
    Ok(text)
}

#[test]
fn a_million_braces_are_refused(rt: HostRuntime) -> Result<(), Fail> {
    let text = braces(rt.alloc(), 1_000_000)?;
    let line = line_of(rt.alloc(), &text)?;
    assert_eq!(rt; line.as_str(), "V9 1:1000022");
    Ok(())
}

// A port, and so many more.
fn ports(alloc: Global, count: u32) -> Result<String, AllocError> {
    let mut text = String::from_str(alloc, "module m (p")?;
    push_ports(alloc, &mut text, count)?;
    Ok(text)
}

fn push_ports(alloc: Global, text: &mut String, count: u32) -> Result<(), AllocError> {
    for port in 0..count {
        text.push_str(&format!(in alloc; ", p{port}")?)?;
    }
    text.push_str(");")
}

#[test]
fn a_port_too_many_is_refused(rt: HostRuntime) -> Result<(), Fail> {
    let text = ports(rt.alloc(), 32_768)?;
    let line = line_of(rt.alloc(), text.as_bytes())?;
    assert_eq!(rt; line.as_str(), "N4 ports 32768");
    Ok(())
}
