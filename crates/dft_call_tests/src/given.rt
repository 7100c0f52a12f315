//! Designs of texts, and a word for a value.

use dft_base::Tri;
use dft_cells::Library;
use dft_netlist::Design;
use dft_netlist_reader::read;
use dft_verilog::MAX_TEXT;
use std::alloc::{AllocError, Global};

// The design of a text over the standard cells.
pub(crate) fn design_of(alloc: Global, text: &str) -> Result<Option<Design>, AllocError> {
    if text.len() > MAX_TEXT {
        return Ok(None);
    }
    let library = Library::standard(alloc)?;
    Ok(read(alloc, text.as_bytes(), library).ok())
}

// A value, as 0, 1 or x.
pub(crate) fn letter(value: Tri) -> char {
    match value {
        Tri::Zero => '0',
        Tri::One => '1',
        Tri::Unknown => 'x',
    }
}
