//! The nets of a port's bits, and their names.

ghost use Rattle.std.specs.Prelude.{◌≡◌, ◌+◌, ◌<◌, ◌≤◌, ◌++◌, IfOk, Some, length, map, option_map, slice_get, vec_len, vec_capacity};
ghost use Rattle.dft_netlist.specs.Names as spec;
ghost use Rattle.dft_base.specs.Name.{IsName};
ghost use Rattle.dft_netlist.specs.Names.{IsShortRange, indices_of, vector_name_in};
ghost use Rattle.dft_netlist.specs.NameTables.{AllDiffer};

use dft_base::{Name, Range};
use std::alloc::{AllocError, Global};

// The printed names of a port's bits, the leftmost first.
pub(crate) fn bit_names(
    alloc: Global,
    name: &Name,
    range: Option<Range>,
) -> Result<Vec<Name>, AllocError>
    ensures names { IfOk result (λ names. names.items ≡ spec.bit_names name.now range) }
    ensures differ { IfOk result (λ names. AllDiffer names.items) }
{
    match range {
        Some(range) => vector_names(alloc, name, range),
        None => {
            let mut names = Vec::new(alloc);
            names.push(name.copy(alloc)?)?;
            Ok(names)
        }
    }
}

// The printed names of a vector's bits, the leftmost first.
fn vector_names(alloc: Global, name: &Name, range: Range) -> Result<Vec<Name>, AllocError>
    ensures names { IfOk result (λ names. names.items ≡ map (spec.bit_name name.now) (indices_of range)) }
    ensures differ { IfOk result (λ names. AllDiffer names.items) }
{
    let mut names = Vec::new(alloc);
    let count = u32::from(range.left.abs_diff(range.right)) + 1;
    for place in 0..count {
        names.push(bit_name(alloc, name, index_at(range, place))?)?;
    }
    Ok(names)
}

/// The index at a place of a range, counted from its left end.
pub fn index_at(range: Range, place: u32) -> u16
    requires { place < length (indices_of range) }
    ensures { slice_get (indices_of range) place ≡ Some result }
{
    if range.left <= range.right {
        range.left + place as u16
    } else {
        range.left - place as u16
    }
}

// The printed name of a bit: the vector's name and the index in brackets.
fn bit_name(alloc: Global, name: &Name, index: u16) -> Result<Name, AllocError>
    ensures { IfOk result (λ bit. bit ≡ spec.bit_name name.now index) }
{
    let digits = format!(in alloc; "{index}")?;
    let mut bytes = Vec::from_slice(alloc, name.as_slice())?;
    bytes.push(b'[')?;
    bytes.extend_from_slice(digits.as_bytes())?;
    bytes.push(b']')?;
    Name::from_slice(alloc, &bytes)
}

// The own name of a vector; a scalar port has none besides its bit's. A port's name is a name, and its range of 16-bit
// numbers.
pub(crate) fn vector_key(
    alloc: Global,
    name: &Name,
    range: Option<Range>,
) -> Result<Option<Name>, AllocError>
    ensures key { IfOk result (λ key. key ≡ vector_name_in name.now range) }
    ensures name { IsName name.now }
    ensures short { IsShortRange range }
{
    name.soundness();
    match range {
        Some(_) => Ok(Some(name.copy(alloc)?)),
        None => Ok(None),
    }
}
