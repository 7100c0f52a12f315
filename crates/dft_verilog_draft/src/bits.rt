//! The bits of vectors and their printed names.

ghost use Rattle.std.specs.Prelude.{◌≡◌, ◌<◌, Some, IfOk};
ghost use Rattle.dft_base.specs.Name.{IsName};
ghost use Rattle.dft_base.specs.Ranges as ranges;
ghost use Rattle.dft_netlist.specs.Names as names;
ghost use Rattle.dft_verilog_draft.specs.BitNames as bits;
ghost use Rattle.dft_verilog_draft.specs.Free.{AreBitsApart};

use dft_base::Range;
use dft_verilog_tokens::Word;
use itoa::Buffer;
use std::alloc::{AllocError, Global};

/// How many bits a range has.
pub fn width(range: Range) -> usize
    ensures { result ≡ ranges.width range }
{
    if range.right <= range.left {
        usize::from(range.left - range.right) + 1
    } else {
        usize::from(range.right - range.left) + 1
    }
}

// The index of the bit at this place from the left.
fn index_at(range: Range, place: usize) -> u16
    requires { place < ranges.width range }
    ensures { result ≡ bits.index_at range place }
{
    if range.left <= range.right {
        range.left + place as u16
    } else {
        range.left - place as u16
    }
}

// The printed name of a bit: the vector's name, and the bit's index in brackets.
fn bit_name<'a>(alloc: Global, word: &[u8], index: u16) -> Result<Word<'a>, AllocError>
    requires { IsName word.now }
    ensures { IfOk result (λ name. name ≡ names.bit_name word.now index) }
{
    let mut buffer = Buffer::new();
    let mut bytes = Vec::from_slice(alloc, word)?;
    bytes.push(b'[')?;
    bytes.extend_from_slice(buffer.format(index).as_bytes())?;
    bytes.push(b']')?;
    Ok(Word::made(bytes))
}

/// The printed names of the bits of a vector, leftmost first.
pub fn bit_names<'a>(alloc: Global, word: &[u8], range: Range) -> Result<Vec<Word<'a>>, AllocError>
    requires { IsName word.now }
    ensures names { IfOk result (λ list. list.items ≡ names.bit_names word.now (Some range)) }
    ensures apart { IfOk result (λ list. AreBitsApart word.now (Some range) list.items) }
{
    let mut list = Vec::new(alloc);
    for place in 0..width(range) {
        let name = bit_name(alloc, word, index_at(range, place))?;
        list.push(name)?;
    }
    Ok(list)
}
