//! Pieces of lines.

ghost use Rattle.std.specs.Prelude.{◌≡◌, IfOk, map, option_map, string_bytes};
ghost use Rattle.dft_explain.specs.Explained as spec;

use dft_base::Place;
use std::alloc::{AllocError, Global};

// A text up to this many bytes.
pub(crate) fn front(count: usize, text: &[u8]) -> &[u8]
    ensures { result.now ≡ spec.front count text.entry.now }
{
    if count < text.len() {
        &text[..count]
    } else {
        text
    }
}

// The first 200 bytes of a text.
pub(crate) fn cut(text: &[u8]) -> &[u8]
    ensures { result.now ≡ spec.cut text.entry.now }
{
    front(200, text)
}

// The dots behind a text that has more.
pub(crate) fn dots(text: &[u8]) -> &'static [u8]
    ensures { result.now ≡ spec.dots text.now }
{
    if 200 < text.len() {
        b"..".as_slice()
    } else {
        b"".as_slice()
    }
}

// A mark, where the text is there.
pub(crate) fn mark(mark: &'static str, text: Option<&[u8]>) -> &'static [u8]
    ensures { result.now ≡ spec.mark mark.entry.now (option_map (λ text. text.now) text.entry) }
{
    match text {
        Some(_) => mark.as_bytes(),
        None => b"".as_slice(),
    }
}

// A place, each number behind a colon.
pub(crate) fn place_text(alloc: Global, place: Option<Place>) -> Result<String, AllocError>
    ensures { IfOk result (λ text. string_bytes text ≡ spec.place_text place) }
{
    match place {
        Some(place) => format!(in alloc; ":{}:{}", place.line, place.column),
        None => Ok(String::new(alloc)),
    }
}

// A number behind its mark.
pub(crate) fn number_text(
    alloc: Global,
    mark: &str,
    number: Option<i64>,
) -> Result<String, AllocError>
    ensures { IfOk result (λ text. string_bytes text ≡ spec.number_text mark.now number) }
{
    match number {
        Some(number) => format!(in alloc; "{mark}{number}"),
        None => Ok(String::new(alloc)),
    }
}

// What stands before the first number.
pub(crate) fn first_mark(name: Option<&[u8]>) -> &'static str
    ensures { result.now ≡ spec.first_mark (option_map (λ name. name.now) name.entry) }
{
    match name {
        Some(_) => " ",
        None => ": ",
    }
}

// The file of an option stands whole, another up to 200 bytes.
pub(crate) fn file_text<'a>(option: Option<&[u8]>, file: &'a [u8]) -> &'a [u8]
    ensures { result.now ≡ spec.file_text (option_map (λ option. option.now) option.entry) file.entry.now }
{
    match option {
        Some(_) => file,
        None => cut(file),
    }
}

pub(crate) fn file_dots(option: Option<&[u8]>, file: &[u8]) -> &'static [u8]
    ensures { result.now ≡ spec.file_dots (option_map (λ option. option.now) option.entry) file.now }
{
    match option {
        Some(_) => b"".as_slice(),
        None => dots(file),
    }
}

// What stands behind an option, or in its place.
pub(crate) fn closing(option: Option<&[u8]>) -> &'static [u8]
    ensures { result.now ≡ spec.closing (option_map (λ option. option.now) option.entry) }
{
    match option {
        Some(_) => b"): ".as_slice(),
        None => b": ".as_slice(),
    }
}

// The bytes with a blank for each tab.
pub(crate) fn untabbed(alloc: Global, text: &[u8]) -> Result<Vec<u8>, AllocError>
    ensures { IfOk result (λ bytes. bytes.items ≡ map spec.untabbed text.now) }
{
    let mut bytes = Vec::new(alloc);
    for byte in text {
        bytes.push(if *byte == b'\t' { b' ' } else { *byte })?;
    }
    Ok(bytes)
}

// A blank for each byte.
pub(crate) fn blanks(alloc: Global, text: &[u8]) -> Result<Vec<u8>, AllocError>
    ensures { IfOk result (λ bytes. bytes.items ≡ map (λ b. 32) text.now) }
{
    let mut bytes = Vec::new(alloc);
    for byte in text {
        bytes.push(blank(*byte))?;
    }
    Ok(bytes)
}

// A blank, whatever the byte is.
fn blank(_byte: u8) -> u8
    ensures { result ≡ 32 }
{
    b' '
}
