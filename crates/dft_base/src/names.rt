ghost use Rattle.std.specs.Prelude.{◌≡◌, [], ◌∷◌, ◌++◌, IfOk, OnOk};
ghost use Rattle.dft_base.specs.Names as spec;

use crate::bytes::is_printed;
use crate::name::Name;
use std::alloc::{AllocError, Global};
use std::marker::Model;

/// Whether these bytes are a name: at least one, each of 33 to 126.
pub fn is_name(bytes: &[u8]) -> bool
    ensures { result ≡ spec.is_name bytes.now }
{
    !bytes.is_empty() && are_printed(bytes)
}

fn are_printed(bytes: &[u8]) -> bool
    ensures { result ≡ spec.all_printed bytes.now }
{
    for byte in bytes {
        if !is_printed(*byte) {
            return false;
        }
    }
    true
}

/// The name with these bytes, where they are one.
pub fn name_of(alloc: Global, bytes: &[u8]) -> Result<Option<Name>, AllocError>
    ensures { IfOk result (λ found. found ≡ spec.name_of bytes.now) }
{
    if is_name(bytes) {
        Ok(Some(Name::from_slice(alloc, bytes)?))
    } else {
        Ok(None)
    }
}

/// Names in order. A clause sees them as a list.
#[derive(Debug)]
pub struct Names {
    names: Vec<Name>,
}

// One call for all fields, so that the proof of what owns a value stays short.
impl Drop for Names {
    fn drop(self) {
        let Names { names: _ } = self;
    }
}

impl Model for Names {
    ghost use Rattle.std.specs.Prelude.{List, ℕ};

    ghost Value = { List (List ℕ) };

    ghost view = { λ n. n.names.items };
}

impl Names {
    /// No name yet.
    pub fn new(alloc: Global) -> Names
        ensures { result ≡ [] }
    {
        Names {
            names: Vec::new(alloc),
        }
    }

    /// Adds a name at the end.
    pub fn push(&mut self, name: Name) -> Result<(), AllocError>
        ensures { OnOk result (self.new ≡ self.old ++ name ∷ []) }
    {
        self.names.push(name)?;
        Ok(())
    }

    /// The names.
    pub fn as_slice(&self) -> &[Name]
        ensures { result.now ≡ self.now }
    {
        &self.names
    }
}

/// The bytes as a refusal shows them: `?` for each that is not printed, and for no byte at all.
pub fn printable(alloc: Global, bytes: &[u8]) -> Result<Name, AllocError>
    ensures { IfOk result (λ name. name ≡ spec.printable bytes.now) }
{
    if bytes.is_empty() {
        return Name::from_slice(alloc, b"?");
    }
    let mut shown_bytes = Vec::new(alloc);
    for byte in bytes {
        shown_bytes.push(shown(*byte))?;
    }
    Name::from_slice(alloc, &shown_bytes)
}

fn shown(byte: u8) -> u8
    ensures { result ≡ spec.shown byte }
{
    if is_printed(byte) { byte } else { b'?' }
}
