//! Text for a person.

ghost use Rattle.std.specs.Prelude.{◌≡◌, ◌++◌, true, [], ◌∷◌, OnOk, map};
ghost use Rattle.dft_explain.specs.Told as spec;
ghost use Rattle.dft_explain.specs.Told.{is_told, shown};
ghost use Rattle.dft_explain.specs.Explained.{told_line};

use dft_base::is_printed;
use std::alloc::{AllocError, Global};
use std::marker::Model;

/// Lines for a person. All their bytes are printed ones and blanks (32 to 126), whatever was put into them. A clause sees
/// their bytes.
#[derive(Debug, Drop)]
pub struct Page {
    bytes: Vec<u8>,
}

impl Model for Page {
    ghost use Rattle.std.specs.Prelude.{◌≡◌, ℕ, List, true};
    ghost use Rattle.dft_explain.specs.Told.{is_told};

    ghost Value = { List ℕ };

    ghost view = { λ p. p.bytes.items };

    ghost invariant = { λ p. is_told p.bytes.items ≡ true };
}

impl Page {
    // No line.
    pub(crate) fn new(alloc: Global) -> Page
        ensures { result ≡ [] }
    {
        Page {
            bytes: Vec::new(alloc),
        }
    }

    // Adds a text as it is shown.
    pub(crate) fn put(&mut self, text: &[u8]) -> Result<(), AllocError>
        ensures { OnOk result (self.new ≡ self.old ++ shown text.now) }
    {
        push_shown(&mut self.bytes, text)
    }

    // Adds a text as it is shown.
    pub(crate) fn put_text(&mut self, text: &str) -> Result<(), AllocError>
        ensures { OnOk result (self.new ≡ self.old ++ shown text.now) }
    {
        self.put(text.as_bytes())
    }

    // Adds a line of these pieces.
    pub(crate) fn put_line(&mut self, pieces: &[&[u8]]) -> Result<(), AllocError>
        ensures { OnOk result (self.new ≡ self.old ++ told_line (map (λ piece. piece.now) pieces.now)) }
    {
        for piece in pieces {
            self.put(piece)?;
        }
        self.end()
    }

    // Ends a line.
    pub(crate) fn end(&mut self) -> Result<(), AllocError>
        ensures { OnOk result (self.new ≡ self.old ++ 10 ∷ []) }
    {
        self.bytes.push(b'\n')?;
        Ok(())
    }

    /// The bytes: lines of printed bytes and blanks, each with its end.
    pub fn as_slice(&self) -> &[u8]
        ensures bytes { result.now ≡ self.now }
        ensures told { is_told self.now ≡ true }
    {
        &self.bytes
    }
}

// Adds the bytes of a text as they are shown.
fn push_shown(bytes: &mut Vec<u8>, text: &[u8]) -> Result<(), AllocError>
    ensures shown { OnOk result (bytes.new.items ≡ bytes.old.items ++ shown text.now) }
    ensures told { is_told bytes.old.items ≡ true → is_told bytes.new.items ≡ true }
{
    for byte in text {
        bytes.push(clear(*byte))?;
    }
    Ok(())
}

// A byte as it is shown.
fn clear(byte: u8) -> u8
    ensures { result ≡ spec.clear byte }
{
    if byte == b' ' || is_printed(byte) {
        byte
    } else {
        b'?'
    }
}
