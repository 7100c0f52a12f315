//! Texts that are kept up to a limit, and counted past it.

ghost use Rattle.std.specs.Prelude.{◌≡◌, ◌++◌, OnOk, if◌then◌else◌};
ghost use Rattle.dft_base.specs.Lexing.{Text};
ghost use Rattle.dft_seeking.specs.Gathers.{IsKept};

use std::alloc::AllocError;

// A text up to a limit, and how many bytes it has.
#[derive(Debug, Drop)]
pub(crate) struct Kept {
    pub text: Vec<u8>,
    pub bytes: u64,
}

// Adds bytes to a text, if they are to be added.
fn extend(text: &mut Vec<u8>, extends: bool, more: &[u8]) -> Result<(), AllocError>
    ensures { OnOk result (text.new.items ≡ (if extends then text.old.items ++ more.now else text.old.items)) }
{
    if extends {
        text.extend_from_slice(more)
    } else {
        Ok(())
    }
}

// Adds bytes to a text. Past its limit they are counted only. A text of 2^64 bytes or more is one that no memory holds.
pub(crate) fn add(kept: &mut Kept, limit: usize, more: &[u8]) -> Result<(), AllocError>
    ensures { OnOk result ((text : Text) → IsKept limit text kept.old → IsKept limit (text ++ more.now) kept.new) }
{
    let bytes = kept.bytes.checked_add(more.len() as u64).ok_or(AllocError)?;
    kept.bytes = bytes;
    extend(&mut kept.text, bytes <= limit as u64, more)
}
