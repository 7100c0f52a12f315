//! Names and numbers as they are written.

ghost use Rattle.std.specs.Prelude.{◌≡◌, ◌++◌, OnOk, decimal};
ghost use Rattle.dft_verilog_out.specs.Written as form;

use dft_base::{Name, needs_escape};
use itoa::Buffer;
use std::alloc::AllocError;

// Adds a name, behind a backslash where it needs one.
pub(crate) fn add_name(out: &mut Vec<u8>, name: &Name) -> Result<(), AllocError>
    ensures { OnOk result (out.new.items ≡ out.old.items ++ form.name_text name.now) }
{
    if !needs_escape(name.as_slice()) {
        return out.extend_from_slice(name.as_slice());
    }
    out.push(b'\\')?;
    out.extend_from_slice(name.as_slice())?;
    out.push(b' ')?;
    Ok(())
}

// Adds a number in decimal.
pub(crate) fn add_number(out: &mut Vec<u8>, number: u16) -> Result<(), AllocError>
    ensures { OnOk result (out.new.items ≡ out.old.items ++ decimal number) }
{
    let mut buffer = Buffer::new();
    out.extend_from_slice(buffer.format(number).as_bytes())
}
