//! Names as they are written.

ghost use Rattle.std.specs.Prelude.{◌≡◌, ◌++◌, OnOk};
ghost use Rattle.dft_config_out.specs.Written as spec;

use std::alloc::AllocError;

// Whether a backslash stands before a byte.
fn is_escaped(byte: u8) -> bool
    ensures { result ≡ spec.is_escaped byte }
{
    byte == 34 || byte == 92
}

// Adds a byte of a name.
fn add_byte(out: &mut Vec<u8>, byte: u8) -> Result<(), AllocError>
    ensures { OnOk result (out.new.items ≡ out.old.items ++ spec.byte_text byte) }
{
    if is_escaped(byte) {
        out.push(92)?;
    }
    out.push(byte)?;
    Ok(())
}

// Adds the bytes of a name.
fn add_bytes(out: &mut Vec<u8>, bytes: &[u8]) -> Result<(), AllocError>
    ensures { OnOk result (out.new.items ≡ out.old.items ++ spec.bytes_text bytes.now) }
{
    for byte in bytes {
        add_byte(out, *byte)?;
    }
    Ok(())
}

// Adds a name in quotes.
pub(crate) fn add_name(out: &mut Vec<u8>, name: &[u8]) -> Result<(), AllocError>
    ensures { OnOk result (out.new.items ≡ out.old.items ++ spec.name_text name.now) }
{
    out.extend_from_slice(b"\"")?;
    add_bytes(out, name)?;
    out.extend_from_slice(b"\"")
}
