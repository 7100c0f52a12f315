//! Names with a number behind them.

ghost use Rattle.std.specs.Prelude.{◌≡◌, IfOk};
ghost use Rattle.dft_base.specs.Name.{IsName};
ghost use Rattle.dft_parts.specs.MadeNames as spec;

use dft_base::Name;
use itoa::Buffer;
use std::alloc::{AllocError, Global};

/// The name with this number behind it, in decimal.
pub fn numbered(alloc: Global, name: &[u8], number: usize) -> Result<Name, AllocError>
    requires { IsName name.now }
    ensures { IfOk result (λ made. made ≡ spec.numbered name.now number) }
{
    let mut buffer = Buffer::new();
    let mut bytes = Vec::from_slice(alloc, name)?;
    bytes.extend_from_slice(buffer.format(number).as_bytes())?;
    Name::from_slice(alloc, &bytes)
}

/// The name of a made net.
pub fn made_net(alloc: Global, number: usize) -> Result<Name, AllocError>
    ensures { IfOk result (λ name. name ≡ spec.made_net number) }
{
    numbered(alloc, b"dft_n", number)
}

/// The name of a made instance.
pub fn made_instance(alloc: Global, number: usize) -> Result<Name, AllocError>
    ensures { IfOk result (λ name. name ≡ spec.made_instance number) }
{
    numbered(alloc, b"dft_i", number)
}
