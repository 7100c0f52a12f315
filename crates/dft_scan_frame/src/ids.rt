//! Ids of ports.

ghost use Rattle.std.specs.Prelude.{◌≡◌, ◌+◌, ◌≤◌, IfOk, map};
ghost use Rattle.std.specs.List.{range_with_len};
ghost use Rattle.dft_netlist.specs.declared.limits.TheConstants.{MAX_PORTS};

use dft_netlist::PortId;
use std::alloc::{AllocError, Global};

/// So many ids from a number on.
pub fn port_ids(alloc: Global, first: usize, count: usize) -> Result<Vec<PortId>, AllocError>
    requires { first + count ≤ MAX_PORTS }
    ensures { IfOk result (λ ids. ids.items ≡ map (λ number. record { 0 = number }) (range_with_len first count)) }
{
    let mut ids = Vec::with_capacity(alloc, count)?;
    for number in 0..count {
        ids.push(PortId((first + number) as u16))?;
    }
    Ok(ids)
}
