ghost use Rattle.std.specs.Prelude.{◌≡◌, ◌++◌, ◌∷◌, [], OnOk, OnErr};

use dft_netlist::NetId;
use std::alloc::AllocError;

/// Adds a net at the end of a list.
pub fn push_net(nets: &mut Vec<NetId>, net: NetId) -> Result<(), AllocError>
    ensures ok { OnOk result (nets.new.items ≡ nets.old.items ++ net ∷ []) }
    ensures err { OnErr result (nets.new.items ≡ nets.old.items) }
{
    nets.push(net)?;
    Ok(())
}
