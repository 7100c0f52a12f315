ghost use Rattle.std.specs.Prelude.{◌≡◌, ◌+◌, ◌<◌, ◌^◌, ◌++◌, ◌∷◌, [], IfOk, OnOk, OnErr};
ghost use Rattle.dft_netlist.specs.NetNumbers.{nets_from};

use crate::ids::NetId;
use dft_base::{Dir, Name, Range};
use std::alloc::{AllocError, Global};
use std::marker::Model;

/// Nets in order. A clause sees them as a list.
#[derive(Debug)]
pub struct NetIds {
    nets: Vec<NetId>,
}

// One call for all fields, so that the proof of what owns a value stays short.
impl Drop for NetIds {
    fn drop(self) {
        let NetIds { nets: _ } = self;
    }
}

impl Model for NetIds {
    ghost use Rattle.std.specs.Prelude.{List};
    ghost use Rattle.dft_netlist.specs.declared.ids.NetId.{NetId};

    ghost Value = { List NetId };

    ghost view = { λ n. n.nets.items };
}

impl NetIds {
    /// No net yet.
    pub fn new(alloc: Global) -> NetIds
        ensures { result ≡ [] }
    {
        NetIds {
            nets: Vec::new(alloc),
        }
    }

    // So many nets, with numbers from this one on.
    pub(crate) fn counted(alloc: Global, first: u32, count: u32) -> Result<NetIds, AllocError>
        requires { first + count < 2 ^ 32 }
        ensures { IfOk result (λ nets. nets ≡ nets_from first count) }
    {
        let mut nets = Vec::with_capacity(alloc, count as usize)?;
        for place in 0..count {
            nets.push(NetId(first + place))?;
        }
        Ok(NetIds { nets })
    }

    /// Adds a net at the end.
    pub fn push(&mut self, net: NetId) -> Result<(), AllocError>
        ensures ok { OnOk result (self.new ≡ self.old ++ net ∷ []) }
        ensures err { OnErr result (self.new ≡ self.old) }
    {
        self.nets.push(net)?;
        Ok(())
    }

    /// The nets.
    pub fn as_slice(&self) -> &[NetId]
        ensures { result.now ≡ self.now }
    {
        &self.nets
    }
}

/// A port of a design, with the nets of its bits, leftmost first.
#[derive(Debug, Drop)]
pub struct Port {
    pub name: Name,
    pub dir: Dir,
    /// The range of a vector; a scalar port has none, and one bit.
    pub range: Option<Range>,
    pub bits: NetIds,
}
