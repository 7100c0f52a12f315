//! Calls of a builder for parts that are known to fit: a name is hashed once, and nothing is tested.

ghost use Rattle.std.specs.Prelude.{◌≡◌, None, IfOk, OnErr, OnOk};
ghost use Rattle.dft_netlist.specs.Building.{WithNet, WithInstance, net_refusal, instance_refusal};
ghost use Rattle.dft_netlist.specs.Names.{IsNameIfAny};
ghost use Rattle.dft_netlist.specs.Sound.{IsInstanceOf};

use crate::builder::DesignBuilder;
use crate::ids::{InstanceId, NetId};
use crate::instance::Instance;
use crate::named::Named;
use dft_base::Name;
use std::alloc::{AllocError, Global};

impl DesignBuilder {
    /// Makes room for so many more names and so many more instances.
    pub fn reserve(&mut self, names: usize, instances: usize) -> Result<(), AllocError>
        ensures { self.new ≡ self.old }
    {
        self.table.reserve(names)?;
        self.instances.reserve(instances)
    }

    /// Adds a net of this printed name, which is free; and there is room for a net.
    pub fn add_net(&mut self, name: Name) -> Result<NetId, AllocError>
        requires { net_refusal self.old name ≡ None }
        ensures ok { IfOk result (λ net. WithNet self.old name net self.new) }
        ensures err { OnErr result (self.new ≡ self.old) }
    {
        let count = self.table.net_count();
        name.soundness();
        self.table.reserve(1)?;
        self.table.insert_net(name);
        Ok(NetId(count as u32))
    }

    /// Adds an instance of a cell or a gate whose name is free; and there is room for an instance.
    pub fn add_instance(&mut self, instance: Instance) -> Result<InstanceId, AllocError>
        requires fits { IsInstanceOf self.old instance.name instance.cell instance.pins }
        requires free { instance_refusal self.old instance.name ≡ None }
        ensures ok { IfOk result (λ id. WithInstance self.old instance id self.new) }
        ensures err { OnErr result (self.new ≡ self.old) }
    {
        let id = InstanceId(self.instances.len() as u32);
        let key = key_of(self.alloc, &instance.name)?;
        self.instances.reserve(1)?;
        self.table.reserve(1)?;
        self.table.insert_own(key, Named::Instance(id));
        self.instances.push_reserved(instance);
        Ok(id)
    }
}

// The bytes of a name, if there is one.
fn key_of(alloc: Global, name: &Option<Name>) -> Result<Option<Name>, AllocError>
    ensures key { IfOk result (λ key. key ≡ name.now) }
    ensures name { OnOk result (IsNameIfAny name.now) }
{
    match name {
        Some(name) => {
            name.soundness();
            Ok(Some(name.copy(alloc)?))
        }
        None => Ok(None),
    }
}
