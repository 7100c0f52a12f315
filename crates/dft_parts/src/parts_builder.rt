ghost use Rattle.std.specs.Prelude.{◌≡◌, ◌<◌, ◌≤◌, [], Some, IfOk, OnOk, length, slice_get};
ghost use Rattle.std.specs.List.{All};
ghost use Rattle.dft_cells.specs.WellFormed.{TakesInputs};
ghost use Rattle.dft_netlist.specs.Building.{IsUnconnected};
ghost use Rattle.dft_netlist.specs.Sound.{IsInstanceOf, is_primitive};
ghost use Rattle.dft_parts.specs.Parts.{is_open_at, is_unconnected, with_pin};
ghost use Rattle.dft_parts.specs.Recipes.{Makes, a_net, an_instance};

use crate::made::Made;
use crate::made_names::{made_instance, made_net};
use dft_netlist::{CellRef, DesignBuilder, InstanceId, NetId, NetlistError, Signal};
use std::alloc::Global;
use std::marker::Model;

/// A builder of a netlist that grows by made parts. It gives each made net and each made instance the next made name. A clause
/// sees the netlist so far, and how many made names were given. After a refusal it holds what was made before.
#[derive(Debug)]
pub struct PartsBuilder {
    alloc: Global,
    builder: DesignBuilder,
    made: Made,
}

// One call for all fields, so that the proof of what owns a value stays short.
impl Drop for PartsBuilder {
    fn drop(self) {
        let PartsBuilder {
            alloc: _,
            builder: _,
            made: _,
        } = self;
    }
}

impl Model for PartsBuilder {
    ghost use Rattle.dft_parts.specs.Parts.{Making};

    ghost Value = { Making };

    ghost use Rattle.dft_parts.specs.Shown.{making_of, AreGiven};

    ghost view = { making_of };

    ghost invariant = { AreGiven };
}

impl PartsBuilder {
    /// Goes on from a netlist where so many made names were given.
    pub fn new(alloc: Global, builder: DesignBuilder, made: Made) -> PartsBuilder
        requires nets { made.nets ≤ length builder.nets }
        requires instances { made.instances ≤ length builder.instances }
        ensures { result ≡ record { netlist = builder; made = made } }
    {
        PartsBuilder {
            alloc,
            builder,
            made,
        }
    }

    /// The netlist so far.
    pub fn builder(&self) -> &DesignBuilder
        ensures { result.now ≡ self.now.netlist }
    {
        &self.builder
    }

    /// Where its memory comes from.
    pub fn alloc(&self) -> Global {
        self.alloc
    }

    /// How many made names were given.
    pub fn made(&self) -> Made
        ensures { result ≡ self.now.made }
    {
        self.made
    }

    /// The netlist, to be finished.
    pub fn into_builder(self) -> DesignBuilder
        ensures { result ≡ self.netlist }
    {
        let PartsBuilder {
            alloc: _,
            builder,
            made: _,
        } = self;
        builder
    }

    /// Makes a net.
    pub fn net(&mut self) -> Result<NetId, NetlistError>
        ensures makes { Makes (λ net. net) a_net self.old result self.new }
        ensures there { IfOk result (λ net. net.0 < length self.new.netlist.nets) }
        ensures nets { OnOk result (length self.old.netlist.nets ≤ length self.new.netlist.nets) }
    {
        let name = made_net(self.alloc, self.made.nets as usize)?;
        let net = self.builder.net(name)?;
        self.made.nets += 1;
        Ok(net)
    }

    // Makes an instance.
    pub(crate) fn instance(&mut self, cell: CellRef, pins: &[Signal]) -> Result<(), NetlistError>
        requires { IsInstanceOf self.old.netlist (Some []) cell pins.now }
        ensures makes { Makes (λ _. tt) (an_instance cell pins.now) self.old result self.new }
        ensures nets { OnOk result (length self.old.netlist.nets ≤ length self.new.netlist.nets) }
    {
        let name = made_instance(self.alloc, self.made.instances as usize)?;
        self.builder.instance(Some(name), cell, pins)?;
        self.made.instances += 1;
        Ok(())
    }

    /// Joins a pin of an instance that is joined to nothing to this net.
    pub fn pin(&mut self, instance: InstanceId, pin: u32, net: NetId)
        requires free { IsUnconnected self.old.netlist instance pin }
        requires live { net.0 < length self.old.netlist.nets }
        ensures { self.new ≡ with_pin self.old instance pin net }
    {
        self.builder.connect(instance, pin, net);
    }

    /// Joins a pin of an instance to this net where it is joined to nothing, and else leaves it.
    pub fn join(&mut self, instance: InstanceId, pin: u32, net: NetId)
        requires { net.0 < length self.old.netlist.nets }
        ensures { self.new ≡ with_pin self.old instance pin net }
    {
        if !self.is_open(instance, pin) {
            return;
        }
        self.pin(instance, pin, net);
    }

    // Whether an instance has this pin, joined to nothing.
    fn is_open(&self, instance: InstanceId, pin: u32) -> bool
        ensures { result ≡ is_open_at self.now.netlist instance pin }
    {
        match self.builder.instances().get(instance.0 as usize) {
            Some(instance) => is_open(instance.pins.as_slice(), pin as usize),
            None => false,
        }
    }
}

// Whether there is a pin of this number, joined to nothing.
fn is_open(pins: &[Signal], pin: usize) -> bool
    ensures { result ≡ is_unconnected (slice_get pins.now pin) }
{
    match pins.get(pin) {
        Some(Signal::Unconnected) => true,
        _ => false,
    }
}
