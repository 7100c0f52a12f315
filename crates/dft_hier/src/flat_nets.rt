//! The nets of a flat design: those of a module, and then those of each module instance below it, without recursion.

ghost use Rattle.std.specs.Prelude.{◌≡◌, ◌<◌, ◌+◌, ◌^◌, ◌++◌, ◌∷◌, [], Some, map, length, take, slice_get, IfOk, IfSome, IfNone, OnOk, MatchResult};
ghost use Rattle.dft_hier.specs.Flat.{inside};
ghost use Rattle.dft_hier.specs.FlatNets.{IsNetLaid, live_at, nets_below};
ghost use Rattle.dft_hier.specs.Growing.{Grows, IsPrefix, IsRefusal};
ghost use Rattle.dft_hier.specs.NetWalks.{IsNetWalk, at_module, gone_on, way_size};
ghost use Rattle.dft_netlist_text.specs.NetlistText.{Grown, add_nets};

use crate::children::sub_in;
use crate::weights::{LiveItems, LiveSub, Weight};
use dft_base::Name;
use dft_modules::Module;
use dft_netlist::{DesignBuilder, NetlistError};
use std::alloc::{AllocError, Global};
use std::marker::Model;

/// The modules of a hierarchy, the items of each that give something, and their weights.
#[derive(Clone, Copy)]
pub struct Hierarchy<'a> {
    pub modules: &'a [Module],
    pub items: &'a [LiveItems],
    pub weights: &'a [Weight],
}

// A module on the way: its next instance with nets in it, and how long the prefix of its names is.
#[derive(Clone, Copy, Debug)]
struct Visit {
    number: usize,
    next: usize,
    prefix: usize,
}

/// A name behind a prefix.
pub fn prefixed(alloc: Global, prefix: &[u8], name: &Name) -> Result<Name, AllocError>
    requires { IsPrefix prefix.now }
    ensures { IfOk result (λ whole. whole ≡ prefix.now ++ name.now) }
{
    if prefix.is_empty() {
        return name.copy(alloc);
    }
    let mut bytes = Vec::from_slice(alloc, prefix)?;
    bytes.extend_from_slice(name.as_slice())?;
    Name::from_slice(alloc, &bytes)
}

/// Goes from the prefix of a module to that of an instance in it.
pub fn go_inside(prefix: &mut Vec<u8>, kept: usize, name: &Name) -> Result<(), AllocError>
    ensures inside { OnOk result (prefix.new.items ≡ inside (take kept prefix.old.items) name.now) }
    ensures printed { OnOk result (IsPrefix prefix.old.items → IsPrefix prefix.new.items) }
{
    prefix.truncate(kept);
    prefix.extend_from_slice(name.as_slice())?;
    prefix.push(b'/')?;
    Ok(())
}

// Adds nets of these names behind a prefix.
fn add_names(
    alloc: Global,
    builder: &mut DesignBuilder,
    prefix: &[u8],
    names: &[Name],
) -> Result<(), NetlistError>
    requires { IsPrefix prefix.now }
    ensures { Grows (add_nets (map (λ name. prefix.now ++ name) names.now) builder.old) result builder.new }
{
    for name in names {
        builder.net(prefixed(alloc, prefix, name)?)?;
    }
    Ok(())
}

// The way down to the nets that come next, and the prefix of the last module on it.
#[derive(Debug)]
struct NetWalk {
    way: Vec<Visit>,
    prefix: Vec<u8>,
}

// One call for all fields, so that the proof of what owns a value stays short.
impl Drop for NetWalk {
    fn drop(self) {
        let NetWalk { way: _, prefix: _ } = self;
    }
}

impl Model for NetWalk {
    ghost use Rattle.dft_hier.specs.NetWalks.{NetStand};

    ghost Value = { NetStand };

    ghost use Rattle.dft_hier.specs.NetWalkShown.{net_stand_of};

    ghost view = { net_stand_of };
}

impl NetWalk {
    // At a module whose own nets are there.
    fn at(alloc: Global, number: usize) -> Result<NetWalk, AllocError>
        ensures { IfOk result (λ walk. walk ≡ at_module number) }
    {
        let mut way = Vec::new(alloc);
        way.push(Visit {
            number,
            next: 0,
            prefix: 0,
        })?;
        Ok(NetWalk {
            way,
            prefix: Vec::new(alloc),
        })
    }

    // The last visit of the way, which is taken from it.
    fn pop(&mut self) -> Option<Visit>
        ensures some { IfSome result (λ visit. self.old ≡ record self.new { way = self.new.way ++ visit ∷ [] }) }
        ensures none { IfNone result (self.old.way ≡ []) }
        ensures same { IfNone result (self.new ≡ self.old) }
    {
        self.way.pop()
    }

    // The prefix of the last module on the way.
    fn prefix(&self) -> &[u8]
        ensures { result.now ≡ self.now.prefix }
    {
        &self.prefix
    }

    // Past an instance of the module that was visited, and into the instance's module.
    fn go_on(&mut self, visit: Visit, name: &Name, child: usize) -> Result<(), AllocError>
        requires { visit.next + 1 < 2 ^ 64 }
        ensures stand { OnOk result (self.new ≡ gone_on self.old visit name.now child) }
        ensures printed { OnOk result (IsPrefix self.old.prefix → IsPrefix self.new.prefix) }
    {
        go_inside(&mut self.prefix, visit.prefix, name)?;
        self.way.push(Visit {
            number: visit.number,
            next: visit.next + 1,
            prefix: visit.prefix,
        })?;
        self.way.push(Visit {
            number: child,
            next: 0,
            prefix: self.prefix.len(),
        })?;
        Ok(())
    }
}

// The live instance at a place.
fn sub_at(live: &[LiveSub], place: usize) -> Option<LiveSub>
    ensures { result ≡ slice_get live.now place }
{
    live.get(place).copied()
}

// Into an instance with nets in it, whose module's nets are added.
fn enter(
    alloc: Global,
    hierarchy: &Hierarchy<'_>,
    builder: &mut DesignBuilder,
    walk: &mut NetWalk,
    visit: Visit,
    live: LiveSub,
) -> Result<(), NetlistError>
    requires laid { IsNetLaid hierarchy.now.modules.now hierarchy.now.items.now }
    requires there { visit.number < length hierarchy.now.modules.now }
    requires next { slice_get (live_at hierarchy.now.items.now visit.number) visit.next ≡ Some live }
    requires small { visit.next + 1 < 2 ^ 64 }
    requires printed { IsPrefix walk.old.prefix }
    ensures walks { (whole : Grown) → IsNetWalk hierarchy.now.modules.now hierarchy.now.items.now whole (record walk.old { way = walk.old.way ++ visit ∷ [] }) builder.old → MatchResult result (λ _. IsNetWalk hierarchy.now.modules.now hierarchy.now.items.now whole walk.new builder.new) (IsRefusal whole) }
    ensures fewer { OnOk result (way_size hierarchy.now.modules.now hierarchy.now.items.now walk.new.way < way_size hierarchy.now.modules.now hierarchy.now.items.now (walk.old.way ++ visit ∷ [])) }
{
    let item = live.item as usize;
    let child = live.child as usize;
    let items = hierarchy.modules[visit.number].items();
    match sub_in(&items[item]) {
        Some(sub) => {
            walk.go_on(visit, &sub.name, child)?;
            let names = hierarchy.modules[child].nets();
            add_names(alloc, builder, walk.prefix(), names)
        }
        None => unreachable!(),
    }
}

// One step from a module that was taken from the way: into its next instance, or back.
fn step(
    alloc: Global,
    hierarchy: &Hierarchy<'_>,
    builder: &mut DesignBuilder,
    walk: &mut NetWalk,
    visit: Visit,
) -> Result<(), NetlistError>
    requires laid { IsNetLaid hierarchy.now.modules.now hierarchy.now.items.now }
    requires there { visit.number < length hierarchy.now.modules.now }
    requires printed { IsPrefix walk.old.prefix }
    ensures walks { (whole : Grown) → IsNetWalk hierarchy.now.modules.now hierarchy.now.items.now whole (record walk.old { way = walk.old.way ++ visit ∷ [] }) builder.old → MatchResult result (λ _. IsNetWalk hierarchy.now.modules.now hierarchy.now.items.now whole walk.new builder.new) (IsRefusal whole) }
    ensures fewer { OnOk result (way_size hierarchy.now.modules.now hierarchy.now.items.now walk.new.way < way_size hierarchy.now.modules.now hierarchy.now.items.now (walk.old.way ++ visit ∷ [])) }
{
    let live = hierarchy.items[visit.number].with_nets();
    match sub_at(live, visit.next) {
        Some(next) => enter(alloc, hierarchy, builder, walk, visit, next),
        None => Ok(()),
    }
}

/// Adds the nets of all instances below a module, whose own nets are there.
pub fn add_nets_below(
    alloc: Global,
    hierarchy: &Hierarchy<'_>,
    builder: &mut DesignBuilder,
    top: usize,
) -> Result<(), NetlistError>
    requires laid { IsNetLaid hierarchy.now.modules.now hierarchy.now.items.now }
    requires there { top < length hierarchy.now.modules.now }
    ensures { Grows (add_nets (nets_below hierarchy.now.modules.now hierarchy.now.items.now top) builder.old) result builder.new }
{
    let mut walk = NetWalk::at(alloc, top)?;
    while let Some(visit) = walk.pop() {
        step(alloc, hierarchy, builder, &mut walk, visit)?;
    }
    Ok(())
}
