//! The joins and instances of a flat design: the items of a module in order, and in place of a module instance the joins of
//! its connections and the items of its module, without recursion.

ghost use Rattle.std.specs.Prelude.{◌≡◌, ◌<◌, ◌≤◌, ◌+◌, ◌^◌, [], Some, length, take, slice_get, slice_index_or, IfOk, IfSome, IfNone, OnOk};
ghost use Rattle.dft_hier.specs.FlatItems.{live_items_at, own_parts};
ghost use Rattle.dft_hier.specs.Growing.{Grows, IsPrefix};
ghost use Rattle.dft_hier.specs.ItemWalks.{IsItemIn, adds, and_visit, at_top, gone_into, item_way_size};
ghost use Rattle.dft_hier.specs.ItemsWalked.{Stands, Walks};
ghost use Rattle.dft_hier.specs.ItemsLaid.{AreItemsLaid};
ghost use Rattle.dft_hier.specs.Laid.{IsLaid, parts_at};
ghost use Rattle.dft_hier.specs.Weights.{no_weight};

use crate::children::sub_in;
use crate::flat_joins::{add_cell, add_connections, add_join};
use crate::flat_nets::{Hierarchy, go_inside};
use crate::weights::{LiveItem, LiveSub, Weight};
use dft_base::Name;
use dft_modules::Item;
use dft_netlist::{DesignBuilder, NetlistError};
use std::alloc::{AllocError, Global};
use std::marker::Model;

// A module on the way: the number of its first net, its next item, the number of the first net of its next instance with
// nets, and how long the prefix of its names is.
#[derive(Clone, Copy, Debug)]
struct Visit {
    number: usize,
    first: usize,
    item: usize,
    next: usize,
    prefix: usize,
}

// The way down to the items that come next, and the prefix of the last module on it.
#[derive(Debug)]
struct ItemWalk {
    way: Vec<Visit>,
    prefix: Vec<u8>,
}

// One call for all fields, so that the proof of what owns a value stays short.
impl Drop for ItemWalk {
    fn drop(self) {
        let ItemWalk { way: _, prefix: _ } = self;
    }
}

impl Model for ItemWalk {
    ghost use Rattle.dft_hier.specs.ItemWalks.{ItemStand};

    ghost Value = { ItemStand };

    ghost use Rattle.dft_hier.specs.ItemWalkShown.{item_stand_of};

    ghost view = { item_stand_of };
}

impl ItemWalk {
    // At a module with so many nets, the first of which has the number 0.
    fn at(alloc: Global, number: usize, nets: usize) -> Result<ItemWalk, AllocError>
        ensures { IfOk result (λ walk. walk ≡ at_top number nets) }
    {
        let mut way = Vec::new(alloc);
        way.push(Visit {
            number,
            first: 0,
            item: 0,
            next: nets,
            prefix: 0,
        })?;
        Ok(ItemWalk {
            way,
            prefix: Vec::new(alloc),
        })
    }

    // The last visit of the way, which is taken from it.
    fn pop(&mut self) -> Option<Visit>
        ensures some { IfSome result (λ visit. self.old ≡ and_visit self.new visit) }
        ensures none { IfNone result (self.old.way ≡ []) }
        ensures same { IfNone result (self.new ≡ self.old) }
    {
        self.way.pop()
    }

    // The prefix of a module on the way, which has so many bytes.
    fn prefix(&self, size: usize) -> &[u8]
        requires { size ≤ length self.now.prefix }
        ensures { result.now ≡ take size self.now.prefix }
    {
        &self.prefix[..size]
    }

    // A visit more.
    fn push(&mut self, visit: Visit) -> Result<(), AllocError>
        ensures { OnOk result (self.new ≡ and_visit self.old visit) }
    {
        self.way.push(visit)?;
        Ok(())
    }

    // Into the module of an instance of a module that was visited.
    fn go_into(
        &mut self,
        visit: Visit,
        name: &Name,
        child: usize,
        nets: usize,
    ) -> Result<(), AllocError>
        requires { visit.next + nets < 2 ^ 32 }
        ensures stand { OnOk result (self.new ≡ gone_into self.old visit name.now child nets) }
        ensures printed { OnOk result (IsPrefix self.old.prefix → IsPrefix self.new.prefix) }
    {
        go_inside(&mut self.prefix, visit.prefix, name)?;
        self.way.push(Visit {
            number: child,
            first: visit.next,
            item: 0,
            next: visit.next + nets,
            prefix: self.prefix.len(),
        })?;
        Ok(())
    }
}

// Adds an item of a module's own.
fn add_own(
    alloc: Global,
    builder: &mut DesignBuilder,
    prefix: &[u8],
    first: usize,
    item: &Item,
) -> Result<(), NetlistError>
    requires prefix { IsPrefix prefix.now }
    requires fits { IsItemIn builder.old first item.now }
    ensures { Grows (adds (own_parts prefix.now first (Some item.now)) builder.old) result builder.new }
{
    match item {
        Item::Join(join) => Ok(add_join(builder, first, *join)?),
        Item::Cell(instance) => add_cell(alloc, builder, prefix, first, instance),
        Item::Sub(_) => Ok(()),
    }
}

// Past an item of a module's own, which is added.
fn pass_own(
    alloc: Global,
    hierarchy: &Hierarchy<'_>,
    builder: &mut DesignBuilder,
    walk: &mut ItemWalk,
    visit: Visit,
    place: usize,
) -> Result<(), NetlistError>
    requires laid { AreItemsLaid builder.old.library hierarchy.now.modules.now hierarchy.now.items.now hierarchy.now.weights.now }
    requires stands { Stands hierarchy.now builder.old (and_visit walk.old visit) }
    requires next { slice_get (live_items_at hierarchy.now.items.now visit.number) visit.item ≡ Some (LiveItem.Own place) }
    requires small { visit.item + 1 < 2 ^ 64 }
    ensures walks { Walks hierarchy.now (and_visit walk.old visit) builder.old result walk.new builder.new }
    ensures fewer { OnOk result (item_way_size hierarchy.now.modules.now hierarchy.now.items.now walk.new.way < item_way_size hierarchy.now.modules.now hierarchy.now.items.now (and_visit walk.old visit).way) }
{
    walk.push(Visit {
        number: visit.number,
        first: visit.first,
        item: visit.item + 1,
        next: visit.next,
        prefix: visit.prefix,
    })?;
    let items = hierarchy.modules[visit.number].items();
    let prefix = walk.prefix(visit.prefix);
    add_own(alloc, builder, prefix, visit.first, &items[place])
}

// How many nets a module has with all below it.
fn nets_at(weights: &[Weight], number: usize) -> usize
    requires { number < length weights.now }
    ensures { result ≡ (slice_index_or weights.now number no_weight).nets }
{
    weights[number].nets
}

// Past a module instance, and into its module: adds the joins of its connections.
fn pass_sub(
    alloc: Global,
    hierarchy: &Hierarchy<'_>,
    builder: &mut DesignBuilder,
    walk: &mut ItemWalk,
    visit: Visit,
    live: LiveSub,
) -> Result<(), NetlistError>
    requires laid { AreItemsLaid builder.old.library hierarchy.now.modules.now hierarchy.now.items.now hierarchy.now.weights.now }
    requires stands { Stands hierarchy.now builder.old (and_visit walk.old visit) }
    requires next { slice_get (live_items_at hierarchy.now.items.now visit.number) visit.item ≡ Some (LiveItem.Sub live) }
    requires small { visit.item + 1 < 2 ^ 64 }
    ensures walks { Walks hierarchy.now (and_visit walk.old visit) builder.old result walk.new builder.new }
    ensures fewer { OnOk result (item_way_size hierarchy.now.modules.now hierarchy.now.items.now walk.new.way < item_way_size hierarchy.now.modules.now hierarchy.now.items.now (and_visit walk.old visit).way) }
{
    let item = live.item as usize;
    let child = live.child as usize;
    let items = hierarchy.modules[visit.number].items();
    match sub_in(&items[item]) {
        Some(sub) => {
            let inner = &hierarchy.modules[child];
            let ports = inner.ports();
            let connections = sub.connections.as_slice();
            add_connections(alloc, builder, visit.first, visit.next, ports, connections)?;
            let below = nets_at(hierarchy.weights, child);
            walk.push(Visit {
                number: visit.number,
                first: visit.first,
                item: visit.item + 1,
                next: visit.next + below,
                prefix: visit.prefix,
            })?;
            let names = inner.nets();
            walk.go_into(visit, &sub.name, child, names.len())?;
            Ok(())
        }
        None => unreachable!(),
    }
}

// The live item at a place.
fn item_at(live: &[LiveItem], place: usize) -> Option<LiveItem>
    ensures { result ≡ slice_get live.now place }
{
    live.get(place).copied()
}

// Past an item, or into it.
fn pass(
    alloc: Global,
    hierarchy: &Hierarchy<'_>,
    builder: &mut DesignBuilder,
    walk: &mut ItemWalk,
    visit: Visit,
    live: LiveItem,
) -> Result<(), NetlistError>
    requires laid { AreItemsLaid builder.old.library hierarchy.now.modules.now hierarchy.now.items.now hierarchy.now.weights.now }
    requires stands { Stands hierarchy.now builder.old (and_visit walk.old visit) }
    requires next { slice_get (live_items_at hierarchy.now.items.now visit.number) visit.item ≡ Some live }
    requires small { visit.item + 1 < 2 ^ 64 }
    ensures walks { Walks hierarchy.now (and_visit walk.old visit) builder.old result walk.new builder.new }
    ensures fewer { OnOk result (item_way_size hierarchy.now.modules.now hierarchy.now.items.now walk.new.way < item_way_size hierarchy.now.modules.now hierarchy.now.items.now (and_visit walk.old visit).way) }
{
    match live {
        LiveItem::Own(place) => pass_own(alloc, hierarchy, builder, walk, visit, place as usize),
        LiveItem::Sub(sub) => pass_sub(alloc, hierarchy, builder, walk, visit, sub),
    }
}

// One step from a module that was taken from the way: past an item, into an instance, or back.
fn step(
    alloc: Global,
    hierarchy: &Hierarchy<'_>,
    builder: &mut DesignBuilder,
    walk: &mut ItemWalk,
    visit: Visit,
) -> Result<(), NetlistError>
    requires laid { AreItemsLaid builder.old.library hierarchy.now.modules.now hierarchy.now.items.now hierarchy.now.weights.now }
    requires stands { Stands hierarchy.now builder.old (and_visit walk.old visit) }
    ensures walks { Walks hierarchy.now (and_visit walk.old visit) builder.old result walk.new builder.new }
    ensures fewer { OnOk result (item_way_size hierarchy.now.modules.now hierarchy.now.items.now walk.new.way < item_way_size hierarchy.now.modules.now hierarchy.now.items.now (and_visit walk.old visit).way) }
{
    let live = hierarchy.items[visit.number].items();
    match item_at(live, visit.item) {
        Some(next) => pass(alloc, hierarchy, builder, walk, visit, next),
        None => Ok(()),
    }
}

/// Adds the joins and instances of a module and of all below it, whose nets are there.
pub fn add_items(
    alloc: Global,
    hierarchy: &Hierarchy<'_>,
    builder: &mut DesignBuilder,
    top: usize,
) -> Result<(), NetlistError>
    requires laid { IsLaid builder.old.library hierarchy.now }
    requires there { top < length hierarchy.now.modules.now }
    requires nets { length builder.old.nets ≡ length (parts_at hierarchy.now.modules.now top).nets }
    ensures { Grows (adds (parts_at hierarchy.now.modules.now top) builder.old) result builder.new }
{
    builder.net_count();
    let mut walk = ItemWalk::at(alloc, top, hierarchy.modules[top].nets().len())?;
    while let Some(visit) = walk.pop() {
        step(alloc, hierarchy, builder, &mut walk, visit)?;
    }
    Ok(())
}
