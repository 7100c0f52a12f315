//! How many nets stand in and below each module, and which items of a module give anything at all.

ghost use Rattle.std.specs.Prelude.{◌≡◌, ◌≤◌, ◌<◌, ◌+◌, [], None, length, nat_lt, slice_index_or, IfOk, OnOk};
ghost use Rattle.std.specs.List.{list_any};
ghost use Rattle.dft_hier.specs.Hierarchy.{subs_of};
ghost use Rattle.dft_hier.specs.Numbers.{children_of};
ghost use Rattle.dft_hier.specs.Reach.{AreBelow, AreWithin, IsOrder};
ghost use Rattle.dft_hier.specs.Refusals.{first_unknown};
ghost use Rattle.dft_hier.specs.Weights as spec;
ghost use Rattle.dft_hier.specs.Weights.{AreBounded, AreLive, AreWeights, and_own, and_sub, at_most, is_cell, live_of, no_live, no_weight, weight_by, with_all, with_below, weights_of};

use crate::children::{Children, sub_in};
use dft_modules::{Item, Module};
use dft_netlist::MAX_NETS;
use std::alloc::{AllocError, Global};
use std::marker::Model;

/// How many nets a module has with all below it, or more than there may be; and whether it has a net or a cell.
#[derive(Clone, Copy, Debug)]
pub struct Weight {
    pub nets: usize,
    pub lives: bool,
}

/// A module instance, by the place of its item and its module's number.
#[derive(Clone, Copy, Debug)]
pub struct LiveSub {
    pub item: u32,
    pub child: u32,
}

/// An item that gives something: one of the module's own, by its place, or a module instance.
#[derive(Clone, Copy, Debug)]
pub enum LiveItem {
    Own(u32),
    Sub(LiveSub),
}

/// The items of a module that give something, in order; and of these the module instances with nets in them.
#[derive(Debug)]
pub struct LiveItems {
    items: Vec<LiveItem>,
    with_nets: Vec<LiveSub>,
}

// One call for all fields, so that the proof of what owns a value stays short.
impl Drop for LiveItems {
    fn drop(self) {
        let LiveItems {
            items: _,
            with_nets: _,
        } = self;
    }
}

impl Model for LiveItems {
    ghost use Rattle.dft_hier.specs.Weights.{Live};

    ghost Value = { Live };

    ghost use Rattle.dft_hier.specs.LiveShown.{live_in};

    ghost view = { live_in };
}

// So many nets, or one more than there may be.
fn at_most(nets: usize) -> usize
    ensures value { result ≡ at_most nets }
    ensures few { result ≤ MAX_NETS + 1 }
{
    nets.min(MAX_NETS + 1)
}

// A module with another below it.
fn with(weight: Weight, below: Weight) -> Weight
    requires weight { weight.nets ≤ MAX_NETS + 1 }
    requires below { below.nets ≤ MAX_NETS + 1 }
    ensures value { result ≡ with_below weight below }
    ensures few { result.nets ≤ MAX_NETS + 1 }
{
    Weight {
        nets: at_most(weight.nets + below.nets),
        lives: weight.lives || below.lives,
    }
}

/// How many nets a module has with all below it, and none past the end.
pub fn net_count(weights: &[Weight], number: usize) -> usize
    ensures { result ≡ (slice_index_or weights.now number no_weight).nets }
{
    if number < weights.len() {
        weights[number].nets
    } else {
        0
    }
}

// Whether one of these is a cell or a gate.
fn has_cell(items: &[Item]) -> bool
    ensures { result ≡ list_any is_cell items.now }
{
    items.iter().any(|item| matches!(item, Item::Cell(_)))
}

// A module by itself.
fn alone(owner: &Module) -> Weight
    ensures value { result ≡ spec.alone owner.now }
    ensures few { result.nets ≤ MAX_NETS + 1 }
{
    let nets = owner.nets().len();
    Weight {
        nets: at_most(nets),
        lives: 0 < nets || has_cell(owner.items()),
    }
}

// A module with those of its instances.
fn weight_of(owner: &Module, children: &[usize], weights: &[Weight]) -> Weight
    requires below { AreBelow (length weights.now) children.now }
    requires bounded { AreBounded weights.now }
    ensures value { result ≡ weight_by owner.now children.now weights.now }
    ensures few { result.nets ≤ MAX_NETS + 1 }
{
    let mut all = alone(owner);
    for child in children {
        all = with(all, weights[*child]);
    }
    all
}

/// The weights of all modules, which are found in this order: each behind the modules below it.
pub fn weights(
    alloc: Global,
    modules: &[Module],
    children: &[Children],
    order: &[usize],
) -> Result<Vec<Weight>, AllocError>
    requires count { length children.now ≡ length modules.now }
    requires within { AreWithin (length children.now) children.now }
    requires below { AreBelow (length children.now) order.now }
    requires order { IsOrder children.now order.now }
    ensures { IfOk result (λ weights. AreWeights modules.now children.now weights.items) }
{
    let none = Weight {
        nets: 0,
        lives: false,
    };
    let mut weights = vec![in alloc; none; modules.len()]?;
    for number in order {
        weights[*number] = weight_of(&modules[*number], children[*number].as_slice(), &weights);
    }
    Ok(weights)
}

// A place or a number of a module, in 32 bits.
fn number_of(place: usize) -> Result<u32, AllocError>
    ensures { IfOk result (λ number. number ≡ place) }
{
    match u32::try_from(place) {
        Ok(number) => Ok(number),
        Err(_past) => Err(AllocError),
    }
}

impl LiveItems {
    // No item yet, and room for so many.
    fn with_room(alloc: Global, items: usize) -> Result<LiveItems, AllocError>
        ensures { IfOk result (λ live. live ≡ no_live) }
    {
        let items = Vec::with_capacity(alloc, items)?;
        Ok(LiveItems {
            items,
            with_nets: Vec::new(alloc),
        })
    }

    /// The items that give something.
    pub fn items(&self) -> &[LiveItem]
        ensures { result.now ≡ self.now.items }
    {
        &self.items
    }

    /// The module instances with nets in them.
    pub fn with_nets(&self) -> &[LiveSub]
        ensures { result.now ≡ self.now.with_nets }
    {
        &self.with_nets
    }

    // Adds an item of the module's own.
    fn add_own(&mut self, place: usize) -> Result<(), AllocError>
        ensures { OnOk result (self.new ≡ and_own place self.old) }
    {
        let place = number_of(place)?;
        self.items.push(LiveItem::Own(place))?;
        Ok(())
    }

    // Adds the instance at a place, of a module with this weight, to those that it belongs to.
    fn add_sub(&mut self, weight: Weight, place: usize, child: usize) -> Result<(), AllocError>
        ensures { OnOk result (self.new ≡ and_sub weight (record { item = place; child = child }) self.old) }
    {
        let sub = LiveSub {
            item: number_of(place)?,
            child: number_of(child)?,
        };
        if weight.lives {
            self.items.push(LiveItem::Sub(sub))?;
        }
        if 0 < weight.nets {
            self.with_nets.push(sub)?;
        }
        Ok(())
    }
}

// The items of a module that give something.
fn live_items(
    alloc: Global,
    owner: &Module,
    children: &[usize],
    weights: &[Weight],
) -> Result<LiveItems, AllocError>
    requires children { length (subs_of owner.now.items) ≡ length children.now }
    requires below { AreBelow (length weights.now) children.now }
    ensures { IfOk result (λ live. live ≡ live_of weights.now owner.now children.now) }
{
    let mut all = LiveItems::with_room(alloc, owner.items().len())?;
    let mut next = 0;
    for (place, item) in owner.items().iter().enumerate() {
        match sub_in(item) {
            Some(_sub) => {
                let child = children[next];
                all.add_sub(weights[child], place, child)?;
                next += 1;
            }
            None => all.add_own(place)?,
        }
    }
    Ok(all)
}

/// The items of all modules that give something.
pub fn all_live_items(
    alloc: Global,
    modules: &[Module],
    children: &[Children],
    weights: &[Weight],
) -> Result<Vec<LiveItems>, AllocError>
    requires known { first_unknown modules.now ≡ None }
    requires children { children.now ≡ children_of modules.now }
    requires count { length weights.now ≡ length modules.now }
    ensures { IfOk result (λ all. AreLive modules.now children.now weights.now all.items) }
{
    let mut all = Vec::with_capacity(alloc, modules.len())?;
    for (number, owner) in modules.iter().enumerate() {
        let children = children[number].as_slice();
        all.push(live_items(alloc, owner, children, weights)?)
            .map_err(AllocError::from)?;
    }
    Ok(all)
}
