//! Which modules a module has instances of, by their numbers.

ghost use Rattle.std.specs.Prelude.{◌≡◌, ◌++◌, ◌∷◌, [], None, option_copied, IfOk, IfErr, OnOk, OnErr};
ghost use Rattle.dft_hier.specs.Hierarchy.{sub_of, subs_of};
ghost use Rattle.dft_numbered.specs.Numbers.{Finds};
ghost use Rattle.dft_hier.specs.Numbers.{TellsLost, children_of, first_lost, found_subs, module_names};
ghost use Rattle.dft_hier.specs.Refusals.{first_unknown};

use crate::error::HierError;
use dft_modules::{Item, Module, SubInstance};
use dft_numbered::Numbered;
use std::alloc::{AllocError, Global};
use std::marker::Model;

/// The modules of a module's instances of modules, by their numbers, in the order of the text. A clause sees them as a list.
#[derive(Debug)]
pub struct Children {
    modules: Vec<usize>,
}

// One call for all fields, so that the proof of what owns a value stays short.
impl Drop for Children {
    fn drop(self) {
        let Children { modules: _ } = self;
    }
}

impl Model for Children {
    ghost use Rattle.std.specs.Prelude.{List, ℕ};

    ghost Value = { List ℕ };

    ghost view = { λ c. c.modules.items };
}

impl Children {
    /// No instance yet.
    pub fn new(alloc: Global) -> Children
        ensures { result ≡ [] }
    {
        Children {
            modules: Vec::new(alloc),
        }
    }

    /// Adds a module at the end.
    pub fn push(&mut self, number: usize) -> Result<(), AllocError>
        ensures ok { OnOk result (self.new ≡ self.old ++ number ∷ []) }
        ensures err { OnErr result (self.new ≡ self.old) }
    {
        self.modules.push(number)?;
        Ok(())
    }

    /// The modules.
    pub fn as_slice(&self) -> &[usize]
        ensures { result.now ≡ self.now }
    {
        &self.modules
    }
}

/// The module instance that an item is, if it is one.
pub fn sub_in(item: &Item) -> Option<&SubInstance>
    ensures { option_copied result ≡ sub_of item.now }
{
    match item {
        Item::Sub(sub) => Some(sub),
        Item::Join(_) => None,
        Item::Cell(_) => None,
    }
}

/// The modules by their names.
pub fn module_numbers<'a>(alloc: Global, modules: &'a [Module]) -> Result<Numbered<'a>, AllocError>
    ensures { IfOk result (λ numbers. Finds numbers (module_names modules.now)) }
{
    let mut numbers = Numbered::new(alloc);
    for (number, owner) in modules.iter().enumerate() {
        numbers.put(owner.name().as_slice(), number)?;
    }
    Ok(numbers)
}

// Adds the module of an item that is an instance of a module. Refused where it is not there.
fn add_child(
    alloc: Global,
    children: &mut Children,
    item: &Item,
    numbers: &Numbered<'_>,
) -> Result<(), HierError>
    ensures ok { OnOk result (children.new ≡ children.old ++ found_subs numbers.now (subs_of (item.now ∷ []))) }
    ensures known { OnOk result (first_lost numbers.now (subs_of (item.now ∷ [])) ≡ None) }
    ensures refused { IfErr result (TellsLost (first_lost numbers.now (subs_of (item.now ∷ [])))) }
{
    if let Item::Sub(sub) = item {
        match numbers.find(sub.of.as_slice()) {
            Some(number) => children.push(number)?,
            None => {
                return Err(HierError::H2 {
                    name: sub.of.copy(alloc)?,
                });
            }
        }
    }
    Ok(())
}

// The modules of a module's instances. Refused for the first that is not there.
fn children_in(alloc: Global, owner: &Module, numbers: &Numbered<'_>) -> Result<Children, HierError>
    ensures ok { IfOk result (λ children. children ≡ found_subs numbers.now (subs_of owner.now.items)) }
    ensures known { IfOk result (λ children. first_lost numbers.now (subs_of owner.now.items) ≡ None) }
    ensures refused { IfErr result (TellsLost (first_lost numbers.now (subs_of owner.now.items))) }
{
    let mut children = Children::new(alloc);
    for item in owner.items() {
        add_child(alloc, &mut children, item, numbers)?;
    }
    Ok(children)
}

/// The modules of the instances of each module. Refused with `H2` for the first instance of a module that is not there.
pub fn all_children(
    alloc: Global,
    modules: &[Module],
    numbers: &Numbered<'_>,
) -> Result<Vec<Children>, HierError>
    requires { Finds numbers.now (module_names modules.now) }
    ensures ok { IfOk result (λ all. all.items ≡ children_of modules.now) }
    ensures known { IfOk result (λ all. first_unknown modules.now ≡ None) }
    ensures refused { IfErr result (TellsLost (first_unknown modules.now)) }
{
    let mut all = Vec::with_capacity(alloc, modules.len())?;
    for owner in modules {
        all.push(children_in(alloc, owner, numbers)?)
            .map_err(AllocError::from)?;
    }
    Ok(all)
}
