//! A walk down through all modules, each of which is finished behind the modules below it, without recursion.

ghost use Rattle.std.specs.Prelude.{◌≡◌, ◌<◌, ◌+◌, ◌++◌, ◌∷◌, [], true, false, length, replicate, slice_get, IfOk, IfSome, IfNone, OnOk};
ghost use Rattle.dft_hier.specs.Descents.{are_finished, entered, is_finished, is_new, left, met, stepped};
ghost use Rattle.dft_hier.specs.Reach.{AreBelow, AreWithin, HasCircle, IsOrder};
ghost use Rattle.dft_hier.specs.Walking.{IsWalkedTo};
ghost use Rattle.dft_hier.specs.declared.descent.State.TheVariants.{New};

use crate::children::Children;
use std::alloc::{AllocError, Global};
use std::marker::Model;

// How far a module is: not met yet, on the way, or in the order.
#[derive(Clone, Copy, Debug, PartialEq, Eq)]
enum State {
    New,
    Walked,
    Finished,
}

// A module on the way, and which of its instances comes next.
#[derive(Clone, Copy, Debug)]
struct Visit {
    number: usize,
    next: usize,
}

// How far each module is, those on the way, those that are finished, and whether one was finished before a module below it.
#[derive(Debug)]
struct Descent {
    states: Vec<State>,
    way: Vec<Visit>,
    order: Vec<usize>,
    circle: bool,
}

// One call for all fields, so that the proof of what owns a value stays short.
impl Drop for Descent {
    fn drop(self) {
        let Descent {
            states: _,
            way: _,
            order: _,
            circle: _,
        } = self;
    }
}

impl Model for Descent {
    ghost use Rattle.dft_hier.specs.Descents.{Stand};

    ghost Value = { Stand };

    ghost use Rattle.dft_hier.specs.DescentShown.{stand_of};

    ghost view = { stand_of };
}

/// All modules, and whether one of them stands below itself. Where none does, each stands behind the modules below it.
#[derive(Debug, Drop)]
pub struct Descended {
    pub order: Vec<usize>,
    pub circle: bool,
}

impl Descent {
    // No module was met.
    fn new(alloc: Global, count: usize) -> Result<Descent, AllocError>
        ensures { IfOk result (λ descent. descent ≡ record { states = replicate count New; way = []; order = []; circle = false }) }
    {
        let states = vec![in alloc; State::New; count]?;
        Ok(Descent {
            states,
            way: Vec::new(alloc),
            order: Vec::new(alloc),
            circle: false,
        })
    }

    // Whether a module was not met.
    fn is_new(&self, number: usize) -> bool
        requires { number < length self.now.states }
        ensures { result ≡ is_new (slice_get self.now.states number) }
    {
        matches!(self.states[number], State::New)
    }

    // Whether a module is finished.
    fn is_finished(&self, number: usize) -> bool
        requires { number < length self.now.states }
        ensures { result ≡ is_finished (slice_get self.now.states number) }
    {
        matches!(self.states[number], State::Finished)
    }

    // The last visit of the way, which is taken from it.
    fn pop(&mut self) -> Option<Visit>
        ensures some { IfSome result (λ visit. self.old ≡ record self.new { way = self.new.way ++ visit ∷ [] }) }
        ensures none { IfNone result (self.old.way ≡ []) }
        ensures same { IfNone result (self.new ≡ self.old) }
    {
        self.way.pop()
    }

    // A visit more.
    fn push(&mut self, visit: Visit) -> Result<(), AllocError>
        ensures { OnOk result (self.new ≡ record self.old { way = self.old.way ++ visit ∷ [] }) }
    {
        self.way.push(visit)?;
        Ok(())
    }

    // The way goes on to a module.
    fn enter(&mut self, number: usize) -> Result<(), AllocError>
        requires { number < length self.old.states }
        ensures { OnOk result (self.new ≡ entered self.old number) }
    {
        self.states[number] = State::Walked;
        self.way.push(Visit { number, next: 0 })?;
        Ok(())
    }

    // The way goes on to a module, if it was not met.
    fn meet(&mut self, number: usize) -> Result<(), AllocError>
        requires { number < length self.old.states }
        ensures { OnOk result (self.new ≡ met self.old number) }
    {
        if self.is_new(number) {
            self.enter(number)?;
        }
        Ok(())
    }

    // Whether these modules are finished.
    fn are_finished(&self, numbers: &[usize]) -> bool
        requires { AreBelow (length self.now.states) numbers.now }
        ensures { result ≡ are_finished self.now.states numbers.now }
    {
        for number in numbers {
            if !self.is_finished(*number) {
                return false;
            }
        }
        true
    }

    // A module is finished, behind those below it or not.
    fn leave(&mut self, number: usize, behind: bool) -> Result<(), AllocError>
        requires { number < length self.old.states }
        ensures { OnOk result (self.new ≡ left self.old number behind) }
    {
        self.states[number] = State::Finished;
        self.order.push(number)?;
        self.circle = self.circle || !behind;
        Ok(())
    }

    // One step from a module that was taken from the way: into its next instance, or back.
    fn step(&mut self, visit: Visit, children: &[usize]) -> Result<(), AllocError>
        requires live { visit.number < length self.old.states }
        requires below { AreBelow (length self.old.states) children.now }
        ensures { OnOk result (self.new ≡ stepped self.old visit children.now) }
    {
        match children.get(visit.next).copied() {
            None => {
                let behind = self.are_finished(children);
                self.leave(visit.number, behind)
            }
            Some(child) => {
                self.push(Visit {
                    number: visit.number,
                    next: visit.next + 1,
                })?;
                self.meet(child)
            }
        }
    }

    // Goes down from a module and back.
    fn run(&mut self, from: usize, children: &[Children]) -> Result<(), AllocError>
        requires live { from < length children.now }
        requires within { AreWithin (length children.now) children.now }
        requires walked { IsWalkedTo children.now from self.old }
        ensures { OnOk result (IsWalkedTo children.now (from + 1) self.new) }
    {
        self.meet(from)?;
        while let Some(visit) = self.pop() {
            self.step(visit, children[visit.number].as_slice())?;
        }
        Ok(())
    }

    // What was found.
    fn into_descended(self) -> Descended
        ensures order { result.order.items ≡ self.order }
        ensures circle { result.circle ≡ self.circle }
    {
        let Descent {
            states: _,
            way: _,
            order,
            circle,
        } = self;
        Descended { order, circle }
    }
}

/// A walk down through all modules, which are finished in this order.
pub fn descend(alloc: Global, children: &[Children]) -> Result<Descended, AllocError>
    requires { AreWithin (length children.now) children.now }
    ensures live { IfOk result (λ walk. AreBelow (length children.now) walk.order.items) }
    ensures circle { IfOk result (λ walk. walk.circle ≡ true → HasCircle children.now) }
    ensures order { IfOk result (λ walk. walk.circle ≡ false → IsOrder children.now walk.order.items) }
{
    let mut descent = Descent::new(alloc, children.len())?;
    for number in 0..children.len() {
        descent.run(number, children)?;
    }
    Ok(descent.into_descended())
}
