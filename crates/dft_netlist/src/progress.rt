ghost use Rattle.std.specs.Prelude.{◌≡◌, ◌<◌, ◌≤◌, Some, [], replicate, length, IfOk, OnOk, option_map, slice_get};
ghost use Rattle.dft_netlist.specs.Progress.{entered, left, top_of, is_walked, is_new};
ghost use Rattle.dft_netlist.specs.declared.progress.State.TheVariants.{New};

use crate::ids::NetId;
use std::alloc::{AllocError, Global};
use std::marker::Model;

// How far a net is: not met yet, on the walk, or in the order.
#[derive(Clone, Copy, Debug, PartialEq, Eq)]
pub(crate) enum State {
    New,
    Walked,
    Placed,
}

// An order that is being made, and the walk back that is under way; the last net of the walk stands last.
#[derive(Debug)]
pub(crate) struct Progress {
    states: Vec<State>,
    order: Vec<NetId>,
    walk: Vec<NetId>,
}

// One call for all fields, so that the proof of what owns a value stays short.
impl Drop for Progress {
    fn drop(self) {
        let Progress {
            states: _,
            order: _,
            walk: _,
        } = self;
    }
}

impl Model for Progress {
    ghost use Rattle.dft_netlist.specs.Progress.{Stand};

    ghost Value = { Stand };

    ghost use Rattle.dft_netlist.specs.ProgressShown.{stand_of};

    ghost view = { stand_of };
}

impl Progress {
    // No net of so many is met.
    pub(crate) fn new(alloc: Global, count: usize) -> Result<Progress, AllocError>
        ensures { IfOk result (λ progress. progress ≡ record { states = replicate count New; order = []; walk = [] }) }
    {
        let states = vec![in alloc; State::New; count]?;
        Ok(Progress {
            states,
            order: Vec::new(alloc),
            walk: Vec::new(alloc),
        })
    }

    // How far each net is.
    pub(crate) fn states(&self) -> &[State]
        ensures { result.now ≡ self.now.states }
    {
        &self.states
    }

    // Whether the net is not met yet.
    pub(crate) fn is_new(&self, net: NetId) -> bool
        requires { net.0 < length self.now.states }
        ensures { result ≡ is_new (slice_get self.now.states net.0) }
    {
        matches!(self.states[net.0 as usize], State::New)
    }

    // Whether the net is on the walk.
    pub(crate) fn is_walked(&self, net: NetId) -> bool
        requires { net.0 < length self.now.states }
        ensures { result ≡ is_walked (slice_get self.now.states net.0) }
    {
        matches!(self.states[net.0 as usize], State::Walked)
    }

    // The last net of the walk.
    pub(crate) fn top(&self) -> Option<NetId>
        ensures { result ≡ top_of self.now.walk }
    {
        self.walk.last().copied()
    }

    // The walk goes on to this net.
    pub(crate) fn enter(&mut self, net: NetId) -> Result<(), AllocError>
        requires { net.0 < length self.old.states }
        ensures { OnOk result (self.new ≡ entered self.old net) }
    {
        self.states[net.0 as usize] = State::Walked;
        self.walk.push(net)?;
        Ok(())
    }

    // The walk goes back from its last net, which comes next in the order.
    pub(crate) fn leave(&mut self, net: NetId) -> Result<(), AllocError>
        requires { net.0 < length self.old.states }
        ensures { OnOk result (self.new ≡ left self.old net) }
    {
        self.states[net.0 as usize] = State::Placed;
        self.order.push(net)?;
        let _ = self.walk.pop();
        Ok(())
    }

    // The order.
    pub(crate) fn into_order(self) -> Vec<NetId>
        ensures { result.items ≡ self.order }
    {
        let Progress {
            states: _,
            order,
            walk: _,
        } = self;
        order
    }
}
