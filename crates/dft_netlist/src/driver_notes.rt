ghost use Rattle.std.specs.Prelude.{◌≡◌, ◌<◌, ◌≤◌, length, None, Some, replicate, IfOk};
ghost use Rattle.dft_netlist.specs.declared.net_driver.NetDriver.TheVariants.{Nothing};
ghost use Rattle.dft_netlist.specs.Notes.{noted, least_net};

use crate::ids::NetId;
use crate::net_driver::NetDriver;
use std::alloc::{AllocError, Global};
use std::marker::Model;

// What drives each net first, and the least net that is driven again.
#[derive(Debug)]
pub(crate) struct DriverNotes {
    found: Vec<NetDriver>,
    clash: Option<NetId>,
}

// One call for all fields, so that the proof of what owns a value stays short.
impl Drop for DriverNotes {
    fn drop(self) {
        let DriverNotes { found: _, clash: _ } = self;
    }
}

impl Model for DriverNotes {
    ghost use Rattle.dft_netlist.specs.Notes.{Notes};

    ghost Value = { Notes };

    ghost use Rattle.dft_netlist.specs.NotesShown.{notes_of};

    ghost view = { notes_of };
}

impl DriverNotes {
    // Nothing drives any of so many nets.
    pub(crate) fn new(alloc: Global, count: usize) -> Result<DriverNotes, AllocError>
        ensures { IfOk result (λ notes. notes ≡ record { found = replicate count Nothing; clash = None }) }
    {
        let found = vec![in alloc; NetDriver::Nothing; count]?;
        Ok(DriverNotes { found, clash: None })
    }

    // Notes that this drives a net.
    pub(crate) fn note(&mut self, net: NetId, by: NetDriver)
        requires { net.0 < length self.old.found }
        ensures { self.new ≡ noted self.old (net, by) }
    {
        let at = net.0 as usize;
        match self.found[at] {
            NetDriver::Nothing => self.found[at] = by,
            _ => self.clash = Some(least(self.clash, net)),
        }
    }

    // The least net that is driven again, if there is one.
    pub(crate) fn clash(&self) -> Option<NetId>
        ensures { result ≡ self.now.clash }
    {
        self.clash
    }

    // What drives each net.
    pub(crate) fn into_found(self) -> Vec<NetDriver>
        ensures { result.items ≡ self.found }
    {
        let DriverNotes { found, clash: _ } = self;
        found
    }
}

// The lesser of two nets, where there are two.
fn least(other: Option<NetId>, net: NetId) -> NetId
    ensures { Some result ≡ least_net other net }
{
    match other {
        Some(other) if other.0 <= net.0 => other,
        _ => net,
    }
}
