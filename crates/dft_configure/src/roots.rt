//! The scan clocks and the resets of a netlist.

ghost use Rattle.std.specs.Prelude.{◌≡◌, IfOk};
ghost use Rattle.dft_configure.specs.Found.{AreChosen};

use crate::choosing::most_used;
use crate::opening::{Tables, open_clocks, open_resets};
use dft_netlist::{Design, NetId};
use std::alloc::{AllocError, Global};

/// The scan clocks and the resets of a netlist, by the nets of their ports' bits, in the order of the ports.
#[derive(Debug, Drop)]
pub struct Roots {
    /// The clocks, at most 16.
    pub domains: Vec<NetId>,
    /// The resets, at most 16.
    pub resets: Vec<NetId>,
}

/// The scan clocks and the resets of a netlist. A flip-flop is open where it has a scan cell, its clock shows an input port's bit or its
/// inverse that no instance takes as data, and its reset and its set trace to input ports or to constant 1. The clocks are those of open
/// flip-flops, and the resets those of open flip-flops with these clocks; of more than 16, the most used ones, and of two that are used
/// as much the one that comes first.
#[tactic(auto, unfolding(crate::specs::Roots::domains_of, crate::specs::Roots::resets_of))]
pub fn roots_of(alloc: Global, design: &Design) -> Result<Roots, AllocError>
    ensures { IfOk result (AreChosen design.now) }
{
    let nets = design.net_count() as usize;
    let tables = Tables::of(alloc, design)?;
    let clocks = open_clocks(alloc, design, &tables)?;
    let domains = most_used(alloc, &clocks, nets)?;
    let resets = open_resets(alloc, design, &tables, &domains, &clocks)?;
    Ok(Roots {
        resets: most_used(alloc, &resets, nets)?,
        domains,
    })
}
