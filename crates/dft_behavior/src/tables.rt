//! The roots of all nets, in one pass over an order of the nets.

ghost use Rattle.std.specs.Prelude.{◌≡◌, IfOk};
ghost use Rattle.dft_behavior.specs.RootTables as tables;
ghost use Rattle.dft_behavior.specs.RootTables.{AreRoots, net_root_among};
ghost use Rattle.dft_behavior.specs.Roots.{shown_net_root};
ghost use Rattle.dft_behavior.specs.WalkSteps.{after_step};

use crate::root::{ClockRoot, NetRoot, Root};
use crate::walk_steps::{Step, step_back, turned};
use dft_netlist::{Design, NetId, Signal};
use std::alloc::{AllocError, Global};

/// The root of each net, by the nets' numbers: where a walk back from it through buffers, joins and inverters leads. It
/// takes time linear in the nets.
pub fn find_roots(alloc: Global, design: &Design) -> Result<Vec<NetRoot>, AllocError>
    ensures { IfOk result (λ roots. AreRoots design.now roots.items) }
{
    let mut roots = vec![in alloc; NetRoot::Other; design.net_count() as usize]?;
    for net in design.order() {
        let root = root_after(&roots, step_back(design, *net));
        roots[net.0 as usize] = root;
    }
    Ok(roots)
}

// The root of a net that is not told is none.
fn root_of(roots: &[NetRoot], net: NetId) -> NetRoot
    ensures { result ≡ tables.root_at roots.now net.0 }
{
    match roots.get(net.0 as usize) {
        Some(root) => *root,
        None => NetRoot::Other,
    }
}

// The root behind a step, by the roots of the nets.
fn root_after(roots: &[NetRoot], step: Step) -> NetRoot
    ensures { shown_net_root result ≡ after_step (net_root_among roots.now) step }
{
    match step {
        Step::Back(from, turns) => turned(turns, root_of(roots, from)),
        Step::End(root) => root,
    }
}

/// Where what a pin is joined to traces to, through buffers and joins, by the roots of the nets.
pub fn root_in(roots: &[NetRoot], signal: Signal) -> Root
    ensures { result ≡ tables.root_in roots.now signal }
{
    match signal {
        Signal::Net(net) => root_of(roots, net).traced(),
        Signal::Constant(bit) => Root::Constant(bit),
        Signal::Unconnected => Root::Other,
    }
}

/// The clock that a pin's signal shows, through buffers, joins and inverters, by the roots of the nets.
pub fn clock_in(roots: &[NetRoot], signal: Signal) -> Option<ClockRoot>
    ensures { result ≡ tables.clock_in roots.now signal }
{
    match signal {
        Signal::Net(net) => root_of(roots, net).clock(),
        Signal::Constant(_) | Signal::Unconnected => None,
    }
}
