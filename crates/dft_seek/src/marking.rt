//! Nets that are marked, and walks from marked nets.

ghost use Rattle.std.specs.Prelude.{◌≡◌, ◌∷◌, [], ℕ, ◌<◌, ◌≤◌, length, true, false};
ghost use Rattle.std.specs.List.{list_any};
ghost use Rattle.dft_netlist.specs.Orders.{Has, numbers_of};
ghost use Rattle.dft_logic.specs.Circuit.{flag_at as is_up};
ghost use Rattle.dft_seek.specs.Marks.{Draws, IsDrawn, IsSpread, Raises, Spreads, steps_at};

use dft_base::Listed;
use dft_logic::flag_at;
use dft_netlist::NetId;

// The nets in their order, and by net the nets from which a walk goes on to it.
#[derive(Clone, Copy)]
pub(crate) struct Paths<'a> {
    pub order: &'a [NetId],
    pub steps: &'a [Listed<NetId>],
}

impl Paths<'_> {
    // The nets from which a walk goes on to a net.
    fn steps(&self, net: NetId) -> &[NetId]
        ensures { numbers_of result.now ≡ steps_at self.now.steps.now net.0 }
    {
        match self.steps.get(net.0 as usize) {
            Some(steps) => steps.as_slice(),
            None => &[],
        }
    }
}

// Marks a net, if it is there. Whether it was not marked before.
#[tactic(auto, using(crate::proofs::MarkLemmas::raise_none))]
fn raise(marked: &mut [bool], net: NetId) -> bool
    ensures { Raises marked.old marked.new (net.0 ∷ []) result }
{
    if (net.0 as usize) >= marked.len() || marked[net.0 as usize] {
        return false;
    }
    marked[net.0 as usize] = true;
    true
}

// Marks these nets. Whether one was not marked before.
pub(crate) fn raise_all(marked: &mut [bool], nets: &[NetId]) -> bool
    ensures { Raises marked.old marked.new (numbers_of nets.now) result }
{
    let mut any = false;
    for net in nets {
        let fresh = raise(marked, *net);
        any = any || fresh;
    }
    any
}

// Whether one of these nets is marked.
fn is_any_marked(marked: &[bool], nets: &[NetId]) -> bool
    ensures { result ≡ list_any (λ net. is_up marked.now net.0) nets.now }
{
    nets.iter().any(|net| flag_at(marked, net.0))
}

// The same, by the numbers of the nets.
pub(crate) fn any_marked(marked: &[bool], nets: &[NetId]) -> bool
    ensures { result ≡ list_any (is_up marked.now) (numbers_of nets.now) }
{
    is_any_marked(marked, nets)
}

// Marks a net where a walk goes on to it from a marked one. Whether it was not marked before.
fn spread_to(paths: &Paths<'_>, net: NetId, marked: &mut [bool]) -> bool
    ensures { Spreads (steps_at paths.now.steps.now) (net.0 ∷ []) marked.old marked.new result }
{
    if !any_marked(marked, paths.steps(net)) {
        return false;
    }
    raise(marked, net)
}

// Marks nets in their order where a walk goes on to them from marked ones. Whether one was not marked before.
fn spread(paths: &Paths<'_>, marked: &mut [bool]) -> bool
    ensures { Spreads (steps_at paths.now.steps.now) (numbers_of paths.now.order.now) marked.old marked.new result }
{
    let mut any = false;
    for net in paths.order {
        let fresh = spread_to(paths, *net, marked);
        any = any || fresh;
    }
    any
}

// Marks all nets to which walks lead from marked ones.
pub(crate) fn spread_all(paths: &Paths<'_>, marked: &mut [bool])
    ensures { IsSpread (steps_at paths.now.steps.now) (numbers_of paths.now.order.now) marked.old marked.new }
{
    for _round in 0..marked.len() + 1 {
        if !spread(paths, marked) {
            return;
        }
    }
}

// Marks the nets from which a walk goes on to a net, if it is marked. Whether one was not marked before.
fn draw_from(paths: &Paths<'_>, net: NetId, marked: &mut [bool]) -> bool
    ensures { Draws (steps_at paths.now.steps.now) (net.0 ∷ []) marked.old marked.new result }
{
    if !flag_at(marked, net.0) {
        return false;
    }
    raise_all(marked, paths.steps(net))
}

// Marks the nets from which walks go on to marked ones, from the last in the order on. Whether one was not marked before.
fn draw(paths: &Paths<'_>, marked: &mut [bool]) -> bool
    ensures { Draws (steps_at paths.now.steps.now) (numbers_of paths.now.order.now) marked.old marked.new result }
{
    let mut any = false;
    for place in (0..paths.order.len()).rev() {
        let fresh = draw_from(paths, paths.order[place], marked);
        any = any || fresh;
    }
    any
}

// Marks all nets from which walks lead to marked ones.
pub(crate) fn draw_all(paths: &Paths<'_>, marked: &mut [bool])
    ensures { IsDrawn (steps_at paths.now.steps.now) (numbers_of paths.now.order.now) marked.old marked.new }
{
    for _round in 0..marked.len() + 1 {
        if !draw(paths, marked) {
            return;
        }
    }
}
