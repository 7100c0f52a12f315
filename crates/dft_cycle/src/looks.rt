//! Looks: nets whose values are asked for, and what they are settled from, kept for when they are asked for again.

ghost use Rattle.std.specs.Prelude.{◌≡◌, ℕ, ◌<◌, ◌≤◌, length, take, true, false, IfSome};
ghost use Rattle.std.specs.Vec.{vec_capacity};
ghost use Rattle.dft_netlist.specs.Orders.{Has, numbers_of};
ghost use Rattle.dft_logic.specs.Values as spec;
ghost use Rattle.dft_logic.specs.Circuit.{logic_at, flag_at as is_up};
ghost use Rattle.dft_takings.specs.Needs.{AreSeen};
ghost use Rattle.dft_cycle.specs.Plans.{IsNeedList};
ghost use Rattle.dft_cycle.specs.Looks.{IsLook, IsListed, IsAt};

use crate::phases::Strobe;
use crate::steps::{Step, list_steps, strobe_steps};
use dft_base::Tri;
use dft_logic::Circuit;
use dft_netlist::NetId;
use dft_takings::{list_marked, lower, mark_needed, mark_nets, read_list};

// The nets that are asked for; and once they were asked for again, how what they are settled from gets its values.
#[derive(Drop)]
pub(crate) struct Look {
    pub made: bool,
    pub nets: Vec<NetId>,
    pub steps: Vec<Step>,
}

// Whether these are the same nets.
fn same_nets(one: &[NetId], other: &[NetId]) -> bool
    ensures { result ≡ true → one.now ≡ other.now }
{
    if one.len() != other.len() {
        return false;
    }
    for (place, net) in one.iter().enumerate() {
        if net.0 != other[place].0 {
            return false;
        }
    }
    true
}

// Copies nets into a list that has room for them.
fn copy_nets(nets: &[NetId], list: &mut Vec<NetId>)
    requires { length nets.now ≤ vec_capacity list.old }
    ensures copied { list.new.items ≡ nets.now }
    ensures room { vec_capacity list.new ≡ vec_capacity list.old }
{
    list.clear();
    for net in nets {
        list.push_reserved(*net);
    }
}

// The place of the look at these nets.
pub(crate) fn find_look(looks: &[Look], nets: &[NetId]) -> Option<usize>
    ensures { IfSome result (λ place. IsAt looks.now place nets.now) }
{
    for (place, look) in looks.iter().enumerate() {
        if same_nets(&look.nets, nets) {
            return Some(place);
        }
    }
    None
}

// Lists what nets are settled from, at the front of a list: how many.
fn list_sources(circuit: &Circuit, nets: &[NetId], marked: &mut [bool], list: &mut [NetId]) -> usize
    requires marked { length marked.old ≡ length circuit.now.ops }
    requires list { length list.old ≡ length circuit.now.ops }
    ensures room { result ≤ length list.new }
    ensures list { IsNeedList circuit.now marked.new (take result list.new) }
    ensures all { (k : ℕ) → k < length circuit.now.ops → Has (numbers_of nets.now) k → is_up marked.new k ≡ true }
{
    mark_nets(nets, marked);
    mark_needed(circuit, marked);
    list_marked(circuit, marked, list)
}

impl Look {
    // Notes the nets that are asked for, if there is room for so many.
    pub(crate) fn note(&mut self, circuit: &Circuit, nets: &[NetId])
        requires look { IsLook circuit.now self.old }
        ensures look { IsLook circuit.now self.new }
    {
        if nets.len() <= circuit.ops.len() {
            self.made = false;
            copy_nets(nets, &mut self.nets);
        }
    }

    // Lists what its nets are settled from.
    fn make(&mut self, circuit: &Circuit, marked: &mut [bool], list: &mut [NetId])
        requires marked { length marked.old ≡ length circuit.now.ops }
        requires look { IsLook circuit.now self.old }
        requires list { length list.old ≡ length circuit.now.ops }
        ensures look { IsLook circuit.now self.new }
        ensures made { IsListed circuit.now self.new }
        ensures nets { self.new.nets ≡ self.old.nets }
        ensures clear { (k : ℕ) → is_up marked.new k ≡ false }
    {
        let count = list_sources(circuit, &self.nets, marked, list);
        list_steps(circuit, &list[..count], &mut self.steps);
        self.made = true;
        lower(marked);
    }

    // Reads the values of its nets at a strobe.
    fn read(&self, strobe: Strobe<'_>, values: &mut [Tri], row: &mut [Tri])
        requires values { length values.old ≡ length strobe.circuit.now.ops }
        requires look { IsLook strobe.circuit.now self.now }
        requires listed { IsListed strobe.circuit.now self.now }
        requires row { length row.old ≡ length self.now.nets.items }
        ensures { AreSeen (logic_at strobe.entry.circuit.now) (spec.value_at strobe.entry.ports.now) (spec.value_at strobe.entry.cells.now.values) self.now.nets.items row.new }
    {
        let circuit = strobe.circuit;
        circuit.soundness();
        strobe_steps(circuit, strobe.ports, strobe.cells, &self.steps, values);
        read_list(&self.nets, values, row);
    }

    // Reads the values of its nets at a strobe; what they are settled from is listed first, if it is not.
    pub(crate) fn see(
        &mut self,
        strobe: Strobe<'_>,
        values: &mut [Tri],
        marked: &mut [bool],
        list: &mut [NetId],
        row: &mut [Tri],
    )
        requires look { IsLook strobe.circuit.now self.old }
        requires list { length list.old ≡ length strobe.circuit.now.ops }
        requires values { length values.old ≡ length strobe.circuit.now.ops }
        requires marked { length marked.old ≡ length strobe.circuit.now.ops }
        requires clear { (k : ℕ) → is_up marked.old k ≡ false }
        requires row { length row.old ≡ length self.old.nets.items }
        ensures look { IsLook strobe.entry.circuit.now self.new }
        ensures clear { (k : ℕ) → is_up marked.new k ≡ false }
        ensures seen { AreSeen (logic_at strobe.entry.circuit.now) (spec.value_at strobe.entry.ports.now) (spec.value_at strobe.entry.cells.now.values) self.old.nets.items row.new }
    {
        if !self.made {
            self.make(strobe.circuit, marked, list);
        }
        self.read(strobe, values, row);
    }
}
