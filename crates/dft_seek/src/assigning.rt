//! The values that nodes give cells and ports, one after another.

ghost use Rattle.std.specs.Prelude.{◌≡◌, ◌∷◌, [], ◌++◌, ℕ, ◌<◌, Bool, Some, drop, length, vec_capacity};
ghost use Rattle.dft_base.specs.declared.tri.Tri.TheVariants.{Unknown};
ghost use Rattle.dft_netlist.specs.Orders.{Has};
ghost use Rattle.dft_faults.specs.declared.fault.Fault.{Fault as FaultOf};
ghost use Rattle.dft_seek.specs.Assigned.{IsPut, value_or};
ghost use Rattle.dft_seek.specs.Cones.{AreOnce};
ghost use Rattle.dft_seek.specs.Nodes as spec;
ghost use Rattle.dft_seek.specs.Nodes.{AreAt, AreMarkable, AreOpen};
ghost use Rattle.dft_seek.specs.Rigs.{IsRig};

use crate::cones::Cone;
use crate::looking::Values;
use crate::rig::Rig;
use crate::showing::showing_of;
use dft_base::Tri;
use dft_netlist::{InstanceId, NetId};
use dft_sweep::mark_all;

// The value of a bit.
fn known(bit: bool) -> Tri
    ensures { result ≡ value_or (Some bit) Unknown }
{
    if bit { Tri::One } else { Tri::Zero }
}

// Gives a place a value, if it is there.
fn put(values: &mut [Tri], place: u32, value: Tri)
    ensures { IsPut values.old values.new place value }
{
    if (place as usize) < values.len() {
        values[place as usize] = value;
    }
}

// The bits from a place on.
pub(crate) fn rest(bits: &[bool], from: usize) -> &[bool]
    ensures { result.now ≡ drop from bits.now }
{
    if from < bits.len() {
        &bits[from..]
    } else {
        &[]
    }
}

impl Rig<'_> {
    // Marks nets that are needed in the values before the clock rises.
    fn mark(&self, cone: &Cone, nets: &[u32], v: &mut Values)
        requires live { (k : ℕ) → Has nets.now k → k < length self.now.design.now.nets }
        requires marks { AreMarkable self.now v.old }
        ensures { spec.AreMarked self.now cone.now.needed.items nets.now v.old v.new }
    {
        mark_all(&self.places, &cone.needed, nets, &mut v.good.marks);
        mark_all(&self.places, &cone.needed, nets, &mut v.bad.marks);
    }

    // Gives a cell a value.
    fn give_cell(&self, cone: &Cone, cell: InstanceId, value: Tri, v: &mut Values)
        requires rig { IsRig self.now }
        requires marks { AreMarkable self.now v.old }
        ensures marks { AreMarkable self.now v.new }
        ensures opens { (f : FaultOf) → AreOpen self.now f cone.now.needed.items v.old → AreOpen self.now f cone.now.needed.items v.new }
        ensures cells { IsPut v.old.cells.items v.new.cells.items cell.0 value }
        ensures ports { v.new.ports ≡ v.old.ports }
    {
        put(&mut v.cells, cell.0, value);
        self.mark(cone, showing_of(&self.showing, cell), v);
    }

    // Gives a port a value.
    fn give_port(&self, cone: &Cone, net: NetId, value: Tri, v: &mut Values)
        requires rig { IsRig self.now }
        requires live { net.0 < length self.now.design.now.nets }
        requires marks { AreMarkable self.now v.old }
        ensures marks { AreMarkable self.now v.new }
        ensures opens { (f : FaultOf) → AreOpen self.now f cone.now.needed.items v.old → AreOpen self.now f cone.now.needed.items v.new }
        ensures ports { IsPut v.old.ports.items v.new.ports.items net.0 value }
        ensures cells { v.new.cells ≡ v.old.cells }
    {
        put(&mut v.ports, net.0, value);
        self.mark(cone, &[net.0], v);
    }

    // Gives the variable at a place a value, if there is one.
    fn give(&self, cone: &Cone, place: usize, value: Tri, v: &mut Values)
        requires rig { IsRig self.now }
        requires once { AreOnce self.now cone.now }
        requires marks { AreMarkable self.now v.old }
        ensures marks { AreMarkable self.now v.new }
        ensures opens { (f : FaultOf) → AreOpen self.now f cone.now.needed.items v.old → AreOpen self.now f cone.now.needed.items v.new }
        ensures given { spec.IsGivenAt cone.now place value v.old v.new }
    {
        if place < cone.cells.len() {
            self.give_cell(cone, cone.cells[place], value, v);
        } else if place - cone.cells.len() < cone.ports.len() {
            self.give_port(cone, cone.ports[place - cone.cells.len()], value, v);
        }
    }

    // Goes on from the node of these bits by one bit more.
    pub(crate) fn extend(&self, cone: &Cone, bits: &mut Vec<bool>, bit: bool, v: &mut Values)
        requires rig { IsRig self.now }
        requires once { AreOnce self.now cone.now }
        requires room { length bits.old.items < vec_capacity bits.old }
        requires marks { AreMarkable self.now v.old }
        requires at { AreAt cone.now bits.old.items v.old }
        ensures opens { (f : FaultOf) → AreOpen self.now f cone.now.needed.items v.old → AreOpen self.now f cone.now.needed.items v.new }
        ensures at { AreAt cone.now bits.new.items v.new }
        ensures bits { bits.new.items ≡ bits.old.items ++ bit ∷ [] }
        ensures room { vec_capacity bits.new ≡ vec_capacity bits.old }
    {
        self.give(cone, bits.len(), known(bit), v);
        bits.push_reserved(bit);
    }

    // Goes back from the node of these bits and one more, which has been taken away.
    pub(crate) fn shorten(&self, cone: &Cone, bits: &[bool], v: &mut Values)
        requires rig { IsRig self.now }
        requires once { AreOnce self.now cone.now }
        requires marks { AreMarkable self.now v.old }
        ensures marks { AreMarkable self.now v.new }
        ensures opens { (f : FaultOf) → AreOpen self.now f cone.now.needed.items v.old → AreOpen self.now f cone.now.needed.items v.new }
        ensures at { (bit : Bool) → AreAt cone.now (bits.now ++ bit ∷ []) v.old → AreAt cone.now bits.now v.new }
    {
        self.give(cone, bits.len(), Tri::Unknown, v);
    }
}
