//! What a node of a search is.

ghost use Rattle.std.specs.Prelude.{◌≡◌, ◌||◌, ◌⊎◌, ℕ, ◌<◌, ◌^◌, false, length};
ghost use Rattle.std.specs.List.{list_all, list_any};
ghost use Rattle.dft_netlist.specs.Orders.{Has};
ghost use Rattle.dft_logic.specs.Circuit.{flag_at};
ghost use Rattle.dft_logic.specs.Values as values_of;
ghost use Rattle.dft_sweep.specs.Places.{AreBusy};
ghost use Rattle.dft_sweep.specs.Fields.{IsGivenIf};
ghost use Rattle.dft_seek.specs.Nodes as spec;
ghost use Rattle.dft_seek.specs.Nodes.{AreSettledFor, IsNear, IsSettled};
ghost use Rattle.dft_seek.specs.Pins.{next_by, pins_at};
ghost use Rattle.dft_seek.specs.Rigs.{IsRig, means_of};
ghost use Rattle.dft_seek.specs.Searches as searches;
ghost use Rattle.dft_seek.specs.Trees as trees;

use crate::cones::Cone;
use crate::pins::Pins;
use crate::rig::Rig;
use dft_base::Tri;
use dft_faults::Fault;
use dft_logic::{flag_at, list_of, value_at};
use dft_netlist::{InstanceId, NetId};
use dft_sweep::{Field, Marks, Sources, Stuck, settle};

// What a node is: found, dead, or one that the search goes on from.
#[derive(Clone, Copy)]
pub(crate) enum Verdict {
    Found,
    Dead,
    Open,
}

// The values of nets, and which of them are marked because they may lack theirs: none between nodes.
pub(crate) struct Table {
    pub values: Vec<Tri>,
    pub marks: Marks,
}

// One call for all fields, so that the proof of what owns a value stays short.
impl Drop for Table {
    fn drop(self) {
        let Table {
            values: _,
            marks: _,
        } = self;
    }
}

// The values of a node: those of cells and of ports, those of cells after the clock has risen, and those of nets in the design
// and in the design with the fault, before the clock rises and before it falls.
pub(crate) struct Values {
    pub cells: Vec<Tri>,
    pub ports: Vec<Tri>,
    pub risen: Vec<Tri>,
    pub good: Table,
    pub bad: Table,
    pub good_after: Table,
    pub bad_after: Table,
}

// One call for all fields, so that the proof of what owns a value stays short.
impl Drop for Values {
    fn drop(self) {
        let Values {
            cells: _,
            ports: _,
            risen: _,
            good: _,
            bad: _,
            good_after: _,
            bad_after: _,
        } = self;
    }
}

// ---- values

// Whether two values are known and differ.
fn differ(one: Tri, other: Tri) -> bool
    ensures { result ≡ searches.differ one other }
{
    match (one, other) {
        (Tri::Zero, Tri::One) | (Tri::One, Tri::Zero) => true,
        _ => false,
    }
}

// Whether two values are known and the same.
fn agree(one: Tri, other: Tri) -> bool
    ensures { result ≡ searches.agree one other }
{
    match (one, other) {
        (Tri::Zero, Tri::Zero) | (Tri::One, Tri::One) => true,
        _ => false,
    }
}

// How two values compare: whether both are known and differ, and whether both are known and agree.
#[derive(Clone, Copy)]
struct Compared {
    differs: bool,
    agrees: bool,
}

fn compare(one: Tri, other: Tri) -> Compared
    ensures differs { result.differs ≡ searches.differ one other }
    ensures agrees { result.agrees ≡ searches.agree one other }
{
    Compared {
        differs: differ(one, other),
        agrees: agree(one, other),
    }
}

// Whether a value is known to be this bit.
fn is_bit(bit: bool, value: Tri) -> bool
    ensures { result ≡ trees.is_bit bit value }
{
    match (bit, value) {
        (false, Tri::Zero) | (true, Tri::One) => true,
        _ => false,
    }
}

// The next value of the flip-flop of an instance.
fn next_at(pins: &[Pins], cell: u32, values: &[Tri]) -> Tri
    ensures { result ≡ next_by (pins_at pins.now cell) (values_of.value_at values.now) }
{
    match pins.get(cell as usize) {
        Some(pins) => pins.next(values),
        None => Tri::Unknown,
    }
}

// ---- points

// What is read of a design at a node: the values of its nets before the clock rises and before it falls.
#[derive(Clone, Copy)]
pub(crate) struct Sight<'a> {
    pub first: &'a [Tri],
    pub second: &'a [Tri],
}

impl Rig<'_> {
    // What a cell captures.
    fn captured(&self, cell: InstanceId, sight: &Sight<'_>) -> Tri
        ensures { result ≡ spec.captured_at self.now sight.now.first.now sight.now.second.now cell.0 }
    {
        if flag_at(&self.falls, cell.0) {
            next_at(&self.pins, cell.0, sight.second)
        } else {
            next_at(&self.pins, cell.0, sight.first)
        }
    }

    // How the designs compare at a cell. What the faulty one captures is not asked where the other captures an unknown.
    fn compare_cell(&self, cell: InstanceId, good: &Sight<'_>, bad: &Sight<'_>) -> Compared
        ensures differs { result.differs ≡ searches.differ (spec.captured_at self.now good.now.first.now good.now.second.now cell.0) (spec.captured_at self.now bad.now.first.now bad.now.second.now cell.0) }
        ensures agrees { result.agrees ≡ searches.agree (spec.captured_at self.now good.now.first.now good.now.second.now cell.0) (spec.captured_at self.now bad.now.first.now bad.now.second.now cell.0) }
    {
        let value = self.captured(cell, good);
        match value {
            Tri::Unknown => Compared {
                differs: false,
                agrees: false,
            },
            Tri::Zero | Tri::One => compare(value, self.captured(cell, bad)),
        }
    }

    // Whether the designs differ at a cell, and if at none, whether they agree at all.
    fn compare_cells(&self, cells: &[InstanceId], good: &Sight<'_>, bad: &Sight<'_>) -> Compared
        ensures differs { result.differs ≡ list_any (λ cell. searches.differ (spec.captured_at self.now good.now.first.now good.now.second.now cell.0) (spec.captured_at self.now bad.now.first.now bad.now.second.now cell.0)) cells.now }
        ensures agrees { result.differs ≡ false → result.agrees ≡ list_all (λ cell. searches.agree (spec.captured_at self.now good.now.first.now good.now.second.now cell.0) (spec.captured_at self.now bad.now.first.now bad.now.second.now cell.0)) cells.now }
    {
        let mut agrees = true;
        for cell in cells {
            let here = self.compare_cell(*cell, good, bad);
            if here.differs {
                return here;
            }
            agrees = agrees && here.agrees;
        }
        Compared {
            differs: false,
            agrees,
        }
    }
}

// Whether the designs differ at a net, and if at none, whether they agree at all.
fn compare_nets(nets: &[NetId], good: &[Tri], bad: &[Tri]) -> Compared
    ensures differs { result.differs ≡ list_any (λ net. searches.differ (values_of.value_at good.now net.0) (values_of.value_at bad.now net.0)) nets.now }
    ensures agrees { result.differs ≡ false → result.agrees ≡ list_all (λ net. searches.agree (values_of.value_at good.now net.0) (values_of.value_at bad.now net.0)) nets.now }
{
    let mut agrees = true;
    for net in nets {
        let here = compare(value_at(good, net.0), value_at(bad, net.0));
        if here.differs {
            return here;
        }
        agrees = agrees && here.agrees;
    }
    Compared {
        differs: false,
        agrees,
    }
}

// ---- the verdict

// What a node is, by whether a point detects the fault and whether the search ends there.
fn verdict_of(found: bool, dead: bool) -> Verdict
    ensures { spec.verdict result ≡ trees.verdict_of found dead }
{
    if found {
        Verdict::Found
    } else if dead {
        Verdict::Dead
    } else {
        Verdict::Open
    }
}

impl Rig<'_> {
    // Whether the stuck net is known to have the fault's value.
    fn stays(&self, fault: Fault, good: &Sight<'_>) -> bool
        ensures { result ≡ spec.stays_at self.now fault good.now.first.now good.now.second.now }
    {
        is_bit(fault.value, value_at(good.first, fault.net.0))
            && (!self.any_falls || is_bit(fault.value, value_at(good.second, fault.net.0)))
    }

    // Whether a point detects the fault, and if none does, whether all agree.
    fn compare_points(&self, cone: &Cone, good: &Sight<'_>, bad: &Sight<'_>) -> Compared
        ensures differs { result.differs ≡ spec.found_at self.now cone.now good.now.first.now good.now.second.now bad.now.first.now bad.now.second.now }
        ensures agrees { result.differs ≡ false → result.agrees ≡ spec.same_at self.now cone.now good.now.first.now good.now.second.now bad.now.first.now bad.now.second.now }
    {
        let outputs = compare_nets(&cone.outputs, good.first, bad.first);
        if outputs.differs {
            return outputs;
        }
        let cells = self.compare_cells(&cone.responses, good, bad);
        Compared {
            differs: cells.differs,
            agrees: outputs.agrees && cells.agrees,
        }
    }

    // What a node is, by what is read at it, and whether every variable has a bit there.
    pub(crate) fn verdict(
        &self,
        fault: Fault,
        cone: &Cone,
        whole: bool,
        good: &Sight<'_>,
        bad: &Sight<'_>,
    ) -> Verdict
        ensures { spec.verdict result ≡ trees.verdict_of (spec.found_at self.now cone.now good.now.first.now good.now.second.now bad.now.first.now bad.now.second.now) (spec.stays_at self.now fault good.now.first.now good.now.second.now || (spec.same_at self.now cone.now good.now.first.now good.now.second.now bad.now.first.now bad.now.second.now || whole)) }
    {
        let points = self.compare_points(cone, good, bad);
        let dead = self.stays(fault, good) || (points.agrees || whole);
        verdict_of(points.differs, dead)
    }
}

// ---- the values of a node

impl Rig<'_> {
    // The values of cells after the clock has risen.
    pub(crate) fn rise(&self, cells: &[Tri], values: &[Tri], risen: &mut [Tri])
        requires { length risen.old < 2 ^ 32 }
        ensures size { length risen.new ≡ length risen.old }
        ensures each { (c : ℕ) → c < length risen.old → values_of.value_at risen.new c ≡ spec.risen_at self.now cells.now values.now c }
    {
        for cell in 0..risen.len() {
            risen[cell] = self.risen(cells, values, cell as u32);
        }
    }

    // The value of a cell after the clock has risen.
    fn risen(&self, cells: &[Tri], values: &[Tri], cell: u32) -> Tri
        ensures { result ≡ spec.risen_at self.now cells.now values.now cell }
    {
        if flag_at(&self.rises, cell) {
            next_at(&self.pins, cell, values)
        } else {
            value_at(cells, cell)
        }
    }

    // Settles a table of the design, with a stuck net if there is one, at the nets that the cone needs, for these values of ports
    // and cells, where no other of them than these and the marked ones lacks its value.
    pub(crate) fn settle_nets(
        &self,
        cone: &Cone,
        stuck: Option<Stuck>,
        nets: &[u32],
        ports: &[Tri],
        cells: &[Tri],
        table: &mut Table,
    )
        requires rig { IsRig self.now }
        requires live { (k : ℕ) → Has nets.now k → k < length self.now.circuit.ops }
        requires values { length table.old.values.items ≡ length self.now.design.now.nets }
        requires marked { length table.old.marks.marked.items ≡ length self.now.design.now.nets }
        requires busy { AreBusy self.now.places.items table.old.marks }
        requires near { (k : ℕ) → flag_at table.old.marks.marked.items k ≡ false → Has nets.now k ⊎ IsGivenIf cone.now.needed.items (means_of self.now.circuit stuck) (spec.sources_in self.now (values_of.value_at ports.now) (values_of.value_at cells.now)) table.old.values.items k }
        ensures table { IsSettled self.now cone.now.needed.items stuck table.new }
        ensures given { AreSettledFor self.now cone.now.needed.items stuck (values_of.value_at ports.now) (values_of.value_at cells.now) table.new.values.items }
    {
        let field = Field {
            circuit: &self.circuit,
            places: &self.places,
            needed: &cone.needed,
            stuck,
            sources: Sources {
                ports,
                resets: &self.resets,
                cells,
                holds: &self.holds,
            },
        };
        settle(&field, nets, &mut table.values, &mut table.marks);
    }

    // Settles a table that is near its values.
    pub(crate) fn settle(
        &self,
        cone: &Cone,
        stuck: Option<Stuck>,
        ports: &[Tri],
        cells: &[Tri],
        table: &mut Table,
    )
        requires rig { IsRig self.now }
        requires near { IsNear self.now cone.now.needed.items stuck table.old }
        ensures table { IsSettled self.now cone.now.needed.items stuck table.new }
        ensures given { AreSettledFor self.now cone.now.needed.items stuck (values_of.value_at ports.now) (values_of.value_at cells.now) table.new.values.items }
    {
        let circuit = &self.circuit;
        let nets = list_of(&circuit.sources, NetId(0));
        self.settle_nets(cone, stuck, nets, ports, cells, table);
    }
}
