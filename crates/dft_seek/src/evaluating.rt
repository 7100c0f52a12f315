//! The values of nodes, one node after another.

ghost use Rattle.std.specs.Prelude.{◌≡◌, ◌<◌, ℕ, Bool, List, [], None, true, IfOk, length};
ghost use Rattle.dft_base.specs.declared.tri.Tri.TheVariants.{Unknown};
ghost use Rattle.dft_faults.specs.Faulty.{IsFault};
ghost use Rattle.dft_logic.specs.Values as values_of;
ghost use Rattle.dft_seek.specs.Cones.{AreNeeded, AreTaking, cone_of};
ghost use Rattle.dft_seek.specs.declared.cones.Cone.{Cone as ConeOf};
ghost use Rattle.dft_seek.specs.Nodes as spec;
ghost use Rattle.dft_seek.specs.Nodes.{AreAt, AreEvaluated, AreOpen, AreReady, AreSettledFor, IsNear, IsSettled, stuck_of};
ghost use Rattle.dft_seek.specs.Rigs.{IsRig, search_in};
ghost use Rattle.dft_seek.specs.Trees.{Looks};

use crate::cones::Cone;
use crate::looking::{Sight, Table, Values, Verdict};
use crate::rig::Rig;
use crate::tables::unknown;
use dft_base::Tri;
use dft_faults::Fault;
use dft_sweep::{Marks, Stuck};
use std::alloc::{AllocError, Global};

// The net of a fault is stuck.
fn stuck(fault: Fault) -> Option<Stuck>
    ensures { result ≡ stuck_of fault }
{
    Some(Stuck {
        net: fault.net,
        value: fault.value,
    })
}

// Whether every variable has a bit.
fn is_whole(cone: &Cone, bits: &[bool]) -> bool
    ensures { result ≡ spec.is_whole_at cone.now bits.now }
{
    cone.cells.len() + cone.ports.len() <= bits.len()
}

impl Rig<'_> {
    // Settles a table before the clock falls, for the values of nets before it rises.
    fn settle_after(
        &self,
        cone: &Cone,
        stuck: Option<Stuck>,
        ports: &[Tri],
        cells: &[Tri],
        first: &[Tri],
        risen: &mut [Tri],
        table: &mut Table,
    )
        requires rig { IsRig self.now }
        requires near { IsNear self.now cone.now.needed.items stuck table.old }
        requires risen { length risen.old ≡ length self.now.design.now.instances }
        ensures table { IsSettled self.now cone.now.needed.items stuck table.new }
        ensures given { AreSettledFor self.now cone.now.needed.items stuck (values_of.value_at ports.now) (spec.risen_at self.now cells.now first.now) table.new.values.items }
    {
        self.rise(cells, first, risen);
        self.settle(cone, stuck, ports, risen, table);
    }

    // Settles the values before the clock rises.
    fn settle_first(&self, fault: Fault, cone: &Cone, v: &mut Values)
        requires rig { IsRig self.now }
        requires opens { AreOpen self.now fault cone.now.needed.items v.old }
        ensures { spec.IsFirst self.now fault cone.now.needed.items v.old v.new }
    {
        self.settle_nets(cone, None, &[], &v.ports, &v.cells, &mut v.good);
        self.settle_nets(cone, stuck(fault), &[], &v.ports, &v.cells, &mut v.bad);
    }

    // Settles the values before the clock falls, where a cell takes its next value then.
    fn settle_second(&self, fault: Fault, cone: &Cone, v: &mut Values)
        requires rig { IsRig self.now }
        requires ready { AreReady self.now fault cone.now.needed.items v.old }
        ensures { spec.IsSecond self.now fault cone.now.needed.items v.old v.new }
    {
        if !self.any_falls {
            return;
        }
        self.settle_after(
            cone,
            None,
            &v.ports,
            &v.cells,
            &v.good.values,
            &mut v.risen,
            &mut v.good_after,
        );
        self.settle_after(
            cone,
            stuck(fault),
            &v.ports,
            &v.cells,
            &v.bad.values,
            &mut v.risen,
            &mut v.bad_after,
        );
    }

    // Settles the values of both captures.
    fn evaluate(&self, fault: Fault, cone: &Cone, v: &mut Values)
        requires rig { IsRig self.now }
        requires opens { AreOpen self.now fault cone.now.needed.items v.old }
        ensures ready { AreReady self.now fault cone.now.needed.items v.new }
        ensures same { spec.AreSame v.old v.new }
        ensures evaluated { AreEvaluated self.now fault cone.now.needed.items v.new }
    {
        self.settle_first(fault, cone, v);
        self.settle_second(fault, cone, v);
    }

    // Looks at the node of these bits: what it is.
    pub(crate) fn look(&self, fault: Fault, cone: &Cone, bits: &[bool], v: &mut Values) -> Verdict
        requires rig { IsRig self.now }
        requires fault { IsFault self.now.design.now fault }
        requires takes { AreTaking self.now cone.now.responses.items }
        requires needs { AreNeeded self.now fault cone.now }
        requires opens { AreOpen self.now fault cone.now.needed.items v.old }
        requires at { AreAt cone.now bits.now v.old }
        ensures opens { AreOpen self.now fault cone.now.needed.items v.new }
        ensures at { AreAt cone.now bits.now v.new }
        ensures looks { Looks (search_in self.now fault) (cone_of cone.now) bits.now (spec.verdict result) }
    {
        self.evaluate(fault, cone, v);
        self.read(fault, cone, bits, v)
    }

    // What the node of these bits is, by its values.
    fn read(&self, fault: Fault, cone: &Cone, bits: &[bool], v: &Values) -> Verdict
        ensures { spec.verdict result ≡ spec.verdict_at self.now fault cone.now bits.now v.now }
    {
        let good = Sight {
            first: &v.good.values,
            second: &v.good_after.values,
        };
        let bad = Sight {
            first: &v.bad.values,
            second: &v.bad_after.values,
        };
        self.verdict(fault, cone, is_whole(cone, bits), &good, &bad)
    }

    // The values of all nets of the design, where no cell and no port has one.
    fn base_table(&self, alloc: Global) -> Result<Table, AllocError>
        requires rig { IsRig self.now }
        ensures table { IfOk result (λ table. (needed : List Bool) → IsSettled self.now needed None table) }
        ensures base { IfOk result (λ table. table.values.items ≡ self.now.base.items) }
    {
        let values = Vec::from_slice(alloc, &self.base)?;
        let marks = Marks::new(alloc, self.base.len(), false)?;
        Ok(Table { values, marks })
    }

    // The same where a net is stuck, for values of ports and cells of which none is known.
    fn bad_table(
        &self,
        alloc: Global,
        fault: Fault,
        cone: &Cone,
        ports: &[Tri],
        cells: &[Tri],
    ) -> Result<Table, AllocError>
        requires rig { IsRig self.now }
        requires live { fault.net.0 < length self.now.design.now.nets }
        requires ports { (net : ℕ) → values_of.value_at ports.now net ≡ Unknown }
        requires cells { (c : ℕ) → values_of.value_at cells.now c ≡ Unknown }
        ensures table { IfOk result (IsSettled self.now cone.now.needed.items (stuck_of fault)) }
        ensures given { IfOk result (λ table. AreSettledFor self.now cone.now.needed.items (stuck_of fault) (values_of.value_at ports.now) (values_of.value_at cells.now) table.values.items) }
    {
        let mut table = self.base_table(alloc)?;
        table.marks.mark(&self.places, &cone.needed, fault.net);
        self.settle_nets(cone, stuck(fault), &[], ports, cells, &mut table);
        Ok(table)
    }

    // The same before the clock falls, if a cell takes its next value then.
    fn bad_after(
        &self,
        alloc: Global,
        fault: Fault,
        cone: &Cone,
        ports: &[Tri],
        cells: &[Tri],
    ) -> Result<Table, AllocError>
        requires rig { IsRig self.now }
        requires live { fault.net.0 < length self.now.design.now.nets }
        requires ports { (net : ℕ) → values_of.value_at ports.now net ≡ Unknown }
        requires cells { (c : ℕ) → values_of.value_at cells.now c ≡ Unknown }
        ensures { IfOk result (λ table. self.now.any_falls ≡ true → IsSettled self.now cone.now.needed.items (stuck_of fault) table) }
    {
        if self.any_falls {
            self.bad_table(alloc, fault, cone, ports, cells)
        } else {
            self.base_table(alloc)
        }
    }

    // The values with which the search of a fault begins.
    pub(crate) fn values(
        &self,
        alloc: Global,
        fault: Fault,
        cone: &Cone,
    ) -> Result<Values, AllocError>
        requires rig { IsRig self.now }
        requires live { fault.net.0 < length self.now.design.now.nets }
        ensures opens { IfOk result (AreOpen self.now fault cone.now.needed.items) }
        ensures at { IfOk result (λ v. (cone : ConeOf) → AreAt cone [] v) }
    {
        let instances = self.holds.len();
        let cells = unknown(alloc, instances)?;
        let ports = unknown(alloc, self.base.len())?;
        let risen = unknown(alloc, instances)?;
        let good = self.base_table(alloc)?;
        let bad = self.bad_table(alloc, fault, cone, &ports, &cells)?;
        let good_after = self.base_table(alloc)?;
        let bad_after = self.bad_after(alloc, fault, cone, &ports, &cells)?;
        Ok(Values {
            cells,
            ports,
            risen,
            good,
            bad,
            good_after,
            bad_after,
        })
    }
}
