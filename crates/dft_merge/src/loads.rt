//! A planned design with the load equations of its chains.

ghost use Rattle.std.specs.Prelude.{ℕ, ◌≡◌, ◌<◌, ◌≤◌, None, Some, IfOk, MatchOption, is_some, length, map};
ghost use Rattle.std.specs.List.{All};
ghost use Rattle.dft_base.specs.Solutions.{bit_at};
ghost use Rattle.dft_config.specs.Range.{IsInRange};
ghost use Rattle.dft_rules.specs.Refusals as rules;
ghost use Rattle.dft_rules.specs.Rules.{judgements};
ghost use Rattle.dft_stitch.specs.Chains.{plan_of};
ghost use Rattle.dft_stitch.specs.Limits as limits;
ghost use Rattle.dft_stitch.specs.Plans.{falling_head};
ghost use Rattle.dft_equations.specs.LoadRows.{AreLoadEquations};
ghost use Rattle.dft_lanes.specs.Rows.{bits_of, IsPacked};
ghost use Rattle.dft_merge.specs.LoadPlan.{columns_by, rows_by};
ghost use Rattle.dft_merge.specs.Placement as spec;
ghost use Rattle.dft_merge.specs.Slots.{AreRows};

use crate::laws::plans_stand_apart;
use dft_config::Config;
use dft_equations::{Equations, equations};
use dft_netlist::{Design, InstanceId};
use dft_rules::Verdicts;
use dft_stitch::{Chains, Planned};
use std::alloc::{AllocError, Global};
use std::marker::Model;

/// A planned design, and the load equations of its chains. A clause sees the design, the configuration, the plan and the
/// equations.
pub struct Loads<'a> {
    planned: Planned<'a>,
    equations: Equations,
}

// One call for all fields, so that the proof of what owns a value stays short.
impl Drop for Loads<'_> {
    fn drop(self) {
        let Loads {
            planned: _,
            equations: _,
        } = self;
    }
}

impl<'a> Model for Loads<'a> {
    ghost use Rattle.dft_merge.specs.LoadPlan.{LoadPlan};

    ghost Value = { LoadPlan };

    ghost use Rattle.dft_merge.specs.LoadsShown.{loads_in, AreLoads};

    ghost view = { loads_in };

    ghost invariant = { AreLoads };
}

impl<'a> Loads<'a> {
    /// Finds the load equations of a planned design.
    pub fn prepare(alloc: Global, planned: Planned<'a>) -> Result<Loads<'a>, AllocError>
        ensures design { IfOk result (λ l. l.design ≡ planned.entry.design) }
        ensures config { IfOk result (λ l. l.config ≡ planned.entry.config) }
    {
        let equations = load_equations(alloc, &planned)?;
        Ok(Loads { planned, equations })
    }

    /// Does nothing: its clauses are what holds of every planned design and its load equations.
    pub fn soundness(&self)
        ensures passed { rules.refusal self.now.design self.now.config ≡ None }
        ensures fits { limits.refusal self.now.design self.now.config ≡ None }
        ensures range { IsInRange self.now.config }
        ensures planned { self.now.plan ≡ plan_of self.now.design self.now.config }
        ensures equations { AreLoadEquations self.now.config.ring (map length self.now.plan.chains) (falling_head self.now.plan) self.now.plan.cycles self.now.rows }
        ensures rows { AreRows self.now.plan.chains self.now.rows }
    {
        self.planned.soundness();
        plans_stand_apart();
    }

    /// The planned design.
    pub fn planned(&self) -> &Planned<'a>
        ensures { result.now ≡ record { design = self.now.design; config = self.now.config } }
    {
        &self.planned
    }

    /// The design.
    pub fn design(&self) -> &'a Design
        ensures { result.now ≡ self.now.design }
    {
        self.planned.design()
    }

    /// The configuration.
    pub fn config(&self) -> &'a Config
        ensures { result.now ≡ self.now.config }
    {
        self.planned.config()
    }

    /// The verdicts of the scan rules.
    pub fn verdicts(&self) -> &Verdicts
        ensures { result.now ≡ judgements self.now.design self.now.config }
    {
        self.planned.verdicts()
    }

    /// The planned chains.
    pub fn chains(&self) -> &Chains
        ensures { result.now ≡ self.now.plan }
    {
        self.planned.chains()
    }

    /// The load equations of the places of the chains.
    pub fn equations(&self) -> &Equations
        ensures { result.now ≡ self.now.rows }
    {
        &self.equations
    }

    /// The load equation of a cell, if it is scanned.
    pub fn row(&self, cell: InstanceId) -> Option<&[u64]>
        ensures { MatchOption result (rows_by self.now cell ≡ None)
            (λ words. IsPacked (columns_by self.now) words.now × (rows_by self.now cell ≡ Some (bits_of (columns_by self.now) words.now))) }
    {
        self.soundness();
        let at = self.chains().place_of(cell)?;
        Some(self.equations().of_cell(at.chain, at.place))
    }

    // Whether a cell is scanned.
    fn is_scanned(&self, cell: InstanceId) -> bool
        ensures { result ≡ is_some (rows_by self.now cell) }
    {
        self.row(cell).is_some()
    }

    // The first of these cells that is not scanned.
    pub(crate) fn first_unscanned(&self, cells: &[(InstanceId, bool)]) -> Option<InstanceId>
        ensures { result ≡ spec.first_unscanned (rows_by self.now) cells.now }
    {
        for given in cells {
            if !self.is_scanned(given.0) {
                return Some(given.0);
            }
        }
        None
    }
}

// The load equations of planned chains.
fn load_equations(alloc: Global, planned: &Planned<'_>) -> Result<Equations, AllocError>
    ensures { IfOk result (AreLoadEquations planned.now.config.ring (map length (plan_of planned.now.design planned.now.config).chains) (falling_head (plan_of planned.now.design planned.now.config)) (plan_of planned.now.design planned.now.config).cycles) }
{
    planned.soundness();
    let chains = planned.chains();
    let lengths = lengths_of(alloc, chains)?;
    let heads = heads_of(alloc, chains)?;
    equations(alloc, planned.config(), &lengths, &heads, chains.cycles())
}

// Whether each chain begins with a falling cell.
fn heads_of(alloc: Global, chains: &Chains) -> Result<Vec<bool>, AllocError>
    ensures count { IfOk result (λ heads. length heads.items ≡ length chains.now.chains) }
    ensures each { IfOk result (λ heads. (chain : ℕ) → chain < length chains.now.chains → bit_at heads.items chain ≡ falling_head chains.now chain) }
{
    let mut heads = Vec::with_capacity(alloc, usize::from(chains.count()))?;
    for chain in 0..chains.count() {
        heads.push(chains.falling_head(chain))?;
    }
    Ok(heads)
}

// How many cells each chain has.
fn lengths_of(alloc: Global, chains: &Chains) -> Result<Vec<u16>, AllocError>
    requires cells { All (λ cells. length cells ≤ chains.now.cycles) chains.now.chains }
    requires cycles { chains.now.cycles ≤ 4096 }
    ensures { IfOk result (λ lengths. lengths.items ≡ map length chains.now.chains) }
{
    let mut lengths = Vec::with_capacity(alloc, usize::from(chains.count()))?;
    for chain in 0..chains.count() {
        let cells = chains.chain(chain).len();
        lengths.push(cells as u16)?;
    }
    Ok(lengths)
}
