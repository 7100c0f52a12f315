ghost use Rattle.std.specs.Prelude.{◌≡◌, None, IfErr, IfOk};
ghost use Rattle.dft_config.specs.Range.{IsInRange};
ghost use Rattle.dft_rules.specs.Refusals as rules;
ghost use Rattle.dft_rules.specs.Rules.{judgements};
ghost use Rattle.dft_stitch.specs.Chains.{plan_of};
ghost use Rattle.dft_stitch.specs.Limits as limits;
ghost use Rattle.dft_stitch.specs.Planning.{IsRefusal, of_rules, of_stitch, refusal};
ghost use Rattle.dft_stitch.specs.declared.planned.PrepareError.TheVariants.{Memory};

use crate::chains::Chains;
use crate::error::StitchError;
use crate::planning::plan;
use dft_config::Config;
use dft_netlist::Design;
use dft_rules::{RuleError, Verdicts, judge};
use std::alloc::{AllocError, Global};
use std::marker::Model;
use thiserror::Error;

/// Why no chains are planned for a design.
#[derive(Debug, Error, Drop)]
pub enum PrepareError {
    /// The scan rules refuse it.
    #[error("the scan rules refuse the design")]
    Rules(RuleError),
    /// A limit is passed.
    #[error("no chains can be planned")]
    Stitch(StitchError),
    #[error("out of memory")]
    Memory(AllocError),
}

impl From<RuleError> for PrepareError {
    ghost from_gives = { λ error e. e ≡ of_rules error };

    fn from(error: RuleError) -> PrepareError {
        match error {
            RuleError::Memory(error) => PrepareError::Memory(error),
            error => PrepareError::Rules(error),
        }
    }
}

impl From<StitchError> for PrepareError {
    ghost from_gives = { λ error e. e ≡ of_stitch error };

    fn from(error: StitchError) -> PrepareError {
        match error {
            StitchError::Memory(error) => PrepareError::Memory(error),
            error => PrepareError::Stitch(error),
        }
    }
}

/// A design that the scan rules pass, with its configuration, its verdicts and the chains that are planned for it. A
/// clause sees the design and the configuration: the verdicts and the chains are theirs.
#[derive(Debug)]
pub struct Planned<'a> {
    design: &'a Design,
    config: &'a Config,
    verdicts: Verdicts,
    chains: Chains,
}

// One call for all fields, so that the proof of what owns a value stays short.
impl Drop for Planned<'_> {
    fn drop(self) {
        let Planned {
            design: _,
            config: _,
            verdicts: _,
            chains: _,
        } = self;
    }
}

impl<'a> Model for Planned<'a> {
    ghost use Rattle.dft_stitch.specs.Planning.{Planned};

    ghost Value = { Planned };

    ghost use Rattle.dft_stitch.specs.PlannedShown.{planned_in, IsPlanned};

    ghost view = { planned_in };

    ghost invariant = { IsPlanned };
}

impl<'a> Planned<'a> {
    /// Judges the flip-flops of a design and plans its chains. It is refused by the first check that fails: of the scan
    /// rules, then of the plan.
    pub fn prepare(
        alloc: Global,
        design: &'a Design,
        config: &'a Config,
    ) -> Result<Planned<'a>, PrepareError>
        ensures planned { IfOk result (λ p. p ≡ record { design = design.entry.now; config = config.entry.now }) }
        ensures accepted { IfOk result (λ p. refusal design.entry.now config.entry.now ≡ None) }
        ensures refused { IfErr result (IsRefusal (refusal design.entry.now config.entry.now)) }
    {
        let verdicts = judge(alloc, design, config)?;
        let chains = plan(alloc, design, config, &verdicts)?;
        Ok(Planned {
            design,
            config,
            verdicts,
            chains,
        })
    }

    /// Does nothing: its clauses are what holds of every planned design. No check refuses it, and its configuration is in
    /// range.
    pub fn soundness(&self)
        ensures passed { rules.refusal self.now.design self.now.config ≡ None }
        ensures fits { limits.refusal self.now.design self.now.config ≡ None }
        ensures range { IsInRange self.now.config }
    {
        self.config.soundness();
    }

    /// The design.
    pub fn design(&self) -> &'a Design
        ensures { result.now ≡ self.now.design }
    {
        self.design
    }

    /// The configuration.
    pub fn config(&self) -> &'a Config
        ensures { result.now ≡ self.now.config }
    {
        self.config
    }

    /// The verdicts of the scan rules.
    pub fn verdicts(&self) -> &Verdicts
        ensures { result.now ≡ judgements self.now.design self.now.config }
    {
        &self.verdicts
    }

    /// The planned chains.
    pub fn chains(&self) -> &Chains
        ensures { result.now ≡ plan_of self.now.design self.now.config }
    {
        &self.chains
    }
}
