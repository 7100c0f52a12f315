//! What patterns capture, up to 512 at a time.

ghost use Rattle.std.specs.Prelude.{◌≡◌, ◌≤◌, ◌<◌, ◌^◌, length, IfOk};
ghost use Rattle.dft_expect.specs.Capturing.{AreCaptures, Captures, IsPrepared, cells_in};

use crate::fixed::Fixed;
use crate::pattern::Pattern;
use crate::pulsing::captures;
use crate::reads::{Read, any_falls, outputs, reads};
use crate::response::Response;
use crate::settings::{Finding, Setting, flags, settings};
use crate::unloading::starts;
use dft_config::Config;
use dft_evaluator::Evaluator;
use dft_netlist::{Design, NetId};
use dft_stitch::Planned;
use std::alloc::{AllocError, Global};
use std::marker::Model;

/// What captures the responses of a design's patterns, up to 512 at a time: a sweep over its nets for each edge of each capture vector. A clause
/// sees the design and the configuration.
pub struct Capturer<'a> {
    design: &'a Design,
    config: &'a Config,
    evaluator: Evaluator,
    settings: Vec<Setting>,
    reads: Vec<Read>,
    outputs: Vec<NetId>,
    falls: bool,
}

// One call for all fields, so that the proof of what owns a value stays short.
impl Drop for Capturer<'_> {
    fn drop(self) {
        let Capturer {
            design: _,
            config: _,
            evaluator: _,
            settings: _,
            reads: _,
            outputs: _,
            falls: _,
        } = self;
    }
}

impl<'a> Model for Capturer<'a> {
    ghost use Rattle.dft_expect.specs.Capturing.{Capturing};

    ghost Value = { Capturing };

    ghost use Rattle.dft_expect.specs.CapturerShown.{capturing_of, IsCapturer};

    ghost view = { capturing_of };

    ghost invariant = { IsCapturer };
}

impl<'a> Capturer<'a> {
    /// What captures in a planned design. What is the same for all patterns is found here.
    pub fn prepare(alloc: Global, planned: &Planned<'a>) -> Result<Capturer<'a>, AllocError>
        ensures { IfOk result (λ c. c ≡ record { design = planned.entry.now.design; config = planned.entry.now.config }) }
    {
        planned.soundness();
        let design = planned.design();
        let config = planned.config();
        design.soundness();
        let evaluator = Evaluator::prepare(alloc, design)?;
        let reads = reads(alloc, design, planned.chains())?;
        let outputs = outputs(alloc, design)?;
        let settings = all_settings(alloc, planned)?;
        let falls = any_falls(&reads);
        Ok(Capturer {
            design,
            config,
            evaluator,
            settings,
            reads,
            outputs,
            falls,
        })
    }

    /// What each of these patterns, 512 at most, captures: the values of the cells, chain by chain, and those of the output
    /// ports' bits in each of its capture vectors in turn.
    pub fn capture_all(
        &mut self,
        alloc: Global,
        patterns: &[Pattern<'_>],
    ) -> Result<Vec<Response>, AllocError>
        requires { length patterns.now ≤ 512 }
        ensures captures { IfOk result (λ responses. AreCaptures self.old patterns.now responses.items) }
        ensures same { self.new ≡ self.old }
    {
        let fixed = Fixed {
            design: self.design,
            config: self.config,
            settings: &self.settings,
            reads: &self.reads,
            outputs: &self.outputs,
            falls: self.falls,
        };
        captures(alloc, &fixed, &mut self.evaluator, patterns)
    }

    /// What a pattern captures.
    pub fn capture(&mut self, alloc: Global, pattern: &Pattern<'_>) -> Result<Response, AllocError>
        ensures captures { IfOk result (λ response. Captures self.old.design self.old.config pattern.now response) }
        ensures same { self.new ≡ self.old }
    {
        let mut responses = self.capture_all(alloc, &[*pattern])?;
        Ok(responses.swap_remove(0))
    }
}

// What each net is set to.
fn all_settings(alloc: Global, planned: &Planned<'_>) -> Result<Vec<Setting>, AllocError>
    requires { length (cells_in planned.now.design planned.now.config) < 2 ^ 64 }
    ensures { IfOk result (λ settings. IsPrepared planned.now.design planned.now.config settings.items) }
{
    let design = planned.design();
    let config = planned.config();
    let clocks = flags(alloc, design, config.domains())?;
    let resets = flags(alloc, design, config.resets())?;
    let starts = starts(alloc, planned.chains())?;
    let found = Finding {
        planned,
        clocks: &clocks,
        resets: &resets,
        starts: &starts,
    };
    settings(alloc, &found)
}
