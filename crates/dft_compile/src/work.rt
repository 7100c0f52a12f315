//! A compilation whose cubes are placed.

ghost use Rattle.std.specs.Prelude.{◌≡◌, ◌≤◌, length, option_map, IfErr, IfOk, OnOk};
ghost use Rattle.dft_netlist_text.specs.NetlistText.{StandsFor};
ghost use Rattle.dft_insert.specs.Statements.{scanned};
ghost use Rattle.dft_insert.specs.declared.style.Style.TheVariants.{Edt};
ghost use Rattle.dft_stil_tokens.specs.declared.blanks.TheConstants.{MAX_TEXT};
ghost use Rattle.dft_report.specs.declared.limits.TheConstants.{MAX_BYTES};
ghost use Rattle.dft_compile.specs.Compilation.{AreTextsOf};
ghost use Rattle.dft_compile.specs.Refusals.{IsRefusal, late_refusal, pattern_bytes, too_long, too_many};
ghost use Rattle.dft_compile.specs.Texts as texts;
ghost use Rattle.dft_compile.specs.Texts.{counts_by};
ghost use Rattle.dft_compile.specs.Working.{IsWork};

use crate::counting::{fates_of, vectors_in};
use crate::error::CompileError;
use crate::lengths::check_length;
use crate::reporting::report_text;
use crate::texts::{CompileTexts, Counts};
use crate::writing::pattern_text;
use dft_cubes::Cube;
use dft_merge::{Closed, Loads, Placed};
use dft_netlist::Design;
use dft_scan::counts_of;
use std::alloc::{AllocError, Global};

// The cubes of a prepared design, with what became of them, and the merged cubes.
#[derive(Clone, Copy)]
pub(crate) struct Work<'a> {
    pub(crate) alloc: Global,
    pub(crate) loads: &'a Loads<'a>,
    pub(crate) scanned: &'a Design,
    pub(crate) merger: &'a Closed<'a>,
    pub(crate) cubes: &'a [Cube],
    pub(crate) placed: &'a [Placed],
}

impl<'a> Work<'a> {
    // Refuses patterns whose text would be longer than its limit.
    fn check_patterns(&self) -> Result<(), CompileError>
        requires { IsWork self.now }
        ensures accepted { OnOk result (pattern_bytes self.now.loads.now.design self.now.loads.now.config self.now.merger.now.patterns ≤ MAX_TEXT) }
        ensures refused { IfErr result (IsRefusal (option_map CompileError.Patterns (too_many (pattern_bytes self.now.loads.now.design self.now.loads.now.config self.now.merger.now.patterns)))) }
    {
        self.loads.soundness();
        let cycles = self.loads.chains().cycles();
        check_length(self.alloc, self.scanned, cycles, self.merger.patterns())
    }

    // The text of the report.
    fn report(&self) -> Result<Vec<u8>, CompileError>
        requires { IsWork self.now }
        ensures text { IfOk result (λ text. text.items ≡ texts.report_text self.now.loads.now.design self.now.loads.now.config self.now.loads.now.rows self.now.cubes.now self.now.placed.now) }
        ensures accepted { IfOk result (λ text. length (texts.report_text self.now.loads.now.design self.now.loads.now.config self.now.loads.now.rows self.now.cubes.now self.now.placed.now) ≤ MAX_BYTES) }
        ensures refused { IfErr result (IsRefusal (option_map CompileError.Report (too_long (texts.report_text self.now.loads.now.design self.now.loads.now.config self.now.loads.now.rows self.now.cubes.now self.now.placed.now)))) }
    {
        report_text(self.alloc, self.loads, self.cubes, self.placed)
    }

    // The text of the scanned netlist.
    fn netlist(&self) -> Result<Vec<u8>, AllocError>
        requires { IsWork self.now }
        ensures text { IfOk result (λ text. text.items ≡ texts.netlist_text self.now.loads.now.design self.now.loads.now.config) }
        ensures reads { IfOk result (λ text. StandsFor self.now.loads.now.design.library text.items (scanned Edt self.now.loads.now.design self.now.loads.now.config)) }
    {
        self.loads.soundness();
        dft_verilog_out::write(self.alloc, self.scanned)
    }

    // What is counted, where so many chains are masked.
    fn counts(&self, masked: u64) -> Counts
        requires { IsWork self.now }
        ensures { result ≡ counts_by self.now.loads.now.design self.now.loads.now.config self.now.placed.now self.now.merger.now.patterns masked }
    {
        self.loads.soundness();
        let chains = self.loads.chains();
        let instances = self.loads.design().instances().len() as u32;
        let patterns = self.merger.patterns();
        let fates = fates_of(self.placed);
        Counts {
            cells: counts_of(instances, self.loads.verdicts(), chains).cells,
            chains: u32::from(chains.count()),
            cycles: u32::from(chains.cycles()),
            patterns: patterns.len() as u32,
            encoded: fates.encoded,
            unsolvable: fates.unsolvable,
            skipped: fates.skipped,
            masked,
            vectors: vectors_in(chains.cycles(), patterns),
        }
    }

    // The texts, and what is counted. They are refused where the text of the patterns, and then where the report would be longer than its
    // limit.
    pub(crate) fn texts(&self) -> Result<CompileTexts, CompileError>
        requires { IsWork self.now }
        ensures texts { IfOk result (AreTextsOf self.now.loads.now.design self.now.loads.now.config self.now.cubes.now self.now.loads.now.rows self.now.placed.now self.now.merger.now.patterns) }
        ensures reads { IfOk result (λ t. StandsFor self.now.loads.now.design.library t.netlist.items (scanned Edt self.now.loads.now.design self.now.loads.now.config)) }
        ensures refused { IfErr result (IsRefusal (late_refusal self.now.loads.now.design self.now.loads.now.config self.now.cubes.now self.now.loads.now.rows self.now.placed.now self.now.merger.now.patterns)) }
    {
        self.check_patterns()?;
        let report = self.report()?;
        let netlist = self.netlist()?;
        self.loads.soundness();
        let patterns = pattern_text(self.alloc, self.scanned, self.merger)?;
        Ok(CompileTexts {
            netlist,
            patterns: patterns.text,
            report,
            counts: self.counts(patterns.masked),
        })
    }
}
