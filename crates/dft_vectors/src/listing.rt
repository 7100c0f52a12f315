//! Lists of vectors, pattern after pattern.

ghost use Rattle.std.specs.Prelude.{◌≡◌, ◌+◌, ◌<◌, ◌≤◌, ◌++◌, ◌∷◌, [], List, None, length, replicate, IfSome, IfOk, OnOk};
ghost use Rattle.dft_cubes.specs.Domains.{captures_of};
ghost use Rattle.dft_vectors.specs.AddedPorts.{capturing};
ghost use Rattle.dft_vectors.specs.Listing.{Lists};
ghost use Rattle.dft_vectors.specs.ListSteps.{begun_by, ended_by};
ghost use Rattle.dft_base.specs.Packed.{packed_bit};
ghost use Rattle.dft_lanes.specs.Rows.{words_for};
ghost use Rattle.dft_stitch.specs.Chains.{plan_of};
ghost use Rattle.dft_expect.specs.Loaded.{table_of};
ghost use Rattle.dft_vectors.specs.PatternData.{Fits, PatternData, columns_of, data_of, data_if_any};
ghost use Rattle.dft_vectors.specs.VectorList as spec;

use crate::layout::{Layout, look_up};
use crate::loads::{add_load, no_bits};
use crate::notes::notes_of;
use crate::pattern::Pattern;
use crate::signals::signals_of;
use dft_base::Tri;
use dft_cubes::Merged;
use dft_netlist::Design;
use dft_patterns::{Acts, PatternSet};
use dft_stitch::Planned;
use std::alloc::{AllocError, Global};
use std::marker::Model;

/// The vectors of patterns of a planned design behind compression hardware (Rajski and others, 2004), pattern after pattern. A clause sees
/// the design, the configuration, the chains, the vectors so far and how many captures each of their patterns has.
#[derive(Drop)]
pub struct VectorList<'a> {
    layout: Layout<'a>,
    vectors: Vec<Acts>,
    captures: Vec<u8>,
}

impl<'a> Model for VectorList<'a> {
    ghost use Rattle.dft_vectors.specs.Listing.{Listing};

    ghost Value = { Listing };

    ghost use Rattle.dft_vectors.specs.Shown.{listing_of, IsVectorList};

    ghost view = { listing_of };

    ghost invariant = { IsVectorList };
}

impl<'a> VectorList<'a> {
    /// No vector yet.
    pub fn new(alloc: Global, planned: &'a Planned<'a>) -> Result<VectorList<'a>, AllocError>
        ensures { IfOk result (λ list. list ≡ record { design = planned.entry.now.design; config = planned.entry.now.config; plan = plan_of planned.entry.now.design planned.entry.now.config; vectors = []; captures = [] }) }
    {
        let layout = look_up(alloc, planned)?;
        Ok(VectorList {
            layout,
            vectors: Vec::new(alloc),
            captures: Vec::new(alloc),
        })
    }

    // Adds the set-up vector, where there is no pattern yet.
    fn set_up(&mut self) -> Result<(), AllocError>
        ensures { OnOk result (self.new ≡ record self.old { vectors = begun_by self.old }) }
    {
        if self.captures.is_empty() {
            let mut acts = Vec::new(self.layout.alloc);
            self.layout.push_set_up(&mut acts)?;
            self.vectors.push(Acts::copied(self.layout.alloc, &acts)?)?;
        }
        Ok(())
    }

    // Adds the load of a pattern.
    fn load(&mut self, last: Option<Pattern<'_>>, pattern: Pattern<'_>) -> Result<(), AllocError>
        requires last { IfSome last (Fits self.old.config self.old.plan) }
        requires pattern { Fits self.old.config self.old.plan pattern }
        ensures { OnOk result (self.new ≡ record self.old {
          vectors = self.old.vectors
              ++ spec.load_vectors self.old.design self.old.config self.old.plan (table_of self.old.config.ring (packed_bit pattern.entry.bits.now)) pattern.entry.masks.now (data_if_any self.old.config self.old.plan last.entry);
        }) }
    {
        add_load(
            &mut self.vectors,
            &self.layout,
            last,
            pattern.bits,
            pattern.masks,
        )?;
        Ok(())
    }

    // Adds a capture vector of a pattern, its last one or one before it.
    fn one_capture(
        &mut self,
        merged: &Merged,
        domain: u8,
        last: bool,
        outputs: &[Tri],
    ) -> Result<(), AllocError>
        ensures { OnOk result (self.new ≡ record self.old {
          vectors = self.old.vectors
              ++ spec.capture_with self.old.design self.old.config merged.now domain (capturing last self.old.config) outputs.now ∷ [];
        }) }
    {
        let mut acts = Vec::new(self.layout.alloc);
        self.layout
            .push_capture(&mut acts, merged, domain, last, outputs)?;
        self.vectors.push(Acts::copied(self.layout.alloc, &acts)?)?;
        Ok(())
    }

    // Adds the capture vectors of a pattern.
    fn capture(&mut self, pattern: Pattern<'_>) -> Result<(), AllocError>
        ensures { OnOk result (self.new ≡ record self.old {
          vectors = self.old.vectors
              ++ spec.capture_list self.old.design self.old.config pattern.entry.merged.now pattern.entry.response.now.outputs;
        }) }
    {
        let outputs = pattern.response.outputs.as_slice();
        let domains = pattern.merged.domains;
        match domains.second {
            Some(second) => self.two_captures(pattern.merged, domains.first, second, outputs),
            None => self.one_capture(pattern.merged, domains.first, true, outputs),
        }
    }

    // Adds both capture vectors of a pattern.
    fn two_captures(
        &mut self,
        merged: &Merged,
        first: u8,
        second: u8,
        outputs: &[Tri],
    ) -> Result<(), AllocError>
        ensures { OnOk result (self.new ≡ record self.old {
          vectors = self.old.vectors ++ spec.captures_with self.old.design self.old.config merged.now first (second ∷ []) outputs.now;
        }) }
    {
        let own = self.layout.own.outputs.min(outputs.len());
        self.one_capture(merged, first, false, &outputs[..own])?;
        self.one_capture(merged, second, true, &outputs[own..])?;
        Ok(())
    }

    /// Adds the load and the captures of a pattern behind the last one, and before the first the set-up vector.
    pub fn add(&mut self, last: Option<Pattern<'_>>, pattern: Pattern<'_>) -> Result<(), AllocError>
        requires few { length self.old.captures < 65536 }
        requires last { IfSome last (Fits self.old.config self.old.plan) }
        requires pattern { Fits self.old.config self.old.plan pattern }
        ensures same { OnOk result (self.new ≡ record self.old { vectors = self.new.vectors; captures = self.old.captures ++ captures_of pattern.entry.merged.now ∷ [] }) }
        ensures added { OnOk result ((patterns : List PatternData) → Lists self.old patterns → data_if_any self.old.config self.old.plan last.entry ≡ spec.last_of None patterns
            → Lists self.new (patterns ++ data_of self.old.config self.old.plan pattern.entry ∷ [])) }
    {
        self.set_up()?;
        self.load(last, pattern)?;
        self.capture(pattern)?;
        self.captures.push(pattern.merged.domains.count())?;
        Ok(())
    }

    // Adds a load without a channel bit or a mask.
    fn last_load(&mut self, last: Option<Pattern<'_>>) -> Result<(), AllocError>
        requires last { IfSome last (Fits self.old.config self.old.plan) }
        ensures { OnOk result (self.new ≡ record self.old {
          vectors = self.old.vectors
              ++ spec.load_vectors self.old.design self.old.config self.old.plan (table_of self.old.config.ring (packed_bit (replicate (words_for (columns_of self.old.config self.old.plan)) 0))) [] (data_if_any self.old.config self.old.plan last.entry);
        }) }
    {
        let bits = no_bits(&self.layout)?;
        add_load(&mut self.vectors, &self.layout, last, &bits, &[])?;
        Ok(())
    }

    // Adds the last load, where there is a pattern.
    fn unload(&mut self, last: Option<Pattern<'_>>) -> Result<(), AllocError>
        requires last { IfSome last (Fits self.old.config self.old.plan) }
        ensures { OnOk result (self.new ≡ record self.old { vectors = ended_by self.old (table_of self.old.config.ring (packed_bit (replicate (words_for (columns_of self.old.config self.old.plan)) 0))) (data_if_any self.old.config self.old.plan last.entry) }) }
    {
        if self.captures.is_empty() {
            return Ok(());
        }
        self.last_load(last)?;
        Ok(())
    }

    /// The patterns, in the signals of the written netlist. A load whose channel and mask bits are 0 unloads the last pattern, and notes
    /// stand before the set-up vector, before each load, and before the last one.
    pub fn finish(
        mut self,
        written: &Design,
        last: Option<Pattern<'_>>,
    ) -> Result<PatternSet, AllocError>
        requires last { IfSome last (Fits self.config self.plan) }
        ensures { IfOk result (λ set. (patterns : List PatternData) → Lists self.entry patterns → data_if_any self.entry.config self.entry.plan last.entry ≡ spec.last_of None patterns
            → set ≡ spec.patterns_of written.now self.entry.design self.entry.config self.entry.plan patterns) }
    {
        self.unload(last)?;
        let alloc = self.layout.alloc;
        let signals = signals_of(alloc, written)?;
        let notes = notes_of(alloc, self.layout.planned.chains().cycles(), &self.captures)?;
        Ok(PatternSet::noted(signals, self.vectors, notes))
    }
}
