ghost use Rattle.std.specs.Prelude.{◌≡◌, ◌≤◌, ◌<◌, ◌^◌, ℕ, [], None, Some, length, IfOk, MatchOption, OnErr, slice_get};
ghost use Rattle.dft_base.specs.Solutions.{bit_at, IsChosen};
ghost use Rattle.dft_gf2.specs.Like.{AnswersLike};
ghost use Rattle.dft_lanes.specs.Rows.{bits_of, IsPacked};
ghost use Rattle.dft_cubes.specs.declared.cube.Merged.{Merged};
ghost use Rattle.dft_merge.specs.Placement as spec;
ghost use Rattle.dft_merge.specs.Placement.{Joins, NoneFits, Places, equations_of};
ghost use Rattle.dft_merge.specs.Merging.{columns_in, rows_in};

use crate::adding::{add_cells, system_of};
use crate::closed::Closed;
use crate::joining::join_first;
use crate::loads::Loads;
use crate::opening::open;
use crate::placed::Placed;
use crate::slot::Slot;
use dft_base::Listed;
use dft_cubes::{Cube, Merged};
use dft_gf2::{Fill, Mark, System};
use std::alloc::{AllocError, Global};
use std::marker::Model;

/// Puts cubes together into patterns. A clause sees the planned design with its load equations, the
/// window and the patterns.
pub struct Merger<'a> {
    alloc: Global,
    loads: &'a Loads<'a>,
    window: usize,
    patterns: Vec<Merged>,
    // What is kept of the open patterns, the oldest first.
    slots: Vec<Slot>,
    // The system of a cube alone, and its mark before any equation.
    alone: System,
    start: Mark,
}

// One call for all fields, so that the proof of what owns a value stays short.
impl Drop for Merger<'_> {
    fn drop(self) {
        let Merger {
            alloc: _,
            loads: _,
            window: _,
            patterns: _,
            slots: _,
            alone: _,
            start: _,
        } = self;
    }
}

impl<'a> Model for Merger<'a> {
    ghost use Rattle.dft_merge.specs.Merging.{Merging};

    ghost Value = { Merging };

    ghost use Rattle.dft_merge.specs.Shown.{merging_of, IsMerger};

    ghost view = { merging_of };

    ghost invariant = { IsMerger };
}

impl<'a> Merger<'a> {
    /// The merger of cubes for the load equations of a planned design; no cube is placed yet. Of the patterns as many as
    /// the window has are open, the last ones, whatever their clocks.
    pub fn new(alloc: Global, loads: &'a Loads<'a>) -> Result<Merger<'a>, AllocError>
        ensures { IfOk result (λ merger. merger ≡ record { loads = loads.entry.now; window = loads.entry.now.config.window; patterns = [] }) }
    {
        loads.soundness();
        let alone = System::new(alloc, loads.equations().columns())?;
        let start = alone.mark();
        Ok(Merger {
            alloc,
            loads,
            window: loads.config().window() as usize,
            patterns: Vec::new(alloc),
            slots: Vec::new(alloc),
            alone,
            start,
        })
    }

    /// The planned design with its load equations.
    pub fn loads(&self) -> &'a Loads<'a>
        ensures { result.now ≡ self.now.loads }
    {
        self.loads
    }

    /// Places a cube (static compaction): one that names a cell that is not scanned is skipped; another goes into the oldest
    /// open pattern that it fits, or else begins a pattern where its equations alone have a solution, or else is unsolvable.
    pub fn take(&mut self, cube: &Cube) -> Result<Placed, AllocError>
        requires cells { length cube.now.cells < 2 ^ 32 }
        requires patterns { length self.old.patterns < 65536 }
        ensures placed { IfOk result (λ placed. Places (columns_in self.old) (rows_in self.old) self.old.window self.old.patterns cube.now placed self.new.patterns) }
        ensures same { self.new ≡ record self.old { patterns = self.new.patterns } }
        ensures err { OnErr result (self.new ≡ self.old) }
    {
        if let Some(cell) = self.loads.first_unscanned(cube.cells.as_slice()) {
            return Ok(Placed::Skipped(cell));
        }
        match self.join(cube)? {
            Some(pattern) => Ok(Placed::Into(pattern as u32)),
            None => self.begin(cube),
        }
    }

    // Puts a cube of scanned cells into the oldest open pattern that it fits, and tells its number.
    fn join(&mut self, cube: &Cube) -> Result<Option<usize>, AllocError>
        requires cells { length cube.now.cells < 2 ^ 32 }
        requires scanned { spec.first_unscanned (rows_in self.old) cube.now.cells ≡ None }
        ensures joined { IfOk result (λ found. MatchOption found
            (NoneFits (columns_in self.old) (rows_in self.old) self.old.window self.old.patterns cube.now (length self.old.patterns) × (self.new.patterns ≡ self.old.patterns))
            (λ p. Joins (columns_in self.old) (rows_in self.old) self.old.window self.old.patterns cube.now p self.new.patterns)) }
        ensures same { self.new ≡ record self.old { patterns = self.new.patterns } }
        ensures err { OnErr result (self.new ≡ self.old) }
    {
        let first = self.patterns.len() - self.slots.len();
        join_first(
            self.alloc,
            self.loads,
            &mut self.slots,
            &mut self.patterns,
            first,
            cube,
        )
    }

    // Begins a pattern with a cube of scanned cells that fits no open one, where its equations alone have a solution.
    fn begin(&mut self, cube: &Cube) -> Result<Placed, AllocError>
        requires cells { length cube.now.cells < 2 ^ 32 }
        requires patterns { length self.old.patterns < 65536 }
        requires scanned { spec.first_unscanned (rows_in self.old) cube.now.cells ≡ None }
        requires none { NoneFits (columns_in self.old) (rows_in self.old) self.old.window self.old.patterns cube.now (length self.old.patterns) }
        ensures placed { IfOk result (λ placed. Places (columns_in self.old) (rows_in self.old) self.old.window self.old.patterns cube.now placed self.new.patterns) }
        ensures same { self.new ≡ record self.old { patterns = self.new.patterns } }
        ensures err { OnErr result (self.new ≡ self.old) }
    {
        self.loads.soundness();
        self.alone.back_to(self.start);
        if !add_cells(&mut self.alone, self.loads, cube.cells.as_slice()) {
            let ids = self.alone.certificate(self.alloc)?;
            return Ok(Placed::Unsolvable(Listed::from_vec(ids)));
        }
        let number = self.patterns.len() as u32;
        open(
            self.alloc,
            self.loads,
            self.window,
            &mut self.alone,
            &mut self.slots,
            &mut self.patterns,
            cube,
        )?;
        Ok(Placed::Into(number))
    }

    /// The patterns, to which no cube comes any more. What was kept of the open ones is given back.
    pub fn close(self) -> Closed<'a>
        ensures { result ≡ self.entry }
    {
        let Merger {
            alloc,
            loads,
            window,
            patterns,
            slots: _,
            alone: _,
            start: _,
        } = self;
        Closed {
            alloc,
            loads,
            window,
            patterns,
        }
    }

    /// The patterns so far.
    pub fn patterns(&self) -> &[Merged]
        ensures { result.now ≡ self.now.patterns }
    {
        &self.patterns
    }

    /// The channel bits that load a pattern, one a column, packed into words: in column order each takes its fill bit
    /// where some solution of the pattern's equations has it with the bits before it, and the other bit otherwise.
    pub fn channel_bits<F: Fn(u32) -> bool>(
        &self,
        pattern: u32,
        fill: &Fill<'_, F>,
    ) -> Result<Vec<u64>, AllocError>
        requires pattern { pattern < length self.now.patterns }
        requires answers { AnswersLike (F.pre fill.now.answer) (F.post fill.now.answer) fill.now.like.now }
        requires columns { length fill.now.like.now ≡ columns_in self.now }
        ensures packed { IfOk result (λ words. IsPacked (columns_in self.now) words.items) }
        ensures chosen { IfOk result (λ words. (merged : Merged) → slice_get self.now.patterns pattern ≡ Some merged →
            IsChosen (columns_in self.now) (equations_of (rows_in self.now) merged.cells) fill.now.like.now (bits_of (columns_in self.now) words.items)) }
        ensures loads { IfOk result (λ words. (merged : Merged) → slice_get self.now.patterns pattern ≡ Some merged →
            spec.Loads (columns_in self.now) (rows_in self.now) (bit_at (bits_of (columns_in self.now) words.items)) merged.cells) }
    {
        let pattern = pattern as usize;
        let first = self.patterns.len() - self.slots.len();
        if first <= pattern {
            self.slots[pattern - first].system.solve(self.alloc, fill)
        } else {
            let system = system_of(
                self.alloc,
                self.loads,
                self.patterns[pattern].cells.as_slice(),
            )?;
            system.solve(self.alloc, fill)
        }
    }
}
