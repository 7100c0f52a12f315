//! Patterns to which no cube comes any more.

ghost use Rattle.std.specs.Prelude.{◌≡◌, ◌<◌, Some, length, IfOk, slice_get};
ghost use Rattle.dft_base.specs.Solutions.{bit_at, IsChosen};
ghost use Rattle.dft_gf2.specs.Like.{AnswersLike};
ghost use Rattle.dft_lanes.specs.Rows.{bits_of, IsPacked};
ghost use Rattle.dft_cubes.specs.declared.cube.Merged.{Merged};
ghost use Rattle.dft_merge.specs.Placement as spec;
ghost use Rattle.dft_merge.specs.Placement.{equations_of};
ghost use Rattle.dft_merge.specs.Merging.{columns_in, rows_in};

use crate::adding::system_of;
use crate::loads::Loads;
use dft_cubes::Merged;
use dft_gf2::Fill;
use std::alloc::{AllocError, Global};
use std::marker::Model;

/// The patterns of a merger to which no cube comes any more: no equations are kept for them. A clause sees what it sees of
/// a merger.
pub struct Closed<'a> {
    pub(crate) alloc: Global,
    pub(crate) loads: &'a Loads<'a>,
    pub(crate) window: usize,
    pub(crate) patterns: Vec<Merged>,
}

// One call for all fields, so that the proof of what owns a value stays short.
impl Drop for Closed<'_> {
    fn drop(self) {
        let Closed {
            alloc: _,
            loads: _,
            window: _,
            patterns: _,
        } = self;
    }
}

impl<'a> Model for Closed<'a> {
    ghost use Rattle.dft_merge.specs.Merging.{Merging};

    ghost Value = { Merging };

    ghost use Rattle.dft_merge.specs.ClosedShown.{closed_of, IsClosed};

    ghost view = { closed_of };

    ghost invariant = { IsClosed };
}

impl<'a> Closed<'a> {
    /// The planned design with its load equations.
    pub fn loads(&self) -> &'a Loads<'a>
        ensures { result.now ≡ self.now.loads }
    {
        self.loads
    }

    /// The patterns.
    pub fn patterns(&self) -> &[Merged]
        ensures { result.now ≡ self.now.patterns }
    {
        &self.patterns
    }

    /// The channel bits that load a pattern, one a column, packed into words: in column order each takes its fill bit
    /// where some solution of the pattern's equations has it with the bits before it, and the other bit otherwise.
    pub fn channel_bits<F: Fn(u32) -> bool>(
        &self,
        pattern: u32,
        fill: &Fill<'_, F>,
    ) -> Result<Vec<u64>, AllocError>
        requires pattern { pattern < length self.now.patterns }
        requires answers { AnswersLike (F.pre fill.now.answer) (F.post fill.now.answer) fill.now.like.now }
        requires columns { length fill.now.like.now ≡ columns_in self.now }
        ensures packed { IfOk result (λ words. IsPacked (columns_in self.now) words.items) }
        ensures chosen { IfOk result (λ words. (merged : Merged) → slice_get self.now.patterns pattern ≡ Some merged →
            IsChosen (columns_in self.now) (equations_of (rows_in self.now) merged.cells) fill.now.like.now (bits_of (columns_in self.now) words.items)) }
        ensures loads { IfOk result (λ words. (merged : Merged) → slice_get self.now.patterns pattern ≡ Some merged →
            spec.Loads (columns_in self.now) (rows_in self.now) (bit_at (bits_of (columns_in self.now) words.items)) merged.cells) }
    {
        let system = system_of(
            self.alloc,
            self.loads,
            self.patterns[pattern as usize].cells.as_slice(),
        )?;
        system.solve(self.alloc, fill)
    }
}
