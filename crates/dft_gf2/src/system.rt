ghost use Rattle.std.specs.Prelude.{◌≡◌, ℕ, ◌<◌, ◌≤◌, ◌↔◌, Bool, true, List, [], ◌∷◌, ◌++◌, Option, Some, None, length, take, IfOk, IfSome, IsSome, IsTrue, MatchOption, slice_set};
ghost use Rattle.dft_base.specs.Solutions.{bit_at, Equation, IsSum, AllGive, NoneGives, Certifies, Contradicts, IsChosen, Solves};
ghost use Rattle.dft_lanes.specs.Rows.{bits_of, IsPacked};
ghost use Rattle.dft_gf2.specs.Elimination.{Elimination, After};
ghost use Rattle.dft_gf2.specs.Ends.{EndsAt};
ghost use Rattle.dft_gf2.specs.Like.{AnswersLike};
ghost use Rattle.dft_gf2.specs.Rows.{row_at, AreWide, AreLed, IsCleared, IsEchelon, IsZero, IsNew, IsReduced, IsWide, NameEarlier, with_own};

use crate::bits::Bits;
use crate::fill::Fill;
use crate::mark::Mark;
use crate::row::Row;
use crate::rows::Rows;
use std::alloc::{AllocError, Global};
use std::marker::Model;

/// What an equation is to the kept ones.
#[derive(Clone, Copy, Debug, PartialEq, Eq)]
pub enum Outcome {
    /// Its set is no sum of kept sets: it is kept now.
    Kept,
    /// Every solution of the kept ones solves it.
    Implied,
    /// No solution of the kept ones solves it, and its set is a sum of kept sets.
    Conflict,
}

/// A system of equations over GF(2). It keeps those whose sets are independent, in the order in which they came.
/// A clause sees the number of columns, the kept equations, and the one that was refused last as a conflict.
pub struct System {
    columns: u32,
    kept: usize,
    rows: Rows,
    row_of: Vec<Option<usize>>,
    trial: Row,
    refused: bool,
}

// One call for all fields, so that the proof of what owns a value stays short.
impl Drop for System {
    fn drop(self) {
        let System {
            columns: _,
            kept: _,
            rows: _,
            row_of: _,
            trial: _,
            refused: _,
        } = self;
    }
}

impl Model for System {
    ghost use Rattle.dft_gf2.specs.Elimination.{Elimination};

    ghost Value = { Elimination };

    ghost use Rattle.dft_gf2.specs.Inside.{elimination, IsEliminated};

    ghost view = { elimination };

    ghost invariant = { IsEliminated };
}

impl System {
    /// A system of so many columns, with room for as many equations.
    pub fn new(alloc: Global, columns: u32) -> Result<System, AllocError>
        ensures { IfOk result (λ system. system ≡ record { columns = columns; kept = []; refused = None }) }
    {
        Ok(System {
            columns,
            kept: 0,
            rows: Rows::blank(alloc, columns)?,
            row_of: vec![in alloc; None; columns as usize]?,
            trial: Row::blank(alloc, columns, columns)?,
            refused: false,
        })
    }

    /// The number of columns.
    pub fn columns(&self) -> u32
        ensures { result ≡ self.now.columns }
    {
        self.columns
    }

    /// Whether the last equation was a conflict.
    pub fn has_conflict(&self) -> bool
        ensures { IsTrue result ↔ IsSome self.now.refused }
    {
        self.refused
    }

    /// Adds the equation that gives a set of columns the sum `bit`, unless the kept ones already tell its sum.
    /// Column c is bit `c % 64` of word `c / 64`. Takes no memory.
    pub fn try_add(&mut self, row: &[u64], bit: bool, id: u32) -> Outcome
        requires { IsPacked self.old.columns row.now }
        ensures kept { result ≡ Outcome.Kept ↔ (IsSum self.old.columns self.old.kept (bits_of self.old.columns row.now) → ⊥) }
        ensures implied { result ≡ Outcome.Implied ↔ AllGive self.old.columns self.old.kept (bits_of self.old.columns row.now) bit }
        ensures conflict { result ≡ Outcome.Conflict
            ↔ (IsSum self.old.columns self.old.kept (bits_of self.old.columns row.now) × NoneGives self.old.columns self.old.kept (bits_of self.old.columns row.now) bit) }
        ensures after { self.new ≡ After (record { row = bits_of self.old.columns row.now; bit = bit; id = id }) result self.old }
    {
        self.trial.start(row, bit, id);
        match reduce(&mut self.trial, &self.rows, &self.row_of) {
            Some(column) => {
                keep(
                    &mut self.trial,
                    &mut self.rows,
                    &mut self.row_of,
                    self.kept,
                    column,
                );
                self.kept += 1;
                self.refused = false;
                Outcome::Kept
            }
            None => {
                self.refused = self.trial.bit;
                if self.trial.bit {
                    Outcome::Conflict
                } else {
                    Outcome::Implied
                }
            }
        }
    }

    /// Why the last equation was a conflict: the ids of the kept equations whose sets sum to its set, in order, and then its own.
    pub fn certificate(&self, alloc: Global) -> Result<Vec<u32>, AllocError>
        requires { IsSome self.now.refused }
        ensures stated { IfSome self.now.refused (λ e. IfOk result (λ ids. Contradicts self.now.columns self.now.kept e ids.items)) }
        ensures sums { IfSome self.now.refused (λ e. IfOk result (λ ids. Certifies self.now.columns (self.now.kept ++ e ∷ []) ids.items)) }
    {
        let mut ids = Vec::new(alloc);
        for place in 0..self.kept {
            if self.trial.names(place) {
                ids.push(self.rows.id(place))?;
            }
        }
        ids.push(self.trial.id)?;
        Ok(ids)
    }

    /// How many equations are kept now.
    pub fn mark(&self) -> Mark
        ensures { result ≡ length self.now.kept }
    {
        Mark::at(self.kept)
    }

    /// Drops the equations that were kept since the mark.
    pub fn back_to(&mut self, mark: Mark)
        requires { mark ≤ length self.old.kept }
        ensures { self.new ≡ record { columns = self.old.columns; kept = take mark self.old.kept; refused = None } }
    {
        let first = mark.number();
        free(&self.rows, &mut self.row_of, first, self.kept);
        self.kept = first;
        self.refused = false;
    }

    /// The solution that takes each fill bit that it can, in column order.
    pub fn solve<F: Fn(u32) -> bool>(
        &self,
        alloc: Global,
        fill: &Fill<'_, F>,
    ) -> Result<Vec<u64>, AllocError>
        requires answers { AnswersLike (F.pre fill.now.answer) (F.post fill.now.answer) fill.now.like.now }
        requires columns { length fill.now.like.now ≡ self.now.columns }
        ensures packed { IfOk result (λ words. IsPacked self.now.columns words.items) }
        ensures chosen { IfOk result (λ words. IsChosen self.now.columns self.now.kept fill.now.like.now (bits_of self.now.columns words.items)) }
        ensures solves { IfOk result (λ words. Solves self.now.columns (bit_at (bits_of self.now.columns words.items)) self.now.kept) }
    {
        let mut bits = Bits::zeros(alloc, self.columns)?;
        for column in 0..self.columns {
            let bit = match self.row_of[column as usize] {
                Some(place) => self.rows.forced(place, &bits),
                None => fill.bit(column),
            };
            bits.put(column as usize, bit);
        }
        Ok(bits.into_words())
    }
}

// Clears the trial's last column by the row that it leads, and says whether that could be done.
fn clear(trial: &mut Row, rows: &Rows, row_of: &[Option<usize>], column: usize) -> bool
    requires within { column < length row_of.now }
    requires wide { IsWide (length row_of.now) trial.old }
    requires rows { AreWide (length row_of.now) rows.now }
    requires led { AreLed rows.now row_of.now }
    requires named { NameEarlier rows.now row_of.now }
    requires last { bit_at trial.old.set column ≡ true }
    ensures reduced { IsReduced rows.now row_of.now trial.old trial.new }
    ensures cleared { IsCleared row_of.now column trial.old trial.new result }
{
    match row_of[column] {
        Some(place) => {
            rows.add_to(trial, place, column);
            true
        }
        None => false,
    }
}

// Clears the trial's last column again and again, up to one that leads no row. Each turn clears a column at least.
fn reduce(trial: &mut Row, rows: &Rows, row_of: &[Option<usize>]) -> Option<usize>
    requires wide { IsWide (length row_of.now) trial.old }
    requires rows { AreWide (length row_of.now) rows.now }
    requires led { AreLed rows.now row_of.now }
    requires named { NameEarlier rows.now row_of.now }
    ensures reduced { IsReduced rows.now row_of.now trial.old trial.new }
    ensures end { MatchOption result (IsZero trial.new) (IsNew row_of.now trial.new) }
{
    for _turn in 0..row_of.len() {
        let Some(column) = trial.last() else {
            return None;
        };
        if !clear(trial, rows, row_of, column as usize) {
            return Some(column as usize);
        }
    }
    None
}

// Puts the trial at a place of the rows, as the one that the column leads.
fn keep(trial: &mut Row, rows: &mut Rows, row_of: &mut [Option<usize>], place: usize, column: usize)
    requires place { place < length rows.old }
    requires column { column < length row_of.old }
    requires wide { IsWide (length rows.old) trial.old }
    requires sums { EndsAt trial.old.sums place }
    ensures rows { rows.new ≡ slice_set rows.old place (with_own place trial.old) }
    ensures row_of { row_of.new ≡ slice_set row_of.old column (Some place) }
    ensures trial { trial.new ≡ with_own place trial.old }
{
    trial.sums.put(place, true);
    rows.put(place, trial);
    row_of[column] = Some(place);
}

// Frees the columns that the rows from a place on are led by.
fn free(rows: &Rows, row_of: &mut [Option<usize>], first: usize, kept: usize)
    requires order { first ≤ kept }
    requires echelon { IsEchelon (length row_of.old) rows.now row_of.old kept }
    ensures echelon { IsEchelon (length row_of.old) rows.now row_of.new first }
{
    for place in (first..kept).rev() {
        if let Some(column) = rows.last(place) {
            row_of[column as usize] = None;
        }
    }
}
