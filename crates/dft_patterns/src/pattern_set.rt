ghost use Rattle.std.specs.Prelude.{◌≡◌, []};

use crate::act::Acts;
use crate::notes::Note;
use crate::signal::StilSignal;
use std::alloc::Global;
use std::marker::Model;

/// The signals and the vectors of a pattern text, in its order, and notes before vectors.
#[derive(Debug)]
pub struct PatternSet {
    signals: Vec<StilSignal>,
    vectors: Vec<Acts>,
    notes: Vec<Note>,
}

// One call for all fields, so that the proof of what owns a value stays short.
impl Drop for PatternSet {
    fn drop(self) {
        let PatternSet {
            signals: _,
            vectors: _,
            notes: _,
        } = self;
    }
}

impl Model for PatternSet {
    ghost use Rattle.dft_patterns.specs.Patterns.{Patterns};

    ghost Value = { Patterns };

    ghost use Rattle.dft_patterns.specs.Shown.{patterns_of};

    ghost view = { patterns_of };
}

impl PatternSet {
    /// The set of these signals and vectors, without notes.
    pub fn new(alloc: Global, signals: Vec<StilSignal>, vectors: Vec<Acts>) -> PatternSet
        ensures signals { result.signals ≡ signals.items }
        ensures vectors { result.vectors ≡ vectors.items }
        ensures notes { result.notes ≡ [] }
    {
        PatternSet::noted(signals, vectors, Vec::new(alloc))
    }

    /// The set of these signals, vectors and notes.
    pub fn noted(signals: Vec<StilSignal>, vectors: Vec<Acts>, notes: Vec<Note>) -> PatternSet
        ensures signals { result.signals ≡ signals.items }
        ensures vectors { result.vectors ≡ vectors.items }
        ensures notes { result.notes ≡ notes.items }
    {
        PatternSet {
            signals,
            vectors,
            notes,
        }
    }

    /// The signals.
    pub fn signals(&self) -> &[StilSignal]
        ensures { result.now ≡ self.now.signals }
    {
        &self.signals
    }

    /// The vectors.
    pub fn vectors(&self) -> &[Acts]
        ensures { result.now ≡ self.now.vectors }
    {
        &self.vectors
    }

    /// The notes.
    pub fn notes(&self) -> &[Note]
        ensures { result.now ≡ self.now.notes }
    {
        &self.notes
    }
}
