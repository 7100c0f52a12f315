//! Sets of names, which are found by their bytes.

ghost use Rattle.std.specs.Prelude.{◌≡◌, ◌++◌, ◌∷◌, [], false, OnOk, OnErr};
ghost use Rattle.dft_verilog_draft.specs.NameSets.{has_word};

use crate::taken_names::TakenNames;
use dft_netlist_text::Meaning;
use dft_verilog_tokens::Word;
use std::alloc::{AllocError, Global};
use std::marker::Model;

/// Names that differ. A clause sees them in the order in which they were added.
#[derive(Debug)]
pub struct NameSet<'a> {
    names: TakenNames<'a>,
}

// One call for all fields, so that the proof of what owns a value stays short.
impl Drop for NameSet<'_> {
    fn drop(self) {
        let NameSet { names: _ } = self;
    }
}

impl<'a> Model for NameSet<'a> {
    ghost use Rattle.std.specs.Prelude.{List};
    ghost use Rattle.dft_base.specs.Lexing.{Text};

    ghost Value = { List Text };

    ghost use Rattle.dft_verilog_draft.specs.NameSetShown.{name_set};

    ghost view = { name_set };
}

impl<'a> NameSet<'a> {
    /// No name yet.
    pub fn new(alloc: Global) -> NameSet<'a>
        ensures { result ≡ [] }
    {
        NameSet {
            names: TakenNames::new(alloc),
        }
    }

    #[tactic(auto, using(crate::proofs::NameSetLemmas::has_word_names))]
    /// Whether a name is one of them.
    pub fn has(&self, word: &[u8]) -> bool
        ensures { result ≡ has_word self.now word.now }
    {
        self.names.meaning(word).is_some()
    }

    #[tactic(auto, using(crate::proofs::NameSetLemmas::name_sets))]
    /// Adds a name that is none of them.
    pub fn add(&mut self, word: Word<'a>) -> Result<(), AllocError>
        requires { has_word self.old word ≡ false }
        ensures ok { OnOk result (self.new ≡ self.old ++ word.entry ∷ []) }
        ensures err { OnErr result (self.new ≡ self.old) }
    {
        self.names.take(word, Meaning::Instance)
    }
}
