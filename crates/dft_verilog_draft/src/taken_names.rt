ghost use Rattle.std.specs.Prelude.{◌≡◌, ℕ, ◌++◌, ◌∷◌, [], None, IfOk, OnOk, OnErr};
ghost use Rattle.dft_verilog_draft.specs.Drafts.{AreNamesWithin};
ghost use Rattle.dft_verilog_draft.specs.Free.{AreFree, and_bits};
ghost use Rattle.dft_verilog_draft.specs.TakenNames.{meaning_in, and_put};

use dft_netlist_text::Meaning;
use dft_verilog_tokens::Word;
use indexmap::IndexMap;
use indexmap::map::Entry;
use std::alloc::{AllocError, Global};
use std::borrow::CowSlice;
use std::marker::Model;

/// The names of a module that are taken, and what each stands for. A clause sees them in the order in which they were
/// taken.
#[derive(Debug)]
pub struct TakenNames<'a> {
    meanings: IndexMap<CowSlice<'a, u8>, Meaning>,
}

// One call for all fields, so that the proof of what owns a value stays short.
impl Drop for TakenNames<'_> {
    fn drop(self) {
        let TakenNames { meanings: _ } = self;
    }
}

impl<'a> Model for TakenNames<'a> {
    ghost use Rattle.std.specs.Prelude.{List};
    ghost use Rattle.dft_netlist_text.specs.Modules.{TakenName};

    ghost Value = { List TakenName };

    ghost use Rattle.dft_verilog_draft.specs.TakenNamesShown.{taken_names};

    ghost view = { taken_names };
}

impl<'a> TakenNames<'a> {
    /// No name is taken.
    pub fn new(alloc: Global) -> TakenNames<'a>
        ensures { result ≡ [] }
    {
        TakenNames {
            meanings: IndexMap::new(alloc),
        }
    }

    /// What this name stands for, if it is taken.
    pub fn meaning(&self, word: &[u8]) -> Option<Meaning>
        ensures { result ≡ meaning_in self.now word.now }
    {
        self.meanings.get(word).copied()
    }

    /// Takes a name that is free.
    pub fn take(&mut self, word: Word<'a>, meaning: Meaning) -> Result<(), AllocError>
        requires { meaning_in self.old word ≡ None }
        ensures ok { OnOk result (self.new ≡ self.old ++ record { name = word.entry; meaning = meaning } ∷ []) }
        ensures err { OnErr result (self.new ≡ self.old) }
    {
        self.meanings.insert(word.into_bytes(), meaning)?;
        Ok(())
    }

    /// Takes a name if it is free. Tells what it stood for before.
    pub fn put(&mut self, word: Word<'a>, meaning: Meaning) -> Result<Option<Meaning>, AllocError>
        ensures before { IfOk result (λ before. before ≡ meaning_in self.old word.entry) }
        ensures names { IfOk result (λ before. self.new ≡ and_put word.entry meaning before self.old) }
        ensures err { OnErr result (self.new ≡ self.old) }
    {
        match self.meanings.entry(word.into_bytes())? {
            Entry::Occupied(entry) => Ok(Some(*entry.into_mut())),
            Entry::Vacant(entry) => {
                entry.insert(meaning);
                Ok(None)
            }
        }
    }

    /// Takes the names of bits, which are free.
    pub fn take_bits(&mut self, alloc: Global, bits: &[Word<'a>]) -> Result<(), AllocError>
        requires { AreFree self.old bits.now }
        ensures ok { OnOk result (self.new ≡ and_bits self.old bits.now) }
        ensures within { (count : ℕ) → AreNamesWithin count self.old → AreNamesWithin count self.new }
    {
        for bit in bits {
            let word = Word::made(Vec::from_slice(alloc, bit.as_slice())?);
            self.take(word, Meaning::Bit)?;
        }
        Ok(())
    }
}
