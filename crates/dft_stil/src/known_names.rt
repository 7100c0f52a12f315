ghost use Rattle.std.specs.Prelude.{◌≡◌, ◌++◌, ◌∷◌, [], None, OnOk, OnErr, IfSome, ◌<◌, length};
ghost use Rattle.dft_stil_text.specs.SignalGroups.{number_of};

use indexmap::IndexSet;
use std::alloc::{AllocError, Global};
use std::marker::Model;

/// Names that differ, each found by its bytes. A clause sees them in the order in which they were added.
#[derive(Debug)]
pub struct KnownNames {
    names: IndexSet<Vec<u8>>,
}

// One call for all fields, so that the proof of what owns a value stays short.
impl Drop for KnownNames {
    fn drop(self) {
        let KnownNames { names: _ } = self;
    }
}

impl Model for KnownNames {
    ghost use Rattle.std.specs.Prelude.{List, ℕ};
    ghost use Rattle.dft_stil.specs.KnownNamesShown.{known_names};

    ghost Value = { List (List ℕ) };

    ghost view = { known_names };
}

impl KnownNames {
    /// No name yet.
    pub fn new(alloc: Global) -> KnownNames
        ensures { result ≡ [] }
    {
        KnownNames {
            names: IndexSet::new(alloc),
        }
    }

    /// The number of this name, if it was added.
    pub fn number(&self, word: &[u8]) -> Option<usize>
        ensures value { result ≡ number_of self.now word.now }
        ensures within { IfSome result (λ n. n < length self.now) }
    {
        self.names.get_index_of(word)
    }

    /// Adds a name that was not added before.
    pub fn add(&mut self, word: Vec<u8>) -> Result<(), AllocError>
        requires { number_of self.old word.items ≡ None }
        ensures ok { OnOk result (self.new ≡ self.old ++ word.items ∷ []) }
        ensures err { OnErr result (self.new ≡ self.old) }
    {
        self.names.insert(word)?;
        Ok(())
    }
}
