ghost use Rattle.std.specs.Prelude.{◌≡◌, ◌<◌, ◌++◌, ◌∷◌, [], length, replicate, slice_set, OnOk, OnErr, IfOk};
ghost use Rattle.dft_patterns.specs.declared.act.Act.TheVariants.{Unset as unset};

use std::alloc::{AllocError, Global};
use std::marker::Model;

/// What a vector does at a signal (IEEE 1450-1999): an input is set, an output is compared.
#[derive(Clone, Copy, Debug, PartialEq, Eq)]
pub enum Act {
    /// Nothing was ever set or compared.
    Unset,
    /// The input is 0.
    Low,
    /// The input is 1.
    High,
    /// The input is 0, then 1, then 0 again.
    Pulse,
    /// The output is to be 0.
    ExpectLow,
    /// The output is to be 1.
    ExpectHigh,
    /// The output is not compared.
    Ignore,
}

/// The acts of a vector, one for each signal in order. A clause sees them as a list.
#[derive(Debug)]
pub struct Acts {
    acts: Vec<Act>,
}

// One call for all fields, so that the proof of what owns a value stays short.
impl Drop for Acts {
    fn drop(self) {
        let Acts { acts: _ } = self;
    }
}

impl Model for Acts {
    ghost use Rattle.std.specs.Prelude.{List};
    ghost use Rattle.dft_patterns.specs.declared.act.Act.{Act};

    ghost Value = { List Act };

    ghost view = { λ a. a.acts.items };
}

impl Acts {
    /// No act yet.
    pub fn new(alloc: Global) -> Acts
        ensures { result ≡ [] }
    {
        Acts {
            acts: Vec::new(alloc),
        }
    }

    /// Adds the act of the next signal.
    pub fn push(&mut self, act: Act) -> Result<(), AllocError>
        ensures ok { OnOk result (self.new ≡ self.old ++ act ∷ []) }
        ensures err { OnErr result (self.new ≡ self.old) }
    {
        self.acts.push(act)?;
        Ok(())
    }

    /// These acts.
    pub fn copied(alloc: Global, acts: &[Act]) -> Result<Acts, AllocError>
        ensures { IfOk result (λ copy. copy ≡ acts.now) }
    {
        Ok(Acts {
            acts: Vec::from_slice(alloc, acts)?,
        })
    }

    /// So many acts of signals that were never set or compared.
    pub fn unset(alloc: Global, count: usize) -> Result<Acts, AllocError>
        ensures { IfOk result (λ acts. acts ≡ replicate count unset) }
    {
        Ok(Acts {
            acts: vec![in alloc; Act::Unset; count]?,
        })
    }

    /// How many acts there are.
    pub fn count(&self) -> usize
        ensures { result ≡ length self.now }
    {
        self.acts.len()
    }

    /// The act of a signal from here on.
    pub fn set(&mut self, signal: usize, act: Act)
        requires { signal < length self.old }
        ensures { self.new ≡ slice_set self.old signal act }
    {
        self.acts[signal] = act;
    }

    /// The acts.
    pub fn as_slice(&self) -> &[Act]
        ensures { result.now ≡ self.now }
    {
        &self.acts
    }
}
