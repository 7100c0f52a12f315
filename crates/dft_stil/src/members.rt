ghost use Rattle.std.specs.Prelude.{◌≡◌, ◌<◌, ◌||◌, ℕ, false, length, get_or, OnOk, IfOk, slice_index_or};
ghost use Rattle.dft_stil_text.specs.SignalGroups as spec;
ghost use Rattle.dft_stil.specs.MembersShown.{meant, Sees, AreBelow};

use std::alloc::{AllocError, Global};
use std::marker::Model;

/// The signals that a group's name stands for, by number: each once, and whether one was mentioned twice.
#[derive(Debug)]
pub struct Members {
    signals: Vec<usize>,
    repeated: bool,
}

// One call for all fields, so that the proof of what owns a value stays short.
impl Drop for Members {
    fn drop(self) {
        let Members {
            signals: _,
            repeated: _,
        } = self;
    }
}

impl Model for Members {
    ghost use Rattle.dft_stil_text.specs.SignalGroups as naming;

    ghost Value = { naming.Members };

    ghost use Rattle.dft_stil.specs.MembersShown.{members_of};

    ghost view = { members_of };
}

/// The signals that a name stands for, where they are kept.
#[derive(Clone, Copy, Debug)]
pub struct Meant<'a> {
    pub signals: &'a [usize],
    pub repeated: bool,
}

impl Members {
    /// No signal yet.
    pub fn new(alloc: Global) -> Members
        ensures { result ≡ spec.no_members }
    {
        Members {
            signals: Vec::new(alloc),
            repeated: false,
        }
    }

    /// The signals.
    pub fn as_meant(&self) -> Meant<'_>
        ensures { meant result ≡ self.now }
    {
        Meant {
            signals: &self.signals,
            repeated: self.repeated,
        }
    }

    // One signal more, where the signals so far are flagged.
    fn add_signal(&mut self, seen: &mut [bool], signal: usize) -> Result<(), AllocError>
        requires inside { signal < length seen.old }
        requires sees { Sees self.old seen.old }
        ensures ok { OnOk result (self.new ≡ spec.with_signal self.old signal) }
        ensures sees { OnOk result (Sees self.new seen.new) }
        ensures length { length seen.new ≡ length seen.old }
    {
        if seen[signal] {
            self.repeated = true;
        } else {
            self.signals.push(signal)?;
            seen[signal] = true;
        }
        Ok(())
    }

    // These signals more, where the signals so far are flagged.
    fn add_signals(&mut self, seen: &mut [bool], signals: &[usize]) -> Result<(), AllocError>
        requires inside { AreBelow (length seen.old) signals.now }
        requires sees { Sees self.old seen.old }
        ensures ok { OnOk result (self.new ≡ spec.with_signals self.old signals.now) }
        ensures sees { OnOk result (Sees self.new seen.new) }
        ensures length { length seen.new ≡ length seen.old }
    {
        for signal in signals {
            self.add_signal(seen, *signal)?;
        }
        Ok(())
    }

    /// The signals of a name more, where the signals so far are flagged.
    pub fn add(&mut self, seen: &mut [bool], more: Meant<'_>) -> Result<(), AllocError>
        requires inside { AreBelow (length seen.old) more.signals.now }
        requires sees { Sees self.old seen.old }
        ensures ok { OnOk result (self.new ≡ spec.with_members self.old (meant more.entry)) }
        ensures sees { OnOk result (Sees self.new seen.new) }
        ensures length { length seen.new ≡ length seen.old }
    {
        self.add_signals(seen, more.signals)?;
        self.repeated = self.repeated || more.repeated;
        Ok(())
    }
}
