ghost use Rattle.std.specs.Prelude.{◌≡◌, None, length, option_map, OnOk, IfSome};
ghost use Rattle.dft_base.specs.Name.{IsName};
ghost use Rattle.dft_stil_text.specs.SignalGroups as spec;
ghost use Rattle.dft_stil_text.specs.WaveformTables.{dir_of};
ghost use Rattle.dft_stil.specs.MembersShown.{meant, AreBelow};

use crate::known_names::KnownNames;
use crate::members::{Meant, Members};
use dft_base::{Dir, Name};
use dft_patterns::StilSignal;
use std::alloc::{AllocError, Global};
use std::marker::Model;

/// The signals and the groups of a pattern text so far (IEEE 1450-1999 `Signals` and `SignalGroups`).
#[derive(Debug)]
pub struct Names {
    signals: Vec<StilSignal>,
    signal_names: KnownNames,
    // The number of each signal, in order: so a signal alone is kept as signals of a group are.
    numbers: Vec<usize>,
    group_names: KnownNames,
    groups: Vec<Members>,
}

// One call for all fields, so that the proof of what owns a value stays short.
impl Drop for Names {
    fn drop(self) {
        let Names {
            signals: _,
            signal_names: _,
            numbers: _,
            group_names: _,
            groups: _,
        } = self;
    }
}

impl Model for Names {
    ghost use Rattle.dft_stil_text.specs.SignalGroups as naming;

    ghost Value = { naming.Names };

    ghost use Rattle.dft_stil.specs.NamesShown.{names_of, AreFound};

    ghost view = { names_of };

    ghost invariant = { AreFound };
}

impl Names {
    /// Nothing so far.
    pub fn new(alloc: Global) -> Names
        ensures { result ≡ spec.no_names }
    {
        Names {
            signals: Vec::new(alloc),
            signal_names: KnownNames::new(alloc),
            numbers: Vec::new(alloc),
            group_names: KnownNames::new(alloc),
            groups: Vec::new(alloc),
        }
    }

    /// How many signals there are.
    pub fn count(&self) -> usize
        ensures { result ≡ length self.now.signals }
    {
        self.signals.len()
    }

    /// The signals.
    pub fn into_signals(self) -> Vec<StilSignal>
        ensures { result.items ≡ self.signals }
    {
        let Names {
            signals,
            signal_names: _,
            numbers: _,
            group_names: _,
            groups: _,
        } = self;
        signals
    }

    /// Whether a signal has this name.
    pub fn is_signal(&self, word: &[u8]) -> bool
        ensures { result ≡ spec.is_declared (spec.names_of_signals self.now.signals) word.now }
    {
        self.signal_names.number(word).is_some()
    }

    /// Whether a group has this name.
    pub fn is_group(&self, word: &[u8]) -> bool
        ensures { result ≡ spec.is_declared self.now.group_names word.now }
    {
        self.group_names.number(word).is_some()
    }

    // The signal of a name.
    fn as_signal(&self, word: &[u8]) -> Option<Meant<'_>>
        ensures value { option_map meant result ≡ spec.as_signal self.now word.now }
        ensures inside { IfSome result (λ m. AreBelow (length self.now.signals) m.signals.now) }
    {
        let number = self.signal_names.number(word)?;
        Some(Meant {
            signals: &self.numbers[number..number + 1],
            repeated: false,
        })
    }

    // The signals of a group's name.
    fn as_group(&self, word: &[u8]) -> Option<Meant<'_>>
        ensures value { option_map meant result ≡ spec.as_group self.now word.now }
        ensures inside { IfSome result (λ m. AreBelow (length self.now.signals) m.signals.now) }
    {
        let number = self.group_names.number(word)?;
        let members = self.groups.get(number)?;
        Some(members.as_meant())
    }

    /// What a name means in a group's list: the signal before the group.
    pub fn in_list(&self, word: &[u8]) -> Option<Meant<'_>>
        ensures value { option_map meant result ≡ spec.in_list self.now word.now }
        ensures inside { IfSome result (λ m. AreBelow (length self.now.signals) m.signals.now) }
    {
        match self.as_signal(word) {
            Some(meant) => Some(meant),
            None => self.as_group(word),
        }
    }

    /// What a name means elsewhere: the group before the signal.
    pub fn elsewhere(&self, word: &[u8]) -> Option<Meant<'_>>
        ensures value { option_map meant result ≡ spec.elsewhere self.now word.now }
        ensures inside { IfSome result (λ m. AreBelow (length self.now.signals) m.signals.now) }
    {
        match self.as_group(word) {
            Some(meant) => Some(meant),
            None => self.as_signal(word),
        }
    }

    /// The direction of a signal by its number.
    pub fn dir_of(&self, signal: usize) -> Dir
        ensures { result ≡ dir_of self.now signal }
    {
        match self.signals.get(signal) {
            Some(signal) => signal.dir,
            None => Dir::Input,
        }
    }

    /// Adds a signal, whose name no other has.
    pub fn add_signal(&mut self, alloc: Global, word: &[u8], dir: Dir) -> Result<(), AllocError>
        requires name { IsName word.now }
        requires fresh { spec.number_of (spec.names_of_signals self.old.signals) word.now ≡ None }
        ensures { OnOk result (self.new ≡ spec.with_new_signal self.old word.now dir) }
    {
        let name = Name::from_slice(alloc, word)?;
        let number = self.count();
        self.signals.reserve(1)?;
        self.numbers.reserve(1)?;
        self.signal_names.add(Vec::from_slice(alloc, word)?)?;
        self.numbers.push_reserved(number);
        self.signals.push_reserved(StilSignal { name, dir });
        Ok(())
    }

    /// Adds a group, whose name no other has.
    pub fn add_group(
        &mut self,
        alloc: Global,
        word: &[u8],
        members: Members,
    ) -> Result<(), AllocError>
        requires fresh { spec.number_of self.old.group_names word.now ≡ None }
        requires inside { AreBelow (length self.old.signals) members.signals }
        ensures { OnOk result (self.new ≡ spec.with_group self.old word.now members) }
    {
        self.groups.reserve(1)?;
        self.group_names.add(Vec::from_slice(alloc, word)?)?;
        self.groups.push_reserved(members);
        Ok(())
    }
}
