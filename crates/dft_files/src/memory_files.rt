ghost use Rattle.std.specs.Prelude.{◌≡◌, ◌≤◌, [], Some, Err, OnOk, OnErr, IsSome, option_map, string_bytes};
ghost use Rattle.std.specs.List.{position};
ghost use Rattle.std.specs.Str.{bytes_eq};
ghost use Rattle.dft_files.specs.Outside.{HasDistinctNames, KeepsOthers, LeavesPart, file_at};
ghost use Rattle.dft_files.specs.Entries.{held_of};
ghost use Rattle.dft_files.specs.Store.{with_file, called, read_failed, write_failed, left, Loads, Saves, SavesElse};
ghost use Rattle.dft_files.specs.Store as store;

use crate::failing::{Failing, kept_at};
use crate::outside::{Files, LoadError, SaveError};
use std::alloc::{AllocError, Global};
use std::marker::Model;

/// Files in memory that tell what they hold, with calls that fail on demand.
pub struct MemoryFiles {
    entries: Vec<(String, Vec<u8>)>,
    failing: Vec<Failing>,
    calls: u64,
    failed: String,
    read_faults: u64,
    write_faults: u64,
    short_saves: u64,
    taken: u64,
}

// One call for all fields, so that the proof of what owns a value stays short.
impl Drop for MemoryFiles {
    fn drop(self) {
        let MemoryFiles {
            entries: _,
            failing: _,
            calls: _,
            failed: _,
            read_faults: _,
            write_faults: _,
            short_saves: _,
            taken: _,
        } = self;
    }
}

impl Model for MemoryFiles {
    ghost use Rattle.dft_files.specs.Store.{Store};

    ghost Value = { Store };

    ghost use Rattle.dft_files.specs.StoreShown.{store_of};

    ghost view = { store_of };
}

impl MemoryFiles {
    /// Files with these entries. The calls of load and save are counted together, from 0, and those of `failing` fail.
    pub fn new(alloc: Global, entries: Vec<(String, Vec<u8>)>, failing: Vec<Failing>) -> MemoryFiles
        requires { HasDistinctNames (held_of entries.items) }
        ensures held { result.held ≡ held_of entries.items }
        ensures failing { result.failing ≡ failing.items }
        ensures calls { result.calls ≡ 0 }
        ensures failed { result.failed ≡ [] }
        ensures read_faults { result.read_faults ≡ 0 }
        ensures write_faults { result.write_faults ≡ 0 }
        ensures short_saves { result.short_saves ≡ 0 }
        ensures taken { result.taken ≡ 0 }
    {
        MemoryFiles {
            entries,
            failing,
            calls: 0,
            failed: String::new(alloc),
            read_faults: 0,
            write_faults: 0,
            short_saves: 0,
            taken: 0,
        }
    }

    /// The bytes of the file of this name, where it is held.
    pub fn file(&self, name: &str) -> Option<&[u8]>
        ensures { option_map (λ b. b.now) result ≡ file_at name.now self.now.held }
    {
        for entry in self.entries.iter() {
            if name == entry.0.as_str() {
                return Some(entry.1.as_slice());
            }
        }
        None
    }
}

impl Files for MemoryFiles {
    ghost held = { λ f. Some f.held };

    ghost read_faults = { λ f. f.read_faults };

    ghost write_faults = { λ f. f.write_faults };

    ghost short_saves = { λ f. f.short_saves };

    ghost failed = { λ f. f.failed };

    ghost taken = { λ f. f.taken };

    fn load(&mut self, alloc: Global, name: &str, limit: u32) -> Result<Vec<u8>, LoadError>
        ensures loads { Loads name.now limit self.old result self.new }
        ensures read_faults { self.old.read_faults ≤ self.new.read_faults }
        ensures taken { self.old.taken ≤ self.new.taken }
        ensures none_failing { self.old.failing ≡ [] → IsSome (file_at name.now self.old.held) → self.new.read_faults ≡ self.old.read_faults }
    {
        let own_name = String::from_str(alloc, name)?;
        if self.kept_now().is_some() {
            return Err(self.note_load(own_name));
        }
        let bytes = match self.file(name) {
            Some(bytes) => bytes.to_vec(alloc)?,
            None => return Err(self.note_load(own_name)),
        };
        self.count_call();
        if bytes.len() > limit as usize {
            return Err(LoadError::TooLong);
        }
        self.taken = self.taken.saturating_add(bytes.len() as u64);
        Ok(bytes)
    }

    #[tactic(auto, using(crate::proofs::StoreLemmas::saves))]
    fn save(&mut self, alloc: Global, name: &str, bytes: &[u8]) -> Result<(), SaveError>
        ensures saves { Saves name.now bytes.now self.old result self.new }
        ensures saved { OnOk result (file_at name.now self.new.held ≡ Some bytes.now) }
        ensures others { KeepsOthers name.now self.old.held self.new.held }
        ensures part { result ≡ Err SaveError.Failed →
            LeavesPart bytes.now (file_at name.now self.old.held) (file_at name.now self.new.held) }
        ensures write_faults { self.old.write_faults ≤ self.new.write_faults }
        ensures none_failing { self.old.failing ≡ [] → self.new.write_faults ≡ self.old.write_faults }
    {
        match self.save_or_fail(alloc, name, bytes) {
            Ok(()) => Ok(()),
            Err(SaveError::Failed) => Err(SaveError::Failed),
            Err(SaveError::Memory(error)) => {
                self.short_saves = self.short_saves.saturating_add(1);
                Err(SaveError::Memory(error))
            }
        }
    }
}

// The parts of a call. Each changes what the model shows in one way.
impl MemoryFiles {
    // A save, which is not counted where memory runs out.
    fn save_or_fail(&mut self, alloc: Global, name: &str, bytes: &[u8]) -> Result<(), SaveError>
        ensures saves { SavesElse self.old name.now bytes.now self.old result self.new }
        ensures write_faults { self.old.write_faults ≤ self.new.write_faults }
        ensures none_failing { self.old.failing ≡ [] → self.new.write_faults ≡ self.old.write_faults }
    {
        let own_name = String::from_str(alloc, name)?;
        let Some(kept) = self.kept_now() else {
            self.leave(alloc, name, bytes)?;
            self.count_call();
            return Ok(());
        };
        let kept = bytes.len().min(kept as usize);
        self.leave(alloc, name, &bytes[..kept])?;
        Err(self.note_save(own_name))
    }

    // How many bytes the next call keeps, where it is to fail.
    fn kept_now(&self) -> Option<u32>
        ensures { result ≡ store.kept_at self.now.failing self.now.calls }
    {
        kept_at(&self.failing, self.calls)
    }

    // Counts a call.
    fn count_call(&mut self)
        ensures { self.new ≡ called self.old }
    {
        self.calls = self.calls.saturating_add(1);
    }

    // Counts a load of this name that failed.
    fn note_load(&mut self, name: String) -> LoadError
        ensures error { result ≡ LoadError.Failed }
        ensures noted { self.new ≡ read_failed (string_bytes name) (called self.old) }
        ensures grows { self.old.read_faults ≤ self.new.read_faults }
    {
        self.count_call();
        self.failed = name;
        self.read_faults = self.read_faults.saturating_add(1);
        LoadError::Failed
    }

    // Counts a save of this name that failed.
    fn note_save(&mut self, name: String) -> SaveError
        ensures error { result ≡ SaveError.Failed }
        ensures noted { self.new ≡ write_failed (string_bytes name) (called self.old) }
        ensures grows { self.old.write_faults ≤ self.new.write_faults }
    {
        self.count_call();
        self.failed = name;
        self.write_faults = self.write_faults.saturating_add(1);
        SaveError::Failed
    }

    // Puts these bytes at the name.
    fn leave(&mut self, alloc: Global, name: &str, bytes: &[u8]) -> Result<(), AllocError>
        ensures ok { OnOk result (self.new ≡ left name.now bytes.now self.old) }
        ensures err { OnErr result (self.new ≡ self.old) }
    {
        let name = String::from_str(alloc, name)?;
        let bytes = bytes.to_vec(alloc)?;
        put_file(&mut self.entries, name, bytes)
    }
}

// The place of the first entry of this name.
fn place_of(entries: &[(String, Vec<u8>)], name: &str) -> Option<usize>
    ensures { result ≡ position (λ e. bytes_eq name.now (string_bytes e.0)) entries.entry.now }
{
    entries.iter().position(|e| name == e.0.as_str())
}

// Puts the bytes at the name, in place of its file or behind the others.
fn put_file(
    entries: &mut Vec<(String, Vec<u8>)>,
    name: String,
    bytes: Vec<u8>,
) -> Result<(), AllocError>
    ensures ok { OnOk result (held_of entries.new.items ≡ with_file (string_bytes name) bytes.items (held_of entries.old.items)) }
    ensures err { OnErr result (entries.new.items ≡ entries.old.items) }
{
    match place_of(entries, name.as_str()) {
        Some(at) => entries[at].1 = bytes,
        None => entries.push((name, bytes))?,
    }
    Ok(())
}
