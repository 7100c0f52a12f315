ghost use Rattle.std.specs.Prelude.{◌≡◌, ◌≤◌, ◌++◌, [], Some, Err, OnOk, OnErr};
ghost use Rattle.dft_files.specs.Basin.{Puts};
ghost use Rattle.dft_files.specs.Put.{AddsPrefix};
ghost use Rattle.dft_files.specs.Store.{count_up};

use crate::failing::{Failing, kept_at};
use crate::outside::{PutError, Sink};
use std::alloc::{AllocError, Global};
use std::marker::Model;

/// A sink in memory that tells its bytes, with calls that fail on demand.
pub struct MemorySink {
    bytes: Vec<u8>,
    failing: Vec<Failing>,
    calls: u64,
    faults: u64,
    short_puts: u64,
}

// One call for all fields, so that the proof of what owns a value stays short.
impl Drop for MemorySink {
    fn drop(self) {
        let MemorySink {
            bytes: _,
            failing: _,
            calls: _,
            faults: _,
            short_puts: _,
        } = self;
    }
}

impl Model for MemorySink {
    ghost use Rattle.dft_files.specs.Basin.{Basin};

    ghost Value = { Basin };

    ghost use Rattle.dft_files.specs.BasinShown.{basin_of};

    ghost view = { basin_of };
}

impl MemorySink {
    /// An empty sink. Its calls are counted from 0, and those of `failing` fail.
    pub fn new(alloc: Global, failing: Vec<Failing>) -> MemorySink
        ensures bytes { result.bytes ≡ [] }
        ensures failing { result.failing ≡ failing.items }
        ensures calls { result.calls ≡ 0 }
        ensures faults { result.faults ≡ 0 }
        ensures short_puts { result.short_puts ≡ 0 }
    {
        MemorySink {
            bytes: Vec::new(alloc),
            failing,
            calls: 0,
            faults: 0,
            short_puts: 0,
        }
    }

    /// The bytes put so far.
    pub fn bytes(&self) -> &[u8]
        ensures { result.now ≡ self.now.bytes }
    {
        &self.bytes
    }
}

impl Sink for MemorySink {
    ghost told = { λ s. Some s.bytes };

    ghost faults = { λ s. s.faults };

    ghost short_puts = { λ s. s.short_puts };

    fn put(&mut self, bytes: &[u8]) -> Result<(), PutError>
        ensures puts { Puts bytes.now self.old result self.new }
        ensures prefix { result ≡ Err PutError.Failed → AddsPrefix bytes.now (Some self.old.bytes) (Some self.new.bytes) }
        ensures faults { self.old.faults ≤ self.new.faults }
        ensures none_failing { self.old.failing ≡ [] → self.new.faults ≡ self.old.faults }
    {
        let Some(kept) = kept_at(&self.failing, self.calls) else {
            add(&mut self.bytes, &mut self.short_puts, bytes)?;
            self.calls = self.calls.saturating_add(1);
            return Ok(());
        };
        let kept = bytes.len().min(kept as usize);
        add(&mut self.bytes, &mut self.short_puts, &bytes[..kept])?;
        self.calls = self.calls.saturating_add(1);
        self.faults = self.faults.saturating_add(1);
        Err(PutError::Failed)
    }
}

// Adds bytes, or counts that memory ran out.
fn add(bytes: &mut Vec<u8>, short: &mut u64, more: &[u8]) -> Result<(), AllocError>
    ensures ok { OnOk result (bytes.new.items ≡ bytes.old.items ++ more.now) }
    ensures err { OnErr result (bytes.new.items ≡ bytes.old.items) }
    ensures enough { OnOk result (short.new ≡ short.old) }
    ensures short { OnErr result (short.new ≡ count_up short.old 1) }
{
    match bytes.extend_from_slice(more) {
        Ok(()) => Ok(()),
        Err(error) => {
            *short = short.saturating_add(1);
            Err(error)
        }
    }
}

/// A sink in memory that never fails.
pub struct NeverFails {
    bytes: Vec<u8>,
    short_puts: u64,
}

// One call for all fields, so that the proof of what owns a value stays short.
impl Drop for NeverFails {
    fn drop(self) {
        let NeverFails {
            bytes: _,
            short_puts: _,
        } = self;
    }
}

impl Model for NeverFails {
    ghost use Rattle.dft_files.specs.Basin.{Bytes};

    ghost Value = { Bytes };

    ghost view = { λ s. record { bytes = s.bytes.items; short_puts = s.short_puts } };
}

impl NeverFails {
    /// An empty sink.
    pub fn new(alloc: Global) -> NeverFails
        ensures bytes { result.bytes ≡ [] }
        ensures short_puts { result.short_puts ≡ 0 }
    {
        NeverFails {
            bytes: Vec::new(alloc),
            short_puts: 0,
        }
    }

    /// The bytes put so far.
    pub fn bytes(&self) -> &[u8]
        ensures { result.now ≡ self.now.bytes }
    {
        &self.bytes
    }
}

impl Sink for NeverFails {
    ghost told = { λ s. Some s.bytes };

    ghost faults = { λ s. 0 };

    ghost short_puts = { λ s. s.short_puts };

    fn put(&mut self, bytes: &[u8]) -> Result<(), PutError> {
        add(&mut self.bytes, &mut self.short_puts, bytes)?;
        Ok(())
    }
}
