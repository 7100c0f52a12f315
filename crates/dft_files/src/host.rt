ghost use Rattle.std.specs.Prelude.{◌≡◌, ◌≤◌, ◌+◌, [], None, Err, Ok, IfOk, IfErr, is_some, length, nat_lt, string_bytes};
ghost use Rattle.dft_files.specs.Outside.{Rose, RoseBy};

use crate::outside::{Files, LoadError, PutError, SaveError, Sink};
use std::alloc::Global;
use std::io::{Read, Write};
use std::{fs, io};

/// The real files. They tell nothing of what they hold.
#[derive(Drop)]
pub struct HostFiles<'a, R: std::rt::Files> {
    rt: &'a R,
    failed: String,
    reason: Option<io::Error>,
    read_faults: u64,
    write_faults: u64,
    short_saves: u64,
    taken: u64,
}

impl<'a, R: std::rt::Files> HostFiles<'a, R> {
    /// The files of the host, with no call made.
    pub fn new(rt: &'a R, alloc: Global) -> HostFiles<'a, R>
        ensures held { ⟦<HostFiles<'a, R> as Files>⟧.held result ≡ None }
        ensures failed { ⟦<HostFiles<'a, R> as Files>⟧.failed result ≡ [] }
        ensures read_faults { ⟦<HostFiles<'a, R> as Files>⟧.read_faults result ≡ 0 }
        ensures write_faults { ⟦<HostFiles<'a, R> as Files>⟧.write_faults result ≡ 0 }
        ensures short_saves { ⟦<HostFiles<'a, R> as Files>⟧.short_saves result ≡ 0 }
        ensures taken { ⟦<HostFiles<'a, R> as Files>⟧.taken result ≡ 0 }
    {
        HostFiles {
            rt,
            failed: String::new(alloc),
            reason: None,
            read_faults: 0,
            write_faults: 0,
            short_saves: 0,
            taken: 0,
        }
    }

    /// The name in the last call that failed, empty before the first.
    pub fn failed_name(&self) -> &str
        ensures { result.now ≡ ⟦<HostFiles<'a, R> as Files>⟧.failed self.now }
    {
        self.failed.as_str()
    }

    /// Why the host refused the last call that failed. There is no reason before the first, nor where a file's length grew
    /// without end.
    pub fn reason(&self) -> Option<io::Error> {
        self.reason
    }
}

impl<'a, R: std::rt::Files> Files for HostFiles<'a, R> {
    ghost held = { λ f. None };

    ghost read_faults = { λ f. f.read_faults };

    ghost write_faults = { λ f. f.write_faults };

    ghost short_saves = { λ f. f.short_saves };

    ghost failed = { λ f. string_bytes f.failed };

    ghost taken = { λ f. f.taken };

    fn load(&mut self, alloc: Global, name: &str, limit: u32) -> Result<Vec<u8>, LoadError> {
        let own_name = String::from_str(alloc, name)?;
        let mut reason = None;
        match read_up_to(self.rt, alloc, name, limit, &mut self.taken, &mut reason) {
            Err(LoadError::Failed) => {
                note(&mut self.failed, &mut self.read_faults, own_name);
                self.reason = reason;
                Err(LoadError::Failed)
            }
            answer => answer,
        }
    }

    fn save(&mut self, alloc: Global, name: &str, bytes: &[u8]) -> Result<(), SaveError> {
        let own_name = match String::from_str(alloc, name) {
            Ok(own_name) => own_name,
            Err(error) => {
                self.short_saves = self.short_saves.saturating_add(1);
                return Err(SaveError::Memory(error));
            }
        };
        match write_whole(self.rt, name, bytes) {
            Ok(()) => Ok(()),
            Err(error) => {
                note(&mut self.failed, &mut self.write_faults, own_name);
                self.reason = Some(error);
                Err(SaveError::Failed)
            }
        }
    }
}

// Notes that a call on this name failed.
fn note(failed: &mut String, count: &mut u64, name: String)
    ensures name { failed.new ≡ name }
    ensures rose { Rose count.old count.new }
    ensures grows { count.old ≤ count.new }
{
    *failed = name;
    *count = count.saturating_add(1);
}

// Reads a file up to its end, or past the limit. `taken` counts the bytes that were read, and `reason` takes the error of
// the host.
fn read_up_to<R: std::rt::Files>(
    rt: &R,
    alloc: Global,
    name: &str,
    limit: u32,
    taken: &mut u64,
    reason: &mut Option<io::Error>,
) -> Result<Vec<u8>, LoadError>
    ensures limit { IfOk result (λ v. length v.items ≤ limit) }
    ensures too_long { result ≡ Err LoadError.TooLong → RoseBy (limit + 1) taken.old taken.new }
    ensures taken { taken.old ≤ taken.new }
{
    let mut file = match fs::open(rt, name) {
        Ok(file) => file,
        Err(error) => {
            *reason = Some(error);
            return Err(LoadError::Failed);
        }
    };
    let mut bytes = Vec::new(alloc);
    let mut buffer = [0u8; 4096];
    for _turn in 0..u64::MAX {
        let count = match file.read(&mut buffer) {
            Ok(count) => count,
            Err(error) => {
                *reason = Some(error);
                return Err(LoadError::Failed);
            }
        };
        if count == 0 {
            return Ok(bytes);
        }
        *taken = taken.saturating_add(count as u64);
        if count > limit as usize - bytes.len() {
            return Err(LoadError::TooLong);
        }
        bytes.extend_from_slice(&buffer[..count])?;
    }
    Err(LoadError::Failed)
}

// Writes all the bytes into a file that is made or emptied first, up to the first call of the host that fails.
fn write_whole<R: std::rt::Files>(rt: &R, name: &str, bytes: &[u8]) -> Result<(), io::Error> {
    let mut file = fs::create(rt, name)?;
    let mut rest = bytes;
    while !rest.is_empty() {
        match file.write(rest) {
            Ok(0) => return Err(io::Error::from(io::ErrorKind::WriteZero)),
            Ok(count) => rest = &rest[count..],
            Err(error) => return Err(error),
        }
    }
    Ok(())
}

/// Standard output. It tells nothing of what was put.
#[derive(Drop)]
pub struct OutSink<'a, R: Print> {
    rt: &'a R,
    reason: Option<io::Error>,
    faults: u64,
    ghost reasoned: { is_some reason ≡ nat_lt 0 faults },
}

impl<'a, R: Print> OutSink<'a, R> {
    /// Standard output, with no call made.
    pub fn new(rt: &'a R) -> OutSink<'a, R>
        ensures told { ⟦<OutSink<'a, R> as Sink>⟧.told result ≡ None }
        ensures faults { ⟦<OutSink<'a, R> as Sink>⟧.faults result ≡ 0 }
        ensures short_puts { ⟦<OutSink<'a, R> as Sink>⟧.short_puts result ≡ 0 }
    {
        OutSink {
            rt,
            reason: None,
            faults: 0,
        }
    }

    /// Why the host refused the last call that failed. There is no reason before the first.
    pub fn reason(&self) -> Option<io::Error>
        ensures { is_some result ≡ nat_lt 0 (⟦<OutSink<'a, R> as Sink>⟧.faults self.now) }
    {
        self.reason
    }
}

impl<'a, R: Print> Sink for OutSink<'a, R> {
    ghost told = { λ s. None };

    ghost faults = { λ s. s.faults };

    // The host takes bytes as they are, so that no put needs memory.
    ghost short_puts = { λ s. 0 };

    fn put(&mut self, bytes: &[u8]) -> Result<(), PutError> {
        match print_whole(self.rt, bytes) {
            Ok(()) => Ok(()),
            Err(error) => {
                self.faults = self.faults.saturating_add(1);
                self.reason = Some(error);
                Err(PutError::Failed)
            }
        }
    }
}

// Prints all the bytes, up to the first call of the host that fails.
fn print_whole<R: Print>(rt: &R, bytes: &[u8]) -> Result<(), io::Error> {
    let mut rest = bytes;
    while !rest.is_empty() {
        match rt.write_some(rest) {
            Ok(0) => return Err(io::Error::from(io::ErrorKind::WriteZero)),
            Ok(count) => rest = &rest[count..],
            Err(error) => return Err(error),
        }
    }
    Ok(())
}
