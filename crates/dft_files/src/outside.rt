ghost use Rattle.std.specs.Prelude.{◌≡◌, ◌≢◌, ◌<◌, ◌≤◌, ◌+◌, ◌↔◌, ℕ, List, Option, Some, None, Err, IfOk, OnOk, OnErr, IsSomeAnd, length, is_some};
ghost use Rattle.dft_files.specs.Outside.{Held, KeepsOthers, Rose, RoseBy, Told, ToldChange, ComesToLength, IsShortPut, IsShortSave, LeavesPart, file_at};
ghost use Rattle.dft_files.specs.Put.{Adds, AddsPrefix};

use std::alloc::{AllocError, Global};
use thiserror::Error;

/// Why a file was not loaded.
#[derive(Debug, Error, Drop)]
pub enum LoadError {
    /// The outside failed, or has no file of this name.
    #[error("the file cannot be read")]
    Failed,
    /// The file has more bytes than the limit.
    #[error("the file has more bytes than its limit")]
    TooLong,
    /// Memory ran out.
    #[error("out of memory")]
    Memory(AllocError),
}

/// Why a file was not saved as a whole.
#[derive(Debug, Error, Drop)]
pub enum SaveError {
    /// The outside failed.
    #[error("the file cannot be written")]
    Failed,
    /// Memory ran out.
    #[error("out of memory")]
    Memory(AllocError),
}

/// Why not all bytes were put.
#[derive(Debug, Error, Drop)]
pub enum PutError {
    /// The outside failed.
    #[error("standard output cannot be written")]
    Failed,
    /// Memory ran out.
    #[error("out of memory")]
    Memory(AllocError),
}

impl From<AllocError> for LoadError {
    ghost use Rattle.dft_files.specs.declared.outside.LoadError.TheVariants.{Memory};

    ghost from_gives = { λ a e. e ≡ Memory a };

    fn from(error: AllocError) -> LoadError {
        LoadError::Memory(error)
    }
}

impl From<AllocError> for SaveError {
    ghost use Rattle.dft_files.specs.declared.outside.SaveError.TheVariants.{Memory};

    ghost from_gives = { λ a e. e ≡ Memory a };

    fn from(error: AllocError) -> SaveError {
        SaveError::Memory(error)
    }
}

impl From<AllocError> for PutError {
    ghost use Rattle.dft_files.specs.declared.outside.PutError.TheVariants.{Memory};

    ghost from_gives = { λ a e. e ≡ Memory a };

    fn from(error: AllocError) -> PutError {
        PutError::Memory(error)
    }
}

/// Named files. An implementation tells what files it holds, or tells nothing of them.
/// It counts its failed calls, and its saves that ended for want of memory, each count up to the last value of a u64.
pub trait Files {
    /// The names with their files, where they are told.
    ghost held: { Self → Option Held };

    /// How many loads have failed.
    ghost read_faults: { Self → ℕ };

    /// How many saves have failed.
    ghost write_faults: { Self → ℕ };

    /// How many saves have ended for want of memory.
    ghost short_saves: { Self → ℕ };

    /// The name in the last call that answered `Failed`, empty before the first.
    ghost failed: { Self → List ℕ };

    /// How many bytes loads have taken.
    ghost taken: { Self → ℕ };

    /// The bytes of a file of at most `limit` bytes.
    fn load(&mut self, alloc: Global, name: &str, limit: u32) -> Result<Vec<u8>, LoadError>
        ensures bytes { IfOk result (λ v. Told (λ h. file_at name.now h ≡ Some v.items) (held self.old)) }
        ensures limit { IfOk result (λ v. length v.items ≤ limit) }
        ensures absent { Told (λ h. file_at name.now h ≡ None → ¬ ComesToLength result) (held self.old) }
        ensures too_long { Told (λ h. ComesToLength result → (result ≡ Err LoadError.TooLong)
            ↔ IsSomeAnd (file_at name.now h) (λ b. limit < length b)) (held self.old) }
        ensures untold { held self.old ≡ None → result ≡ Err LoadError.TooLong
            → RoseBy (limit + 1) (taken self.old) (taken self.new) }
        ensures fault { result ≡ Err LoadError.Failed → Rose (read_faults self.old) (read_faults self.new) }
        ensures failed { result ≡ Err LoadError.Failed → failed self.new ≡ name.now }
        ensures quiet { result ≢ Err LoadError.Failed → failed self.new ≡ failed self.old }
        ensures held { held self.new ≡ held self.old }
        ensures read_faults { read_faults self.old ≤ read_faults self.new }
        ensures write_faults { write_faults self.new ≡ write_faults self.old }
        ensures short_saves { short_saves self.new ≡ short_saves self.old }
        ensures taken { taken self.old ≤ taken self.new };

    /// Makes these the bytes of the file, whether there was one or not.
    fn save(&mut self, alloc: Global, name: &str, bytes: &[u8]) -> Result<(), SaveError>
        ensures saved { OnOk result (Told (λ h. file_at name.now h ≡ Some bytes.now) (held self.new)) }
        ensures others { ToldChange (KeepsOthers name.now) (held self.old) (held self.new) }
        ensures part { result ≡ Err SaveError.Failed → ToldChange
            (λ old new. LeavesPart bytes.now (file_at name.now old) (file_at name.now new)) (held self.old) (held self.new) }
        ensures memory { OnErr result (result ≢ Err SaveError.Failed → held self.new ≡ held self.old) }
        ensures fault { result ≡ Err SaveError.Failed → Rose (write_faults self.old) (write_faults self.new) }
        ensures failed { result ≡ Err SaveError.Failed → failed self.new ≡ name.now }
        ensures quiet { result ≢ Err SaveError.Failed → failed self.new ≡ failed self.old }
        ensures short { IsShortSave result → Rose (short_saves self.old) (short_saves self.new) }
        ensures enough { ¬ IsShortSave result → short_saves self.new ≡ short_saves self.old }
        ensures tells { is_some (held self.new) ≡ is_some (held self.old) }
        ensures write_faults { write_faults self.old ≤ write_faults self.new }
        ensures read_faults { read_faults self.new ≡ read_faults self.old }
        ensures taken { taken self.new ≡ taken self.old };
}

/// A place that bytes go to, in order. An implementation tells the bytes put so far, or tells nothing of them.
/// It counts its failed calls, and those that ended for want of memory, each count up to the last value of a u64.
pub trait Sink {
    /// The bytes put so far, where they are told.
    ghost told: { Self → Option (List ℕ) };

    /// How many calls have failed.
    ghost faults: { Self → ℕ };

    /// How many calls have ended for want of memory.
    ghost short_puts: { Self → ℕ };

    /// Puts these bytes behind those put so far.
    fn put(&mut self, bytes: &[u8]) -> Result<(), PutError>
        ensures all { OnOk result (Adds bytes.now (told self.old) (told self.new)) }
        ensures prefix { result ≡ Err PutError.Failed → AddsPrefix bytes.now (told self.old) (told self.new) }
        ensures memory { OnErr result (result ≢ Err PutError.Failed → told self.new ≡ told self.old) }
        ensures fault { result ≡ Err PutError.Failed → Rose (faults self.old) (faults self.new) }
        ensures short { IsShortPut result → Rose (short_puts self.old) (short_puts self.new) }
        ensures enough { ¬ IsShortPut result → short_puts self.new ≡ short_puts self.old }
        ensures tells { is_some (told self.new) ≡ is_some (told self.old) }
        ensures faults { faults self.old ≤ faults self.new };
}
