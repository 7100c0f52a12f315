//! The texts of files: each is loaded by its name, or given, and is no longer than its limit.

ghost use Rattle.std.specs.Prelude.{◌≡◌, ◌≤◌, ◌<◌, IfOk, OnOk, Err, Some, length};
ghost use Rattle.dft_base.specs.Name.{IsName};
ghost use Rattle.dft_files.specs.Outside.{file_at};
ghost use Rattle.dft_answers.specs.Texts.{FileGives, IsText, too_long};
ghost use Rattle.dft_answers.specs.Steps.{OnRefused, Takes, seen_files};

use crate::stop::Stop;
use crate::{Code, Refusal};
use dft_base::Name;
use dft_files::{Files, LoadError};
use std::alloc::{AllocError, Global};

/// The text of a file that is named by an option of the command. It is refused where it is longer than the limit.
pub fn load_text<F: Files>(
    alloc: Global,
    files: &mut F,
    name: &str,
    option: &[u8],
    limit: u32,
) -> Result<Vec<u8>, Stop>
    requires { IsName option.now }
    ensures takes { Takes (Some name.now) (λ h. FileGives limit option.now IsText (file_at name.now h))
        (seen_files (F.held files.old) (F.failed files.old) (F.read_faults files.old) (F.write_faults files.old) (F.short_saves files.old))
        (seen_files (F.held files.new) (F.failed files.new) (F.read_faults files.new) (F.write_faults files.new) (F.short_saves files.new)) result }
    ensures short { IfOk result (λ text. length text.items ≤ limit) }
{
    match files.load(alloc, name, limit) {
        Ok(text) => Ok(text),
        Err(LoadError::TooLong) => Err(Stop::Refused(longer(alloc, option)?)),
        Err(LoadError::Failed) => Err(Stop::ReadFault),
        Err(LoadError::Memory(_)) => Err(Stop::OutOfMemory),
    }
}

/// Refuses a text that is longer than its limit, with the name of its option.
pub fn check_length(alloc: Global, text: &[u8], option: &[u8], limit: u32) -> Result<(), Stop>
    requires { IsName option.now }
    ensures short { OnOk result (length text.now ≤ limit) }
    ensures long { OnRefused result (λ refusal. (limit < length text.now) × (refusal ≡ too_long option.now)) }
    ensures quiet { result ≡ Err Stop.ReadFault → ⊥ }
{
    if text.len() > limit as usize {
        return Err(Stop::Refused(longer(alloc, option)?));
    }
    Ok(())
}

// The refusal of a file that is longer than its limit, with the name of its option.
fn longer(alloc: Global, option: &[u8]) -> Result<Refusal, AllocError>
    requires { IsName option.now }
    ensures { IfOk result (λ refusal. refusal ≡ too_long option.now) }
{
    Ok(Refusal::named(Code::F1, Name::from_slice(alloc, option)?))
}
