//! The line of an outcome.

ghost use Rattle.std.specs.Prelude.{◌≡◌};
ghost use Rattle.dft_answers.specs.Lines.{line_of};
ghost use Rattle.dft_answers.specs.Puts.{Prints};

use crate::{Answer, Outcome, Status};
use dft_files::{PutError, Sink};

/// Puts the line of an outcome, and answers it.
pub fn put_line<O: Sink>(outcome: Outcome, line: &[u8], out: &mut O) -> Answer
    requires { line.now ≡ line_of outcome }
    ensures { Prints outcome (O.faults out.old) (O.faults out.new) (O.short_puts out.old) (O.short_puts out.new) (O.told out.old) (O.told out.new) result }
{
    match out.put(line) {
        Ok(()) => Answer::of(outcome),
        Err(PutError::Failed) => Answer::stopped(Status::WriteFault),
        Err(PutError::Memory(_)) => Answer::stopped(Status::OutOfMemory),
    }
}
