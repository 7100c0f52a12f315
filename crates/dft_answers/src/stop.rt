//! Where a command stops before its last step.

use crate::Refusal;
use std::alloc::AllocError;

/// Why a step of a command gives no value.
#[derive(Debug, Drop)]
pub enum Stop {
    /// A file is refused.
    Refused(Refusal),
    /// A file could not be loaded.
    ReadFault,
    OutOfMemory,
}

impl From<AllocError> for Stop {
    ghost use Rattle.std.specs.Prelude.{◌≡◌};
    ghost use Rattle.dft_answers.specs.declared.stop.Stop.TheVariants.{OutOfMemory};

    ghost from_gives = { λ _ e. e ≡ OutOfMemory };

    fn from(_error: AllocError) -> Stop {
        Stop::OutOfMemory
    }
}
