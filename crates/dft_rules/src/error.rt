ghost use Rattle.std.specs.Prelude.{◌≡◌, alloc_error};
ghost use Rattle.dft_rules.specs.declared.error.RuleError.TheVariants.{Memory};

use dft_base::Name;
use std::alloc::{AllocError, AllocFailed};
use thiserror::Error;

/// Why a design cannot be scanned as a configuration wants.
#[derive(Debug, Error, Drop)]
pub enum RuleError {
    /// A net that shows a configured domain's port, or its inverse, is joined to an input pin that is none of a buffer's or an
    /// inverter's, nor a clock pin, nor a pin of an opaque cell.
    #[error("a clock is used as data")]
    ClockAsData { net: Name },
    /// A scan cell is there already.
    #[error("a scan cell is there already")]
    ScanCellPresent { instance: Name },
    /// There are fewer scanned cells than chains.
    #[error("fewer scanned cells than chains")]
    TooFewCells { found: i64, wanted: i64 },
    /// A configured domain or reset is no input port's bit, or a kept name is that of no flip-flop.
    #[error("a configured name is not in the design")]
    UnknownName { name: Name },
    /// A lock-up latch is there already.
    #[error("a lock-up is there already")]
    LockupPresent { instance: Name },
    /// A port's name has a double quote, which no pattern text can name.
    #[error("a port's name has a double quote")]
    PortName { name: Name },
    #[error("out of memory")]
    Memory(AllocError),
}

impl From<AllocError> for RuleError {
    ghost from_gives = { λ error e. e ≡ Memory error };

    fn from(error: AllocError) -> RuleError {
        RuleError::Memory(error)
    }
}

impl<T: Drop> From<AllocFailed<T>> for RuleError {
    ghost from_gives = { λ error e. e ≡ Memory alloc_error };

    fn from(_error: AllocFailed<T>) -> RuleError {
        RuleError::Memory(AllocError)
    }
}
