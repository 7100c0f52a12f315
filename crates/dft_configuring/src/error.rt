ghost use Rattle.std.specs.Prelude.{◌≡◌, alloc_error};
ghost use Rattle.dft_configuring.specs.declared.error.ConfigureError.TheVariants.{Memory};
ghost use Rattle.dft_configuring.specs.Told.{of_insertion, of_planning, of_rules};

use dft_insert::InsertError;
use dft_rules::RuleError;
use dft_stitch::{PrepareError, StitchError};
use std::alloc::{AllocError, AllocFailed};
use thiserror::Error;

/// What is limited by the chains, or by the most of them.
#[derive(Clone, Copy, Debug, PartialEq, Eq)]
pub enum Limited {
    /// Chains.
    Chains,
    /// Outputs.
    Outputs,
    /// Mask inputs.
    Masks,
}

/// Why no configuration is made for a netlist.
#[derive(Debug, Error, Drop)]
pub enum ConfigureError {
    /// No clock of an open flip-flop is clean.
    #[error("the netlist has no scan clock")]
    NoClock,
    /// There would be more than the most.
    #[error("too many")]
    TooMany { what: Limited, most: i64 },
    /// The scan rules refuse it.
    #[error("the scan rules refuse the netlist")]
    Rules(RuleError),
    /// No size of ring has phase sets for so many chains.
    #[error("no ring fits")]
    NoRing,
    /// K6: the configuration would have this many bytes, which is more than a configuration file may have.
    #[error("the configuration is too long")]
    LongText { first: i64 },
    /// A limit of the plan is passed.
    #[error("no chains can be planned")]
    Stitch(StitchError),
    /// What would be added is refused.
    #[error("the hardware cannot be inserted")]
    Insert(InsertError),
    #[error("out of memory")]
    Memory(AllocError),
}

impl From<AllocError> for ConfigureError {
    ghost from_gives = { λ error e. e ≡ Memory error };

    fn from(error: AllocError) -> ConfigureError {
        ConfigureError::Memory(error)
    }
}

impl<T: Drop> From<AllocFailed<T>> for ConfigureError {
    ghost from_gives = { λ error e. e ≡ Memory alloc_error };

    fn from(_error: AllocFailed<T>) -> ConfigureError {
        ConfigureError::Memory(AllocError)
    }
}

impl From<RuleError> for ConfigureError {
    ghost from_gives = { λ error e. e ≡ of_rules error };

    fn from(error: RuleError) -> ConfigureError {
        match error {
            RuleError::Memory(error) => ConfigureError::Memory(error),
            error => ConfigureError::Rules(error),
        }
    }
}

impl From<InsertError> for ConfigureError {
    ghost from_gives = { λ error e. e ≡ of_insertion error };

    fn from(error: InsertError) -> ConfigureError {
        match error {
            InsertError::Memory(error) => ConfigureError::Memory(error),
            error => ConfigureError::Insert(error),
        }
    }
}

impl From<PrepareError> for ConfigureError {
    ghost from_gives = { λ error e. e ≡ of_planning error };

    fn from(error: PrepareError) -> ConfigureError {
        match error {
            PrepareError::Rules(error) => ConfigureError::Rules(error),
            PrepareError::Stitch(error) => ConfigureError::Stitch(error),
            PrepareError::Memory(error) => ConfigureError::Memory(error),
        }
    }
}
