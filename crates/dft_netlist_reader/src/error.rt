ghost use Rattle.std.specs.Prelude.{◌≡◌};
ghost use Rattle.dft_hier.specs.Laid.{told_of};
ghost use Rattle.dft_netlist_reader.specs.declared.error.DesignError.TheVariants.{Modules, Text};

use dft_hier::{HierError, told};
use dft_netlist::NetlistError;
use dft_verilog::ModulesError;
use thiserror::Error;

/// Why a netlist text stands for no design.
#[derive(Debug, Error, Drop)]
pub enum DesignError {
    /// The text is refused, or memory ran out.
    #[error("the text is refused")]
    Text(ModulesError),
    /// Its modules have no flat design, or memory ran out.
    #[error("the modules give no design")]
    Modules(HierError),
}

impl From<ModulesError> for DesignError {
    ghost from_gives = { λ error gives. gives ≡ Text error };

    fn from(error: ModulesError) -> DesignError {
        DesignError::Text(error)
    }
}

impl From<HierError> for DesignError {
    ghost from_gives = { λ error gives. gives ≡ Modules error };

    fn from(error: HierError) -> DesignError {
        DesignError::Modules(error)
    }
}

impl From<NetlistError> for DesignError {
    ghost from_gives = { λ error gives. gives ≡ Modules (told_of error) };

    fn from(error: NetlistError) -> DesignError {
        DesignError::Modules(told(error))
    }
}
