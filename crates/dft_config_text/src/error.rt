ghost use Rattle.std.specs.Prelude.{◌≡◌, IfOk, alloc_error};
ghost use Rattle.dft_config_text.specs.Refusals as spec;
ghost use Rattle.dft_toml.specs.declared.text.TableError.TheVariants as text;
ghost use Rattle.dft_config_text.specs.declared.error.ConfigError.TheVariants.{C1, Memory};

use crate::fault::Fault;
use dft_base::Name;
use dft_toml::TableError;
use std::alloc::{AllocError, Global};
use thiserror::Error;

/// Why a text gives no configuration. A name is that of a key, with its points, and `?` for each byte that is not printed.
#[derive(Debug, Error, Drop)]
pub enum ConfigError {
    /// The bytes are no TOML text.
    #[error("the bytes are no TOML text")]
    C1,
    /// The key is missing, holds another kind of value, or is unknown.
    #[error("a key is missing, holds another kind of value or a list of another form, or is unknown")]
    C2 { name: Name },
    /// A number at the key, or the count of its list, is outside of its range; `first` is the first such number.
    #[error("a number, or the count of a list, is outside of its range")]
    C3 { name: Name, first: i64 },
    /// A list in the list at the key is empty.
    #[error("a list in the list is empty")]
    C4 { name: Name },
    /// The first chain that stands in no group.
    #[error("a chain stands in no group")]
    C5 { first: i64 },
    /// Something stands twice in one list at the key.
    #[error("something stands twice")]
    C6 { name: Name },
    /// There is no memory left.
    #[error("out of memory")]
    Memory(AllocError),
}

impl From<AllocError> for ConfigError {
    ghost from_gives = { λ a e. e ≡ Memory a };

    fn from(e: AllocError) -> ConfigError {
        ConfigError::Memory(e)
    }
}

impl From<TableError> for ConfigError {
    ghost from_gives = { λ a e. e ≡ spec.told_of_text a };

    fn from(e: TableError) -> ConfigError {
        match e {
            TableError::NotToml => ConfigError::C1,
            TableError::Memory(e) => ConfigError::Memory(e),
        }
    }
}

/// The refusal that tells a fault.
pub fn told(alloc: Global, fault: Fault) -> Result<ConfigError, AllocError>
    ensures { IfOk result (λ e. e ≡ spec.told fault) }
{
    match fault {
        Fault::Missing(key) => Ok(ConfigError::C2 {
            name: key.name(alloc)?,
        }),
        Fault::Outside(key, first) => Ok(ConfigError::C3 {
            name: key.name(alloc)?,
            first,
        }),
        Fault::Empty(key) => Ok(ConfigError::C4 {
            name: key.name(alloc)?,
        }),
        Fault::Repeated(key) => Ok(ConfigError::C6 {
            name: key.name(alloc)?,
        }),
        Fault::Unreached(first) => Ok(ConfigError::C5 { first }),
        Fault::Unknown(name) => Ok(ConfigError::C2 { name }),
        Fault::Memory(e) => Ok(ConfigError::Memory(e)),
    }
}
