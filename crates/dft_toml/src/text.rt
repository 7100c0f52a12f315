ghost use Rattle.std.specs.Prelude.{◌≡◌, IfOk, IfErr};
ghost use Rattle.toml.specs.View.{table_view};
ghost use Rattle.dft_toml.specs.Text.{IsTable, IsRefused};
ghost use Rattle.dft_toml.specs.declared.text.TableError.TheVariants.{Memory};

use std::alloc::{AllocError, Global};
use thiserror::Error;
use toml::Table;

/// Why bytes give no table.
#[derive(Clone, Copy, Debug, PartialEq, Eq, Error)]
pub enum TableError {
    /// They are no TOML text.
    #[error("no TOML text")]
    NotToml,
    /// There is no memory left.
    #[error("out of memory")]
    Memory(AllocError),
}

impl From<AllocError> for TableError {
    ghost from_gives = { λ a e. e ≡ Memory a };

    fn from(e: AllocError) -> TableError {
        TableError::Memory(e)
    }
}

/// The table that the bytes of a text stand for.
pub fn read_table(alloc: Global, bytes: &[u8]) -> Result<Table, TableError>
    ensures table { IfOk result (λ table. IsTable bytes.now (table_view table)) }
    ensures refused { IfErr result (IsRefused bytes.now) }
{
    match toml::table_from_slice(alloc, bytes) {
        Ok(table) => Ok(table),
        Err(error) => {
            if error.is_memory() {
                Err(TableError::Memory(AllocError))
            } else {
                Err(TableError::NotToml)
            }
        }
    }
}
