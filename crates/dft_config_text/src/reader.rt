ghost use Rattle.std.specs.Prelude.{◌≤◌, length, IfOk, IfErr};
ghost use Rattle.dft_config_text.specs.Refusals.{IsConfig, IsRefused};

use crate::error::{ConfigError, told};
use crate::reading::config_of;
use dft_config::Config;
use dft_toml::read_table;
use std::alloc::Global;

/// The configuration that the bytes of a text give, in TOML.
///
/// The keys are read in the order of `Config`'s calls, after `version`, which is 1. C1 comes where the bytes are no
/// TOML text. Then each key is tested in order, by C2 and then C3; then C2 comes for the first unknown key in byte order,
/// C6 over the keys in order, C4 over the keys in order, and C5.
pub fn read(alloc: Global, bytes: &[u8]) -> Result<Config, ConfigError>
    requires { length bytes.now ≤ 67108864 }
    ensures config { IfOk result (IsConfig bytes.now) }
    ensures refused { IfErr result (IsRefused bytes.now) }
{
    let table = read_table(alloc, bytes)?;
    match config_of(alloc, &table) {
        Ok(config) => Ok(config),
        Err(fault) => Err(told(alloc, fault)?),
    }
}
