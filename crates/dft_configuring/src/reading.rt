//! Texts of made configurations, and what they are read as.

ghost use Rattle.std.specs.Prelude.{◌≡◌, ◌≤◌, IfErr, IfOk, OnOk, length};
ghost use Rattle.dft_config_text.specs.Refusals.{IsConfig};
ghost use Rattle.dft_config_out.specs.Written as spec;
ghost use Rattle.dft_config_out_laws.specs.Tables.{IsWritable};
ghost use Rattle.dft_configuring.specs.Causes.{IsLong};
ghost use Rattle.dft_configuring.specs.Steps.{IsWritten};

use crate::error::ConfigureError;
use dft_config::Config;
use dft_config_out::{Made, made_text};
use dft_config_out_laws::text_is_read;
use dft_config_text::ConfigError;
use std::alloc::{AllocError, Global};

// The longest text that is read as a configuration.
const MAX_TEXT: usize = 67_108_864;

// A configuration with its text.
#[derive(Debug, Drop)]
pub(crate) struct Written {
    pub(crate) config: Config,
    pub(crate) text: Vec<u8>,
}

impl Written {
    // The configuration.
    pub(crate) fn config(&self) -> &Config
        ensures { result.now ≡ self.now.config }
    {
        &self.config
    }

    // The configuration alone.
    pub(crate) fn into_config(self) -> Config
        ensures { result ≡ self.config }
    {
        self.config
    }
}

// Tests that a text is no longer than a configuration file may be.
fn check_length(text: &[u8]) -> Result<(), ConfigureError>
    ensures short { OnOk result (length text.now ≤ 67108864) }
    ensures refused { IfErr result (IsLong text.now) }
{
    if text.len() > MAX_TEXT {
        return Err(ConfigureError::LongText {
            first: text.len() as i64,
        });
    }
    Ok(())
}

// The want of memory for which a text is refused; `text_is_read` says that nothing else refuses it.
fn for_memory(error: ConfigError) -> AllocError {
    match error {
        ConfigError::Memory(error) => error,
        _ => AllocError,
    }
}

// The configuration that a text gives, if it is no longer than one may be.
fn read_text(alloc: Global, text: &[u8]) -> Result<Config, ConfigureError>
    ensures config { IfOk result (IsConfig text.now) }
    ensures short { IfOk result (λ config. length text.now ≤ 67108864) }
    ensures refused { IfErr result (IsLong text.now) }
{
    check_length(text)?;
    match dft_config_text::read(alloc, text) {
        Ok(config) => Ok(config),
        Err(error) => Err(ConfigureError::Memory(for_memory(error))),
    }
}

// The text of a made configuration for so many flip-flops, and the configuration that it is read as.
pub(crate) fn write_made(alloc: Global, cells: u32, made: &Made) -> Result<Written, ConfigureError>
    requires { IsWritable made.now }
    ensures written { IfOk result (IsWritten cells made.now) }
    ensures refused { IfErr result (IsLong (spec.made_text cells made.now)) }
{
    text_is_read();
    let text = made_text(alloc, cells, made)?;
    let config = read_text(alloc, &text)?;
    Ok(Written { config, text })
}
