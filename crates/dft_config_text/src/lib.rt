//! Configurations, read from their TOML texts.
#![tactic(auto)]

mod checks;
mod distinct;
mod error;
mod fault;
mod lists;
mod port;
mod reader;
mod reading;
mod section;
mod unknown;
mod values;

pub use error::ConfigError;
pub use reader::read;
