//! Configurations of tests, from tables in place of texts.
#![tactic(auto)]

mod lists;
mod making;
mod shape;

pub use making::config_of;
pub use shape::Shape;
