//! Writes the texts of made configurations.
#![tactic(auto)]

mod lists;
mod made;
mod names;
mod numbers;
mod sections;

pub use made::{Made, made_text};
