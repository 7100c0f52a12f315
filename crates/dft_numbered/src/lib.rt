//! Names with numbers, which are found by their bytes.
#![tactic(auto)]

mod numbered;

pub use numbered::Numbered;
