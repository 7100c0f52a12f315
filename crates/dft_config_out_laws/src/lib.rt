//! Laws of the texts of made configurations.
#![tactic(auto)]

mod laws;

pub use laws::{head_is_skipped, lists_are_read, names_are_read, table_is_read, text_is_read};
