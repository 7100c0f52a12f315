//! Reading TOML: the table that a text stands for, and what its keys hold.
#![tactic(auto)]

mod keys;
mod lookup;
mod text;

pub use keys::{has_only, has_word};
pub use lookup::{
    has_key, integer_at, name_at, names_at, names_of_value, table_at, text_at, value_at, value_in,
};
pub use text::{TableError, read_table};
