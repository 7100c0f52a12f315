ghost use Rattle.std.specs.Prelude.{◌≡◌, IfOk, option_copied, option_map, option_and_then};
ghost use Rattle.toml.specs.View.{view, array_view, table_view};
ghost use Rattle.toml.specs.Data.{as_array, get_member};
ghost use Rattle.dft_toml.specs.Values as spec;

use dft_base::{Name, Names, name_of};
use std::alloc::{AllocError, Global};
use toml::value::Array;
use toml::{Table, Value};

/// The text at a key.
pub fn text_at<'a>(table: &'a Table, key: &str) -> Option<&'a str>
    ensures { option_copied result ≡ spec.text_at key.now (table_view table.now) }
{
    match table.get(key) {
        Some(value) => value.as_str(),
        None => None,
    }
}

/// The number at a key.
pub fn integer_at(table: &Table, key: &str) -> Option<i64>
    ensures { result ≡ spec.integer_at key.now (table_view table.now) }
{
    match table.get(key) {
        Some(value) => value.as_integer(),
        None => None,
    }
}

/// The name at a key.
pub fn name_at(alloc: Global, table: &Table, key: &str) -> Result<Option<Name>, AllocError>
    ensures { IfOk result (λ found. found ≡ spec.name_at key.now (table_view table.now)) }
{
    match text_at(table, key) {
        Some(text) => name_of(alloc, text.as_bytes()),
        None => Ok(None),
    }
}

/// The table at a key.
pub fn table_at<'a>(table: &'a Table, key: &str) -> Option<&'a Table>
    ensures { option_map (λ found. table_view found.now) result ≡ spec.table_at key.now (table_view table.now) }
{
    match table.get(key) {
        Some(value) => value.as_table(),
        None => None,
    }
}

/// Whether the table has a key.
pub fn has_key(table: &Table, key: &str) -> bool
    ensures { result ≡ spec.has_key key.now (table_view table.now) }
{
    table.get(key).is_some()
}

/// The names of the list at a key, where each item is one.
pub fn names_at(alloc: Global, table: &Table, key: &str) -> Result<Option<Names>, AllocError>
    ensures { IfOk result (λ found. found ≡ spec.names_at key.now (table_view table.now)) }
{
    match array_at(table, key) {
        Some(items) => names_in(alloc, items),
        None => Ok(None),
    }
}

fn array_at<'a>(table: &'a Table, key: &str) -> Option<&'a Array>
    ensures { option_map (λ found. array_view found.now) result ≡ option_and_then as_array (get_member key.now (table_view table.now)) }
{
    match table.get(key) {
        Some(value) => value.as_array(),
        None => None,
    }
}

fn names_in(alloc: Global, items: &Array) -> Result<Option<Names>, AllocError>
    ensures { IfOk result (λ found. found ≡ spec.names_in (array_view items.now)) }
{
    let mut names = Names::new(alloc);
    for item in items {
        match name_in(alloc, item)? {
            Some(name) => names.push(name)?,
            None => return Ok(None),
        }
    }
    Ok(Some(names))
}

fn name_in(alloc: Global, value: &Value) -> Result<Option<Name>, AllocError>
    ensures { IfOk result (λ found. found ≡ spec.name_in (view value.now)) }
{
    match value.as_str() {
        Some(text) => name_of(alloc, text.as_bytes()),
        None => Ok(None),
    }
}

/// The names of a value that is a list of names.
pub fn names_of_value(alloc: Global, value: &Value) -> Result<Option<Names>, AllocError>
    ensures { IfOk result (λ found. found ≡ spec.names_of_value (view value.now)) }
{
    match value.as_array() {
        Some(items) => names_in(alloc, items),
        None => Ok(None),
    }
}

/// The value at a key of a table that may not be there.
pub fn value_in<'a>(table: Option<&'a Table>, key: &str) -> Option<&'a Value>
    ensures { option_map (λ found. view found.now) result ≡ spec.value_in key.now (option_map (λ t. table_view t.now) table.entry) }
{
    match table {
        Some(table) => value_at(table, key),
        None => None,
    }
}

/// The value at a key.
pub fn value_at<'a>(table: &'a Table, key: &str) -> Option<&'a Value>
    ensures { option_map (λ found. view found.now) result ≡ get_member key.now (table_view table.now) }
{
    table.get(key)
}
