//! The keys of a table that no configuration has.

ghost use Rattle.std.specs.Prelude.{◌≡◌, ◌++◌, IfOk, OnOk, None, option_copied};
ghost use Rattle.toml.specs.View.{view, table_view};
ghost use Rattle.dft_config_text.specs.Sections.{prefix_of};
ghost use Rattle.dft_config_text.specs.Unknown as spec;

use crate::section::{Section, is_always_key};
use dft_base::{Listed, Name, printable};
use dft_config::FillRule;
use dft_toml::table_at;
use std::alloc::{AllocError, Global};
use toml::{Table, Value};

/// The first unknown key in byte order, as a refusal shows it.
#[tactic(auto, unfolding(crate::specs::Unknown::first_unknown))]
pub fn first_unknown(
    alloc: Global,
    fill: FillRule,
    table: &Table,
) -> Result<Option<Name>, AllocError>
    ensures { IfOk result (λ name. name ≡ spec.first_unknown fill (table_view table.now)) }
{
    let keys = unknown_keys(alloc, fill, table)?;
    match least(&keys) {
        Some(key) => Ok(Some(printable(alloc, key)?)),
        None => Ok(None),
    }
}

fn least(names: &[Listed<u8>]) -> Option<&[u8]>
    ensures { option_copied result ≡ spec.least_of None names.now }
{
    let mut least = None;
    for name in names {
        least = Some(lesser(least, name.as_slice()));
    }
    least
}

fn lesser<'a>(least: Option<&'a [u8]>, name: &'a [u8]) -> &'a [u8]
    ensures { result.now ≡ spec.lesser (option_copied least.entry) name.now }
{
    match least {
        Some(least) => if name.cmp(&least).is_lt() {
            name
        } else {
            least
        },
        None => name,
    }
}

// The unknown keys, dotted.
fn unknown_keys(alloc: Global, fill: FillRule, table: &Table) -> Result<Vec<Listed<u8>>, AllocError>
    ensures { IfOk result (λ keys. keys.items ≡ spec.unknown_keys fill (table_view table.now)) }
{
    let mut keys = Vec::new(alloc);
    add_on_top(alloc, &mut keys, fill, table)?;
    add_under(alloc, &mut keys, Section::Ring, table)?;
    add_under(alloc, &mut keys, Section::Compactor, table)?;
    add_under(alloc, &mut keys, Section::Names, table)?;
    Ok(keys)
}

fn add_on_top(
    alloc: Global,
    keys: &mut Vec<Listed<u8>>,
    fill: FillRule,
    table: &Table,
) -> Result<(), AllocError>
    ensures { OnOk result (keys.new.items ≡ keys.old.items ++ spec.unknown_on_top fill (table_view table.now)) }
{
    for (key, value) in table.iter() {
        if !is_top_key(fill, key.as_str(), value) {
            keys.push(copy(alloc, key.as_bytes())?)?;
        }
    }
    Ok(())
}

// Whether a key outside of the tables is known.
fn is_top_key(fill: FillRule, key: &str, value: &Value) -> bool
    ensures { result ≡ spec.is_top_key fill key.now (view value.now) }
{
    is_always_key(key)
        || key == "seed" && is_seeded(fill)
        || key == "names" && value.as_table().is_some()
}

fn is_seeded(fill: FillRule) -> bool
    ensures { result ≡ spec.is_seeded fill }
{
    match fill {
        FillRule::Zeros => false,
        FillRule::Ones => false,
        FillRule::Seed(_) => true,
    }
}

fn copy(alloc: Global, key: &[u8]) -> Result<Listed<u8>, AllocError>
    ensures { IfOk result (λ name. name ≡ key.now) }
{
    Ok(Listed::from_vec(Vec::from_slice(alloc, key)?))
}

fn add_under(
    alloc: Global,
    keys: &mut Vec<Listed<u8>>,
    section: Section,
    table: &Table,
) -> Result<(), AllocError>
    ensures { OnOk result (keys.new.items ≡ keys.old.items ++ spec.unknown_under section (table_view table.now)) }
{
    match table_at(table, section.key()) {
        Some(inner) => add_in(alloc, keys, section, inner),
        None => Ok(()),
    }
}

fn add_in(
    alloc: Global,
    keys: &mut Vec<Listed<u8>>,
    section: Section,
    table: &Table,
) -> Result<(), AllocError>
    ensures { OnOk result (keys.new.items ≡ keys.old.items ++ spec.unknown_in section (table_view table.now)) }
{
    for (key, _) in table.iter() {
        if !section.has_key(key.as_str()) {
            keys.push(dotted(alloc, section, key.as_bytes())?)?;
        }
    }
    Ok(())
}

// A key behind the key of its table and a point.
fn dotted(alloc: Global, section: Section, key: &[u8]) -> Result<Listed<u8>, AllocError>
    ensures { IfOk result (λ name. name ≡ prefix_of section ++ key.now) }
{
    let mut name = Vec::from_slice(alloc, section.prefix().as_bytes())?;
    name.extend_from_slice(key)?;
    Ok(Listed::from_vec(name))
}
