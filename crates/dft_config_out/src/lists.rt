//! Lists as they are written.

ghost use Rattle.std.specs.Prelude.{◌≡◌, ◌++◌, ◌∷◌, [], OnOk, map};
ghost use Rattle.dft_config_out.specs.Written as spec;

use crate::names::add_name;
use crate::numbers::{add_number, add_numbered};
use dft_base::{Listed, Name};
use dft_config::{Injector, Tap};
use std::alloc::AllocError;

// Adds what stands before an item.
fn add_separator(out: &mut Vec<u8>, is_first: bool) -> Result<(), AllocError>
    ensures { OnOk result (out.new.items ≡ out.old.items ++ spec.separator is_first) }
{
    if is_first {
        return Ok(());
    }
    out.extend_from_slice(b", ")
}

// Adds two numbers in brackets.
fn add_pair(out: &mut Vec<u8>, first: u8, second: u8) -> Result<(), AllocError>
    ensures { OnOk result (out.new.items ≡ out.old.items ++ spec.numbers_text (first ∷ second ∷ [])) }
{
    add_numbered(out, b"[", u32::from(first))?;
    add_numbered(out, b", ", u32::from(second))?;
    out.extend_from_slice(b"]")
}

// Adds a list of names.
pub(crate) fn add_names(out: &mut Vec<u8>, names: &[Name]) -> Result<(), AllocError>
    ensures { OnOk result (out.new.items ≡ out.old.items ++ spec.names_text names.now) }
{
    out.extend_from_slice(b"[")?;
    let mut is_first = true;
    for name in names {
        add_separator(out, is_first)?;
        add_name(out, name.as_slice())?;
        is_first = false;
    }
    out.extend_from_slice(b"]")
}

// Adds a list of stages.
fn add_stages(out: &mut Vec<u8>, stages: &[u8]) -> Result<(), AllocError>
    ensures { OnOk result (out.new.items ≡ out.old.items ++ spec.numbers_text stages.now) }
{
    out.extend_from_slice(b"[")?;
    let mut is_first = true;
    for stage in stages {
        add_separator(out, is_first)?;
        add_number(out, u32::from(*stage))?;
        is_first = false;
    }
    out.extend_from_slice(b"]")
}

// Adds a list of chains.
fn add_chains(out: &mut Vec<u8>, chains: &[u16]) -> Result<(), AllocError>
    ensures { OnOk result (out.new.items ≡ out.old.items ++ spec.numbers_text chains.now) }
{
    out.extend_from_slice(b"[")?;
    let mut is_first = true;
    for chain in chains {
        add_separator(out, is_first)?;
        add_number(out, u32::from(*chain))?;
        is_first = false;
    }
    out.extend_from_slice(b"]")
}

// Adds a list of sets of stages.
pub(crate) fn add_sets(out: &mut Vec<u8>, sets: &[Listed<u8>]) -> Result<(), AllocError>
    ensures { OnOk result (out.new.items ≡ out.old.items ++ spec.lists_text sets.now) }
{
    out.extend_from_slice(b"[")?;
    let mut is_first = true;
    for set in sets {
        add_separator(out, is_first)?;
        add_stages(out, set.as_slice())?;
        is_first = false;
    }
    out.extend_from_slice(b"]")
}

// Adds a list of groups of chains.
pub(crate) fn add_groups(out: &mut Vec<u8>, groups: &[Listed<u16>]) -> Result<(), AllocError>
    ensures { OnOk result (out.new.items ≡ out.old.items ++ spec.lists_text groups.now) }
{
    out.extend_from_slice(b"[")?;
    let mut is_first = true;
    for group in groups {
        add_separator(out, is_first)?;
        add_chains(out, group.as_slice())?;
        is_first = false;
    }
    out.extend_from_slice(b"]")
}

// Adds a list of taps.
pub(crate) fn add_taps(out: &mut Vec<u8>, taps: &[Tap]) -> Result<(), AllocError>
    ensures { OnOk result (out.new.items ≡ out.old.items ++ spec.taps_text taps.now) }
{
    out.extend_from_slice(b"[")?;
    let mut is_first = true;
    for tap in taps {
        add_separator(out, is_first)?;
        add_pair(out, tap.from, tap.to)?;
        is_first = false;
    }
    out.extend_from_slice(b"]")
}

// Adds a list of injectors.
pub(crate) fn add_injectors(out: &mut Vec<u8>, injectors: &[Injector]) -> Result<(), AllocError>
    ensures { OnOk result (out.new.items ≡ out.old.items ++ spec.injectors_text injectors.now) }
{
    out.extend_from_slice(b"[")?;
    let mut is_first = true;
    for injector in injectors {
        add_separator(out, is_first)?;
        add_pair(out, injector.channel, injector.stage)?;
        is_first = false;
    }
    out.extend_from_slice(b"]")
}
