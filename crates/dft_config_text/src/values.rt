//! What the values of a configuration's keys give, and which of them are refused.

ghost use Rattle.std.specs.Prelude.{◌≡◌, ◌≤◌, IfOk, IfErr, Ok, Err, Some, None, option_map};
ghost use Rattle.toml.specs.View.{view, table_view};
ghost use Rattle.dft_config_text.specs.Faults.{IsFault};
ghost use Rattle.dft_config_text.specs.Settings as spec;

use crate::fault::{Fault, Key};
use crate::lists::{
    Pair, all_below, bounded, integers_of, lists_below, lists_of, pairs_of, small_below,
    small_lists_below,
};
use crate::port::Port;
use dft_base::{Listed, Name, Names, is_later_reserved, is_simple_name, name_of};
use dft_config::{FillRule, Injector, Tap};
use dft_toml::{names_of_value, value_in};
use std::alloc::{AllocError, Global};
use toml::{Table, Value};

/// A number within the bounds of a key.
pub fn within(key: Key, low: u64, high: u64, number: i64) -> Result<u64, Fault>
    ensures value { result ≡ spec.within key low high number }
    ensures bounds { IfOk result (λ n. (low ≤ n) × (n ≤ high)) }
{
    match bounded(low, high, number) {
        Some(n) => Ok(n),
        None => Err(Fault::Outside(key, number)),
    }
}

/// The number at a key.
#[tactic(auto, unfolding(crate::specs::Settings::number))]
pub fn number(key: Key, low: u64, high: u64, value: Option<&Value>) -> Result<u64, Fault>
    ensures value { result ≡ spec.number key low high (option_map (λ v. view v.now) value.entry) }
    ensures bounds { IfOk result (λ n. (low ≤ n) × (n ≤ high)) }
{
    match value {
        Some(value) => match value.as_integer() {
            Some(number) => within(key, low, high, number),
            None => Err(Fault::Missing(key)),
        },
        None => Err(Fault::Missing(key)),
    }
}

/// The numbers of a list that may be left out, each below the bound.
#[tactic(auto, unfolding(crate::specs::Settings::numbers))]
pub fn numbers(
    alloc: Global,
    key: Key,
    bound: u16,
    value: Option<&Value>,
) -> Result<Listed<u16>, Fault>
    ensures ok { IfOk result (λ list. spec.numbers key bound (option_map (λ v. view v.now) value.entry) ≡ Ok list) }
    ensures refused { IfErr result (λ e. IsFault e → spec.numbers key bound (option_map (λ v. view v.now) value.entry) ≡ Err e) }
{
    let Some(value) = value else {
        return Ok(Listed::from_vec(Vec::new(alloc)));
    };
    let Some(numbers) = integers_of(alloc, value)? else {
        return Err(Fault::Missing(key));
    };
    all_below(alloc, key, bound, numbers.as_slice())
}

// The pairs of numbers at a key.
fn pairs(alloc: Global, key: Key, value: Option<&Value>) -> Result<Listed<Pair>, Fault>
    ensures ok { IfOk result (λ found. spec.pairs key (option_map (λ v. view v.now) value.entry) ≡ Ok found) }
    ensures refused { IfErr result (λ e. IsFault e → spec.pairs key (option_map (λ v. view v.now) value.entry) ≡ Err e) }
{
    let Some(value) = value else {
        return Err(Fault::Missing(key));
    };
    let Some(lists) = lists_of(alloc, value)? else {
        return Err(Fault::Missing(key));
    };
    match pairs_of(alloc, lists.as_slice())? {
        Some(pairs) => Ok(pairs),
        None => Err(Fault::Missing(key)),
    }
}

/// The taps between stages of the ring.
#[tactic(auto, unfolding(crate::specs::Settings::taps))]
pub fn taps(alloc: Global, stages: u8, value: Option<&Value>) -> Result<Listed<Tap>, Fault>
    ensures ok { IfOk result (λ found. spec.taps stages (option_map (λ v. view v.now) value.entry) ≡ Ok found) }
    ensures refused { IfErr result (λ e. IsFault e → spec.taps stages (option_map (λ v. view v.now) value.entry) ≡ Err e) }
{
    let pairs = pairs(alloc, Key::Taps, value)?;
    taps_of(alloc, stages, pairs.as_slice())
}

fn taps_of(alloc: Global, stages: u8, pairs: &[Pair]) -> Result<Listed<Tap>, Fault>
    ensures ok { IfOk result (λ found. spec.taps_of stages pairs.now ≡ Ok found) }
    ensures refused { IfErr result (λ e. IsFault e → spec.taps_of stages pairs.now ≡ Err e) }
{
    let mut taps = Vec::new(alloc);
    for pair in pairs {
        taps.push(tap_of(stages, *pair)?)?;
    }
    Ok(Listed::from_vec(taps))
}

fn tap_of(stages: u8, pair: Pair) -> Result<Tap, Fault>
    ensures { result ≡ spec.tap_of stages pair }
{
    let from = small_below(Key::Taps, stages, pair.first)?;
    let to = small_below(Key::Taps, stages, pair.second)?;
    Ok(Tap { from, to })
}

/// The stages of the ring that take channels.
#[tactic(auto, unfolding(crate::specs::Settings::injectors))]
pub fn injectors(
    alloc: Global,
    channels: u8,
    stages: u8,
    value: Option<&Value>,
) -> Result<Listed<Injector>, Fault>
    ensures ok { IfOk result (λ found. spec.injectors channels stages (option_map (λ v. view v.now) value.entry) ≡ Ok found) }
    ensures refused { IfErr result (λ e. IsFault e → spec.injectors channels stages (option_map (λ v. view v.now) value.entry) ≡ Err e) }
{
    let pairs = pairs(alloc, Key::Injectors, value)?;
    injectors_of(alloc, channels, stages, pairs.as_slice())
}

fn injectors_of(
    alloc: Global,
    channels: u8,
    stages: u8,
    pairs: &[Pair],
) -> Result<Listed<Injector>, Fault>
    ensures ok { IfOk result (λ found. spec.injectors_of channels stages pairs.now ≡ Ok found) }
    ensures refused { IfErr result (λ e. IsFault e → spec.injectors_of channels stages pairs.now ≡ Err e) }
{
    let mut injectors = Vec::new(alloc);
    for pair in pairs {
        injectors.push(injector_of(channels, stages, *pair)?)?;
    }
    Ok(Listed::from_vec(injectors))
}

fn injector_of(channels: u8, stages: u8, pair: Pair) -> Result<Injector, Fault>
    ensures { result ≡ spec.injector_of channels stages pair }
{
    let channel = small_below(Key::Injectors, channels, pair.first)?;
    let stage = small_below(Key::Injectors, stages, pair.second)?;
    Ok(Injector { channel, stage })
}

/// For each chain the stages whose sum it takes.
#[tactic(auto, unfolding(crate::specs::Settings::phase))]
pub fn phase(
    alloc: Global,
    chains: u16,
    stages: u8,
    value: Option<&Value>,
) -> Result<Listed<Listed<u8>>, Fault>
    ensures ok { IfOk result (λ found. spec.phase chains stages (option_map (λ v. view v.now) value.entry) ≡ Ok found) }
    ensures refused { IfErr result (λ e. IsFault e → spec.phase chains stages (option_map (λ v. view v.now) value.entry) ≡ Err e) }
{
    let Some(value) = value else {
        return Err(Fault::Missing(Key::Phase));
    };
    let Some(lists) = lists_of(alloc, value)? else {
        return Err(Fault::Missing(Key::Phase));
    };
    if lists.as_slice().len() != usize::from(chains) {
        return Err(Fault::Missing(Key::Phase));
    }
    small_lists_below(alloc, Key::Phase, stages, lists.as_slice())
}

/// For each output the chains whose sum it shows.
#[tactic(auto, unfolding(crate::specs::Settings::groups))]
pub fn groups(
    alloc: Global,
    chains: u16,
    value: Option<&Value>,
) -> Result<Listed<Listed<u16>>, Fault>
    ensures ok { IfOk result (λ found. spec.groups chains (option_map (λ v. view v.now) value.entry) ≡ Ok found) }
    ensures refused { IfErr result (λ e. IsFault e → spec.groups chains (option_map (λ v. view v.now) value.entry) ≡ Err e) }
{
    let Some(value) = value else {
        return Err(Fault::Missing(Key::Groups));
    };
    let Some(lists) = lists_of(alloc, value)? else {
        return Err(Fault::Missing(Key::Groups));
    };
    within(Key::Groups, 1, 32, lists.as_slice().len() as i64)?;
    lists_below(alloc, Key::Groups, chains, lists.as_slice())
}

/// The clock ports.
#[tactic(auto, unfolding(crate::specs::Settings::domains))]
pub fn domains(alloc: Global, value: Option<&Value>) -> Result<Names, Fault>
    ensures ok { IfOk result (λ names. spec.domains (option_map (λ v. view v.now) value.entry) ≡ Ok names) }
    ensures refused { IfErr result (λ e. IsFault e → spec.domains (option_map (λ v. view v.now) value.entry) ≡ Err e) }
{
    let Some(value) = value else {
        return Err(Fault::Missing(Key::Domains));
    };
    let Some(names) = names_of_value(alloc, value)? else {
        return Err(Fault::Missing(Key::Domains));
    };
    within(Key::Domains, 1, 16, names.as_slice().len() as i64)?;
    Ok(names)
}

/// The reset ports, none where the key is left out.
#[tactic(auto, unfolding(crate::specs::Settings::resets))]
pub fn resets(alloc: Global, value: Option<&Value>) -> Result<Names, Fault>
    ensures ok { IfOk result (λ names. spec.resets (option_map (λ v. view v.now) value.entry) ≡ Ok names) }
    ensures refused { IfErr result (λ e. IsFault e → spec.resets (option_map (λ v. view v.now) value.entry) ≡ Err e) }
{
    let Some(value) = value else {
        return Ok(Names::new(alloc));
    };
    let Some(names) = names_of_value(alloc, value)? else {
        return Err(Fault::Missing(Key::Resets));
    };
    within(Key::Resets, 0, 16, names.as_slice().len() as i64)?;
    Ok(names)
}

/// The flip-flops that are not scanned, none where the key is left out.
#[tactic(auto, unfolding(crate::specs::Settings::keep))]
pub fn keep(alloc: Global, value: Option<&Value>) -> Result<Names, Fault>
    ensures ok { IfOk result (λ names. spec.keep (option_map (λ v. view v.now) value.entry) ≡ Ok names) }
    ensures refused { IfErr result (λ e. IsFault e → spec.keep (option_map (λ v. view v.now) value.entry) ≡ Err e) }
{
    let Some(value) = value else {
        return Ok(Names::new(alloc));
    };
    match names_of_value(alloc, value)? {
        Some(names) => Ok(names),
        None => Err(Fault::Missing(Key::Keep)),
    }
}

/// The bits of channels that no equation decides: zeros where the key is left out.
#[tactic(auto, unfolding(crate::specs::Settings::fill))]
pub fn fill(value: Option<&Value>, seed: Option<&Value>) -> Result<FillRule, Fault>
    ensures { result ≡ spec.fill (option_map (λ v. view v.now) value.entry) (option_map (λ v. view v.now) seed.entry) }
{
    let Some(value) = value else {
        return Ok(FillRule::Zeros);
    };
    match value.as_str() {
        Some(word) => fill_named(word, seed),
        None => Err(Fault::Missing(Key::Fill)),
    }
}

fn fill_named(word: &str, seed: Option<&Value>) -> Result<FillRule, Fault>
    ensures { result ≡ spec.fill_named word.now (option_map (λ v. view v.now) seed.entry) }
{
    if word == "zeros" {
        Ok(FillRule::Zeros)
    } else if word == "ones" {
        Ok(FillRule::Ones)
    } else if word == "seed" {
        Ok(FillRule::Seed(number(Key::Seed, 0, i64::MAX as u64, seed)?))
    } else {
        Err(Fault::Missing(Key::Fill))
    }
}

/// The name of a port that the table of names gives, or its default: a simple name that no standard reserves.
#[tactic(auto, unfolding(crate::specs::Settings::port_name))]
pub fn port_name(alloc: Global, port: Port, table: Option<&Table>) -> Result<Name, Fault>
    ensures ok { IfOk result (λ name. spec.port_name port (option_map (λ t. table_view t.now) table.entry) ≡ Ok name) }
    ensures refused { IfErr result (λ e. IsFault e → spec.port_name port (option_map (λ t. table_view t.now) table.entry) ≡ Err e) }
{
    let Some(value) = value_in(table, port.word()) else {
        return Ok(Name::from_slice(alloc, port.default_name().as_bytes())?);
    };
    let Some(text) = value.as_str() else {
        return Err(Fault::Missing(port.key()));
    };
    match free_name(alloc, text.as_bytes())? {
        Some(name) => Ok(name),
        None => Err(Fault::Missing(port.key())),
    }
}

fn free_name(alloc: Global, text: &[u8]) -> Result<Option<Name>, AllocError>
    ensures { IfOk result (λ found. found ≡ spec.free_name text.now) }
{
    if is_simple_name(text) && !is_later_reserved(text) {
        name_of(alloc, text)
    } else {
        Ok(None)
    }
}
