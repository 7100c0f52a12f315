//! What a table gives: a configuration, or the first fault.

ghost use Rattle.std.specs.Prelude.{◌≡◌, ◌≤◌, IfOk, IfErr, OnOk, Ok, Err, option_map};
ghost use Rattle.toml.specs.View.{table_view};
ghost use Rattle.dft_config_text.specs.Faults.{IsFault};
ghost use Rattle.dft_config_text.specs.Reading as spec;
ghost use Rattle.dft_config.specs.Shown.{drafted};

use crate::checks::{first_empty, first_repeated, first_unreached};
use crate::fault::{Fault, Key};
use crate::port::Port;
use crate::unknown::first_unknown;
use crate::values::{
    domains, fill, groups, injectors, keep, number, numbers, phase, port_name, resets, taps,
};
use dft_base::Name;
use dft_config::{Clocking, CompactorConfig, Config, Draft, Loading, PortNames, RingConfig};
use dft_toml::{table_at, value_at, value_in};
use std::alloc::Global;
use toml::Table;

// The ring for so many chains.
#[tactic(auto, unfolding(crate::specs::Reading::ring_of))]
fn ring_of(alloc: Global, chains: u16, table: Option<&Table>) -> Result<RingConfig, Fault>
    ensures ok { IfOk result (λ ring. spec.ring_of chains (option_map (λ t. table_view t.now) table.entry) ≡ Ok ring) }
    ensures refused { IfErr result (λ e. IsFault e → spec.ring_of chains (option_map (λ t. table_view t.now) table.entry) ≡ Err e) }
{
    let stages = number(Key::Stages, 2, 128, value_in(table, "stages"))? as u8;
    let channels = number(Key::Channels, 1, 32, value_in(table, "channels"))? as u8;
    let taps = taps(alloc, stages, value_in(table, "taps"))?;
    let injectors = injectors(alloc, channels, stages, value_in(table, "injectors"))?;
    let phase = phase(alloc, chains, stages, value_in(table, "phase"))?;
    Ok(RingConfig {
        stages,
        channels,
        taps,
        injectors,
        phase,
    })
}

// The compactor for so many chains.
#[tactic(auto, unfolding(crate::specs::Reading::compactor_of))]
fn compactor_of(alloc: Global, chains: u16, table: Option<&Table>) -> Result<CompactorConfig, Fault>
    ensures ok { IfOk result (λ compactor. spec.compactor_of chains (option_map (λ t. table_view t.now) table.entry) ≡ Ok compactor) }
    ensures refused { IfErr result (λ e. IsFault e → spec.compactor_of chains (option_map (λ t. table_view t.now) table.entry) ≡ Err e) }
{
    let groups = groups(alloc, chains, value_in(table, "groups"))?;
    let most = u64::from(chains).min(32);
    let mask_inputs = number(Key::MaskInputs, 1, most, value_in(table, "mask_inputs"))? as u8;
    Ok(CompactorConfig {
        groups,
        mask_inputs,
    })
}

// The names of the ports that steer a load.
#[derive(Drop)]
struct Steering {
    scan_enable: Name,
    edt_clock: Name,
    edt_update: Name,
}

// The names of the ports that carry bits.
#[derive(Drop)]
struct Carrying {
    channel: Name,
    mask: Name,
    output: Name,
    scan_in: Name,
    scan_out: Name,
}

#[tactic(auto, unfolding(crate::specs::Reading::steering_of))]
fn steering_of(alloc: Global, table: Option<&Table>) -> Result<Steering, Fault>
    ensures ok { IfOk result (λ names. spec.steering_of (option_map (λ t. table_view t.now) table.entry) ≡ Ok names) }
    ensures refused { IfErr result (λ e. IsFault e → spec.steering_of (option_map (λ t. table_view t.now) table.entry) ≡ Err e) }
{
    Ok(Steering {
        scan_enable: port_name(alloc, Port::ScanEnable, table)?,
        edt_clock: port_name(alloc, Port::EdtClock, table)?,
        edt_update: port_name(alloc, Port::EdtUpdate, table)?,
    })
}

#[tactic(auto, unfolding(crate::specs::Reading::carrying_of))]
fn carrying_of(alloc: Global, table: Option<&Table>) -> Result<Carrying, Fault>
    ensures ok { IfOk result (λ names. spec.carrying_of (option_map (λ t. table_view t.now) table.entry) ≡ Ok names) }
    ensures refused { IfErr result (λ e. IsFault e → spec.carrying_of (option_map (λ t. table_view t.now) table.entry) ≡ Err e) }
{
    Ok(Carrying {
        channel: port_name(alloc, Port::Channel, table)?,
        mask: port_name(alloc, Port::Mask, table)?,
        output: port_name(alloc, Port::Output, table)?,
        scan_in: port_name(alloc, Port::ScanIn, table)?,
        scan_out: port_name(alloc, Port::ScanOut, table)?,
    })
}

// The names of ports.
#[tactic(auto, unfolding(crate::specs::Reading::names_of_ports))]
fn names_of_ports(alloc: Global, table: Option<&Table>) -> Result<PortNames, Fault>
    ensures ok { IfOk result (λ names. spec.names_of_ports (option_map (λ t. table_view t.now) table.entry) ≡ Ok names) }
    ensures refused { IfErr result (λ e. IsFault e → spec.names_of_ports (option_map (λ t. table_view t.now) table.entry) ≡ Err e) }
{
    let steering = steering_of(alloc, table)?;
    let carrying = carrying_of(alloc, table)?;
    Ok(PortNames {
        scan_enable: steering.scan_enable,
        edt_clock: steering.edt_clock,
        edt_update: steering.edt_update,
        channel: carrying.channel,
        mask: carrying.mask,
        output: carrying.output,
        scan_in: carrying.scan_in,
        scan_out: carrying.scan_out,
    })
}

// The domains, the resets and the kept cells, behind the version.
#[tactic(auto, unfolding(crate::specs::Reading::clocking_of))]
fn clocking_of(alloc: Global, table: &Table) -> Result<Clocking, Fault>
    ensures ok { IfOk result (λ clocking. spec.clocking_of (table_view table.now) ≡ Ok clocking) }
    ensures refused { IfErr result (λ e. IsFault e → spec.clocking_of (table_view table.now) ≡ Err e) }
{
    number(Key::Version, 1, 1, value_at(table, "version"))?;
    let domains = domains(alloc, value_at(table, "domains"))?;
    let resets = resets(alloc, value_at(table, "resets"))?;
    let keep = keep(alloc, value_at(table, "keep"))?;
    Ok(Clocking {
        domains,
        resets,
        keep,
    })
}

// The chains, the loads, and the chains that are always masked.
#[tactic(auto, unfolding(crate::specs::Reading::loading_of))]
fn loading_of(alloc: Global, table: &Table) -> Result<Loading, Fault>
    ensures ok { IfOk result (λ loading. spec.loading_of (table_view table.now) ≡ Ok loading) }
    ensures refused { IfErr result (λ e. IsFault e → spec.loading_of (table_view table.now) ≡ Err e) }
{
    let chains = number(Key::Chains, 1, 1024, value_at(table, "chains"))? as u16;
    let warm = number(Key::Warm, 0, 4095, value_at(table, "warm"))? as u16;
    let window = number(Key::Window, 1, 16, value_at(table, "window"))? as u8;
    let fill = fill(value_at(table, "fill"), value_at(table, "seed"))?;
    let masked = value_at(table, "always_masked");
    let always_masked = numbers(alloc, Key::AlwaysMasked, chains, masked)?;
    Ok(Loading {
        chains,
        warm,
        window,
        fill,
        always_masked,
    })
}

// What the keys of a table give.
#[tactic(auto, unfolding(crate::specs::Reading::keys_of))]
fn keys_of(alloc: Global, table: &Table) -> Result<Draft, Fault>
    ensures ok { IfOk result (λ draft. spec.keys_of (table_view table.now) ≡ Ok (drafted draft)) }
    ensures refused { IfErr result (λ e. IsFault e → spec.keys_of (table_view table.now) ≡ Err e) }
{
    let clocking = clocking_of(alloc, table)?;
    let loading = loading_of(alloc, table)?;
    let ring = ring_of(alloc, loading.chains, table_at(table, "ring"))?;
    let compactor = compactor_of(alloc, loading.chains, table_at(table, "compactor"))?;
    let names = names_of_ports(alloc, table_at(table, "names"))?;
    Ok(Draft {
        clocking,
        loading,
        ring,
        compactor,
        names,
    })
}

// Refuses the first fault of a draft.
#[tactic(auto, unfolding(crate::specs::Reading::checked))]
fn check(alloc: Global, draft: &Draft, table: &Table) -> Result<(), Fault>
    ensures ok { OnOk result (spec.checked (table_view table.now) (drafted draft.now) ≡ Ok (drafted draft.now)) }
    ensures refused { IfErr result (λ e. IsFault e → spec.checked (table_view table.now) (drafted draft.now) ≡ Err e) }
{
    if let Some(name) = first_unknown(alloc, draft.loading.fill, table)? {
        return Err(Fault::Unknown(name));
    }
    if let Some(key) = first_repeated(alloc, draft)? {
        return Err(Fault::Repeated(key));
    }
    if let Some(key) = first_empty(draft) {
        return Err(Fault::Empty(key));
    }
    match first_unreached(alloc, draft)? {
        Some(chain) => Err(Fault::Unreached(i64::from(chain))),
        None => Ok(()),
    }
}

/// The configuration of a table, or its first fault.
#[tactic(auto, unfolding(crate::specs::Reading::reading))]
pub fn config_of(alloc: Global, table: &Table) -> Result<Config, Fault>
    ensures ok { IfOk result (λ config. spec.reading (table_view table.now) ≡ Ok config) }
    ensures refused { IfErr result (λ e. IsFault e → spec.reading (table_view table.now) ≡ Err e) }
{
    let draft = keys_of(alloc, table)?;
    check(alloc, &draft, table)?;
    Ok(Config::of_draft(draft))
}
