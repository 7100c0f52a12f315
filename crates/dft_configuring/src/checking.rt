//! What is checked before a ring is sought.

ghost use Rattle.std.specs.Prelude.{◌≡◌, ◌<◌, ◌≤◌, IfErr, IfOk, None, OnOk, Some, length, option_map, pos};
ghost use Rattle.dft_rules.specs.Refusals.{refusal};
ghost use Rattle.dft_configure.specs.Found.{AreChosen, numbers};
ghost use Rattle.dft_configure.specs.Roots.{domains_of};
ghost use Rattle.dft_configuring.specs.Causes.{IsCheck, IsLong};
ghost use Rattle.dft_configuring.specs.Refusals as spec;
ghost use Rattle.dft_configuring.specs.Rooted.{cell_count, rooted, rooted_text};
ghost use Rattle.dft_configuring.specs.Steps.{IsBase};
ghost use Rattle.dft_configuring.specs.Wanted.{IsWanted};
ghost use Rattle.dft_configuring.specs.declared.error.ConfigureError.TheVariants.{Rules, TooMany};

use crate::error::{ConfigureError, Limited};
use crate::reading::{Written, write_made};
use crate::rooting::rooted_made;
use crate::wanted::{Wanted, chains_for};
use dft_config::Config;
use dft_configure::{Roots, outputs_of, roots_of, scanned_of};
use dft_netlist::{Design, NetId};
use dft_rules::judge;
use std::alloc::{AllocError, Global};

// What is found before a ring is sought.
#[derive(Debug, Drop)]
pub(crate) struct Base {
    pub(crate) roots: Roots,
    // How many flip-flops are scanned.
    pub(crate) cells: u32,
    pub(crate) chains: u16,
}

// Tests that there is a clock.
fn check_clocks(domains: &[NetId]) -> Result<(), ConfigureError>
    ensures some { OnOk result (0 < length (numbers domains.now)) }
    ensures ok { OnOk result (spec.no_clock (numbers domains.now) ≡ None) }
    ensures refused { IfErr result (IsCheck (spec.no_clock (numbers domains.now))) }
{
    if domains.is_empty() {
        return Err(ConfigureError::NoClock);
    }
    Ok(())
}

// Too many of something.
fn too_many(what: Limited, most: u16) -> ConfigureError
    ensures { result ≡ TooMany what (pos most) }
{
    ConfigureError::TooMany {
        what,
        most: i64::from(most),
    }
}

// Tests that there are not too many chains.
fn check_chains(chains: u32) -> Result<u16, ConfigureError>
    ensures few { IfOk result (λ few. (few ≡ chains) × (chains ≤ 1024)) }
    ensures ok { IfOk result (λ few. spec.many_chains chains ≡ None) }
    ensures refused { IfErr result (IsCheck (spec.many_chains chains)) }
{
    if chains > 1024 {
        return Err(too_many(Limited::Chains, 1024));
    }
    Ok(chains as u16)
}

// Tests that there are not more outputs than chains.
fn check_outputs(chains: u16, outputs: u8) -> Result<(), ConfigureError>
    ensures few { OnOk result (outputs ≤ chains) }
    ensures ok { OnOk result (spec.many_outputs chains outputs ≡ None) }
    ensures refused { IfErr result (IsCheck (spec.many_outputs chains outputs)) }
{
    if u16::from(outputs) > chains {
        return Err(too_many(Limited::Outputs, chains));
    }
    Ok(())
}

// Tests that there are not more masks than chains.
fn check_wished_masks(chains: u16, masks: u8) -> Result<(), ConfigureError>
    ensures ok { OnOk result (spec.many_masks chains (Some masks) ≡ None) }
    ensures refused { IfErr result (IsCheck (spec.many_masks chains (Some masks))) }
{
    if u16::from(masks) > chains {
        return Err(too_many(Limited::Masks, chains));
    }
    Ok(())
}

// Tests that there are not more masks than chains, where their number is wished.
fn check_masks(chains: u16, masks: Option<u8>) -> Result<(), ConfigureError>
    ensures ok { OnOk result (spec.many_masks chains masks ≡ None) }
    ensures refused { IfErr result (IsCheck (spec.many_masks chains masks)) }
{
    match masks {
        Some(masks) => check_wished_masks(chains, masks),
        None => Ok(()),
    }
}

// The text with these clocks, resets and chains, and what it is read as.
fn write_rooted(
    alloc: Global,
    design: &Design,
    roots: &Roots,
    cells: u32,
    chains: u16,
) -> Result<Written, ConfigureError>
    requires roots { AreChosen design.now roots.now }
    requires some { 0 < length (domains_of design.now) }
    requires cells { cells ≡ cell_count design.now }
    requires chains { (1 ≤ chains) × (chains ≤ 1024) }
    ensures config { IfOk result (λ written. written.config ≡ rooted design.now chains) }
    ensures short { IfOk result (λ made. length (rooted_text design.now chains) ≤ 67108864) }
    ensures refused { IfErr result (IsLong (rooted_text design.now chains)) }
{
    design.soundness();
    let made = rooted_made(alloc, design, roots, chains)?;
    write_made(alloc, cells, &made)
}

// The configuration with these clocks, resets and chains, as the scan rules ask for it.
fn rooted_config(
    alloc: Global,
    design: &Design,
    roots: &Roots,
    cells: u32,
    chains: u16,
) -> Result<Config, ConfigureError>
    requires roots { AreChosen design.now roots.now }
    requires some { 0 < length (domains_of design.now) }
    requires cells { cells ≡ cell_count design.now }
    requires chains { (1 ≤ chains) × (chains ≤ 1024) }
    ensures config { IfOk result (λ config. config ≡ rooted design.now chains) }
    ensures short { IfOk result (λ made. length (rooted_text design.now chains) ≤ 67108864) }
    ensures refused { IfErr result (IsLong (rooted_text design.now chains)) }
{
    let written = write_rooted(alloc, design, roots, cells, chains)?;
    Ok(written.into_config())
}

// Tests that the scan rules accept a design under a configuration.
fn ask_rules(alloc: Global, design: &Design, config: &Config) -> Result<(), ConfigureError>
    ensures ok { OnOk result (refusal design.now config.now ≡ None) }
    ensures refused { IfErr result (IsCheck (option_map Rules (refusal design.now config.now))) }
{
    judge(alloc, design, config)?;
    Ok(())
}

// Tests that the scan rules accept a design with its clocks and resets and so many chains, by a configuration that is not too long.
fn check_rules(
    alloc: Global,
    design: &Design,
    roots: &Roots,
    cells: u32,
    chains: u16,
) -> Result<(), ConfigureError>
    requires roots { AreChosen design.now roots.now }
    requires some { 0 < length (domains_of design.now) }
    requires cells { cells ≡ cell_count design.now }
    requires chains { (1 ≤ chains) × (chains ≤ 1024) }
    ensures ok { OnOk result (refusal design.now (rooted design.now chains) ≡ None) }
    ensures none { OnOk result (spec.asked design.now chains ≡ None) }
    ensures refused { IfErr result (IsCheck (spec.asked design.now chains)) }
{
    let config = rooted_config(alloc, design, roots, cells, chains)?;
    ask_rules(alloc, design, &config)
}

// How many flip-flops are scanned.
fn cells_of(alloc: Global, design: &Design, roots: &Roots) -> Result<u32, AllocError>
    requires { AreChosen design.now roots.now }
    ensures count { IfOk result (λ cells. cells ≡ cell_count design.now) }
    ensures few { IfOk result (λ cells. cells ≤ 262144) }
{
    design.soundness();
    scanned_of(alloc, design, roots)
}

// Finds the clocks and resets, the scanned flip-flops and the chains, and makes the checks that need no ring.
pub(crate) fn base_of(
    alloc: Global,
    design: &Design,
    wanted: &Wanted,
) -> Result<Base, ConfigureError>
    requires { IsWanted wanted.now }
    ensures base { IfOk result (IsBase design.now wanted.now) }
    ensures refused { IfErr result (IsCheck (spec.early design.now wanted.now)) }
{
    let roots = roots_of(alloc, design)?;
    check_clocks(&roots.domains)?;
    let cells = cells_of(alloc, design, &roots)?;
    let chains = check_chains(chains_for(wanted, cells))?;
    check_rules(alloc, design, &roots, cells, chains)?;
    check_outputs(chains, outputs_of(chains, wanted.channels, wanted.outputs))?;
    check_masks(chains, wanted.masks)?;
    Ok(Base {
        roots,
        cells,
        chains,
    })
}
