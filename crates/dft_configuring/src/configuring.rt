//! Whole configurations.

ghost use Rattle.std.specs.Prelude.{◌≡◌, IfErr, IfOk, None, OnOk};
ghost use Rattle.dft_rules.specs.Refusals as rules;
ghost use Rattle.dft_stitch.specs.Chains.{plan_of};
ghost use Rattle.dft_stitch.specs.Limits as limits;
ghost use Rattle.dft_insert.specs.Refusals.{refusal};
ghost use Rattle.dft_insert.specs.declared.style.Style.TheVariants.{Edt};
ghost use Rattle.dft_configuring.specs.Causes.{IsInsertion};
ghost use Rattle.dft_configuring.specs.Configured.{IsConfigured};
ghost use Rattle.dft_configuring.specs.Counted as counted;
ghost use Rattle.dft_configuring.specs.Refusals.{IsRefused};
ghost use Rattle.dft_configuring.specs.Steps.{IsFound};
ghost use Rattle.dft_configuring.specs.Wanted.{IsWanted};

use crate::checking::base_of;
use crate::counting::{MadeCounts, counts_of};
use crate::error::ConfigureError;
use crate::making::framed;
use crate::reading::Written;
use crate::rings::ring_for;
use crate::searching::search;
use crate::wanted::Wanted;
use dft_config::Config;
use dft_insert::{Style, insert};
use dft_netlist::Design;
use dft_stitch::Planned;
use std::alloc::Global;

/// A made configuration, its text, and what is counted of it.
#[derive(Debug, Drop)]
pub struct Configured {
    pub config: Config,
    pub text: Vec<u8>,
    pub counts: MadeCounts,
}

// What is counted of a configuration, if its hardware can be inserted. The scanned netlist is given up.
fn count_inserted(
    alloc: Global,
    design: &Design,
    config: &Config,
) -> Result<MadeCounts, ConfigureError>
    requires passed { rules.refusal design.now config.now ≡ None }
    requires fits { limits.refusal design.now config.now ≡ None }
    ensures ok { OnOk result (refusal Edt design.now config.now (plan_of design.now config.now) ≡ None) }
    ensures counts { IfOk result (λ counts. counts ≡ counted.counts_of design.now config.now) }
    ensures refused { IfErr result (IsInsertion (refusal Edt design.now config.now (plan_of design.now config.now))) }
{
    let planned = Planned::prepare(alloc, design, config)?;
    planned.soundness();
    insert(alloc, design, config, planned.chains(), Style::Edt)?;
    Ok(counts_of(&planned))
}

// A configuration with its text and what is counted of it.
fn with_counts(written: Written, counts: MadeCounts) -> Configured
    ensures config { result.config ≡ written.config }
    ensures text { result.text.items ≡ written.text.items }
    ensures counts { result.counts ≡ counts }
{
    Configured {
        config: written.config,
        text: written.text,
        counts,
    }
}

// A configuration with its text, if its hardware can be inserted.
fn counted(alloc: Global, design: &Design, written: Written) -> Result<Configured, ConfigureError>
    requires passed { rules.refusal design.now written.config ≡ None }
    requires fits { limits.refusal design.now written.config ≡ None }
    ensures config { IfOk result (λ configured. configured.config ≡ written.config) }
    ensures text { IfOk result (λ configured. configured.text.items ≡ written.text.items) }
    ensures counts { IfOk result (λ configured. configured.counts ≡ counted.counts_of design.now written.config) }
    ensures inserted { OnOk result (refusal Edt design.now written.config (plan_of design.now written.config) ≡ None) }
    ensures refused { IfErr result (IsInsertion (refusal Edt design.now written.config (plan_of design.now written.config))) }
{
    let counts = count_inserted(alloc, design, written.config())?;
    Ok(with_counts(written, counts))
}

// The configuration that is chosen for a design, with its text.
fn chosen_for(alloc: Global, design: &Design, wanted: &Wanted) -> Result<Written, ConfigureError>
    requires { IsWanted wanted.now }
    ensures found { IfOk result (IsFound design.now wanted.now) }
    ensures refused { IfErr result (IsRefused design.now wanted.now) }
{
    let base = base_of(alloc, design, wanted)?;
    let ring = ring_for(alloc, base.chains, wanted.channels)?;
    let mut made = framed(alloc, design, wanted, &base, ring)?;
    let written = search(alloc, design, wanted, base.cells, &mut made)?;
    Ok(written)
}

/// Makes a configuration for a design. Its clocks and resets are those that most flip-flops can be scanned with; it has the chains
/// that are wished, or as many as are needed; its ring is the first size that has phase sets for the chains; its warm cycles are the
/// fewest with which any two scanned cells can be loaded with any bits; and its names are free. It is refused by the first of these
/// that comes: there is no clock; there would be more than 1,024 chains; the plain configuration with these clocks, resets and chains
/// is longer than a configuration file may be; the scan rules refuse the design with it; there would be more outputs than chains, or more
/// masks; no size of ring has phase sets; a configuration to which the search for the warm cycles comes is longer than a configuration file
/// may be, or passes a limit of the plan; the hardware cannot be inserted.
pub fn configure(
    alloc: Global,
    design: &Design,
    wanted: &Wanted,
) -> Result<Configured, ConfigureError>
    requires { IsWanted wanted.now }
    ensures configured { IfOk result (IsConfigured design.now wanted.now) }
    ensures refused { IfErr result (IsRefused design.now wanted.now) }
{
    let written = chosen_for(alloc, design, wanted)?;
    written.config().soundness();
    let configured = counted(alloc, design, written)?;
    Ok(configured)
}
