//! The search for the warm cycles.

ghost use Rattle.std.specs.Prelude.{◌≡◌, ◌≤◌, Err, IfErr, IfOk, None, Ok, OnOk, Some, option_map, pos};
ghost use Rattle.dft_rules.specs.Refusals as rules;
ghost use Rattle.dft_stitch.specs.Limits as limits;
ghost use Rattle.dft_stitch.specs.declared.error.Counted.TheVariants.{Cycles};
ghost use Rattle.dft_stitch.specs.declared.error.StitchError.TheVariants.{TooMany};
ghost use Rattle.dft_stitch.specs.declared.limits.TheConstants.{MAX_CYCLES};
ghost use Rattle.dft_config_out.specs.Written.{config_of};
ghost use Rattle.dft_config_out_laws.specs.Tables.{IsWritable};
ghost use Rattle.dft_configuring.specs.Causes.{IsLimit};
ghost use Rattle.dft_configuring.specs.Made.{IsFrame};
ghost use Rattle.dft_configuring.specs.Refusals.{IsPassed};
ghost use Rattle.dft_configuring.specs.Rooted.{cell_count};
ghost use Rattle.dft_configuring.specs.Searching as spec;
ghost use Rattle.dft_configuring.specs.Searching.{IsChosen, tried};
ghost use Rattle.dft_configuring.specs.Steps.{IsAccepted, IsGoodWhere, IsTried, IsWritten};
ghost use Rattle.dft_configuring.specs.Wanted.{IsWanted};
ghost use Rattle.dft_configuring.specs.declared.error.ConfigureError.TheVariants.{Stitch};

use crate::error::ConfigureError;
use crate::lengths::lengths_of;
use crate::making::warm_up;
use crate::reading::{Written, write_made};
use crate::wanted::Wanted;
use dft_config::Config;
use dft_config_out::Made;
use dft_configure::{is_good, tested_are_good};
use dft_merge::Loads;
use dft_netlist::Design;
use dft_stitch::{Counted, MAX_CYCLES, Planned, StitchError};
use std::alloc::Global;

// Whether the load equations of the chains that are planned under a configuration are good.
fn are_good(alloc: Global, design: &Design, config: &Config) -> Result<bool, ConfigureError>
    requires { rules.refusal design.now config.now ≡ None }
    ensures fits { IfOk result (λ good. limits.refusal design.now config.now ≡ None) }
    ensures good { IfOk result (IsGoodWhere design.now config.now) }
    ensures refused { IfErr result (IsLimit (λ error. option_map Stitch (limits.refusal design.now config.now) ≡ Some error)) }
{
    let planned = Planned::prepare(alloc, design, config)?;
    let loads = Loads::prepare(alloc, planned)?;
    loads.soundness();
    tested_are_good();
    let lengths = lengths_of(alloc, loads.chains())?;
    let good = is_good(alloc, loads.equations(), &lengths)?;
    Ok(good)
}

// The text of what is made, where its load equations are good. It is refused where it is too long, and where its plan passes a limit.
fn written_if_good(
    alloc: Global,
    design: &Design,
    cells: u32,
    made: &Made,
) -> Result<Option<Written>, ConfigureError>
    requires writable { IsWritable made.now }
    requires passed { rules.refusal design.now (config_of made.now) ≡ None }
    requires cells { cells ≡ cell_count design.now }
    ensures fits { IfOk result (λ found. tried design.now made.now ≡ None) }
    ensures found { IfOk result (IsTried design.now cells made.now) }
    ensures refused { IfErr result (IsLimit (λ error. tried design.now made.now ≡ Some error)) }
{
    let written = write_made(alloc, cells, made)?;
    let good = are_good(alloc, design, written.config())?;
    if good { Ok(Some(written)) } else { Ok(None) }
}

// The warm cycles with which the search begins.
fn first_warm(stages: u8, channels: u8) -> u16
    requires { 1 ≤ channels }
    ensures { result ≡ spec.first_warm stages channels }
{
    let channels = u16::from(channels);
    (u16::from(stages) + (channels - 1)) / channels
}

// The same for what is made.
fn first_for(made: &Made, wanted: &Wanted) -> u16
    requires { 1 ≤ wanted.now.channels }
    ensures { result ≡ spec.first_warm made.now.ring.stages wanted.now.channels }
{
    first_warm(made.ring.stages, wanted.channels)
}

// Too many cycles.
fn too_many_cycles() -> ConfigureError
    ensures { result ≡ Stitch (TooMany Cycles (pos MAX_CYCLES)) }
{
    ConfigureError::Stitch(StitchError::TooMany {
        what: Counted::Cycles,
        limit: i64::from(MAX_CYCLES),
    })
}

// Searches for the fewest warm cycles with which the load equations are good, for so many scanned cells: gives them to what is made, and
// its text.
pub(crate) fn search(
    alloc: Global,
    design: &Design,
    wanted: &Wanted,
    cells: u32,
    made: &mut Made,
) -> Result<Written, ConfigureError>
    requires wanted { IsWanted wanted.now }
    requires accepted { IsAccepted design.now wanted.now }
    requires cells { cells ≡ cell_count design.now }
    requires small { cells ≤ 262144 }
    requires frame { IsFrame design.now wanted.now made.old }
    ensures chosen { OnOk result (IsChosen design.now wanted.now made.new) }
    ensures written { IfOk result (IsWritten cells made.new) }
    ensures fits { IfOk result (λ written. limits.refusal design.now written.config ≡ None) }
    ensures refused { IfErr result (IsLimit (IsPassed design.now wanted.now)) }
{
    design.soundness();
    let first = first_for(made, wanted);
    for warm in first..4096 {
        warm_up(alloc, design, wanted, cells, made, warm)?;
        let found = written_if_good(alloc, design, cells, made)?;
        match found {
            Some(written) => return Ok(written),
            None => {}
        }
    }
    Err(too_many_cycles())
}
