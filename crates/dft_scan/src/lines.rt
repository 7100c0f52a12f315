//! The lines of a report: where each scanned cell stands, and why the other flip-flops are not scanned.

ghost use Rattle.std.specs.Prelude.{◌≡◌, Some, IfOk, option_and_then, slice_get};
ghost use Rattle.dft_scan.specs.Reports as spec;
ghost use Rattle.dft_stitch.specs.Chains as chains;

use dft_base::Name;
use dft_config::Config;
use dft_netlist::{Design, Instance, InstanceId};
use dft_report::{ScannedLine, UnscannedLine};
use dft_rules::{Judged, Rule, Verdicts};
use dft_stitch::{CellClock, clock_of};
use std::alloc::{AllocError, Global};

// The line of the cell at a place of a chain.
pub(crate) fn scanned_line(
    alloc: Global,
    design: &Design,
    config: &Config,
    verdicts: &Verdicts,
    chain: u32,
    place: u32,
    cell: InstanceId,
) -> Result<Option<ScannedLine>, AllocError>
    ensures { IfOk result (λ line. line ≡ spec.scanned_line design.now config.now verdicts.now chain place cell) }
{
    let name = name_of(alloc, design, cell)?;
    let clock = clock_of(verdicts, cell);
    let domain = domain_name(alloc, config, clock)?;
    Ok(scanned_as(chain, place, is_falling(clock), name, domain))
}

// Whether a cell with this clock takes its bits at falls.
fn is_falling(clock: Option<CellClock>) -> bool
    ensures { result ≡ chains.is_falling clock }
{
    match clock {
        Some(clock) => clock.falling,
        None => false,
    }
}

fn scanned_as(
    chain: u32,
    place: u32,
    falling: bool,
    name: Option<Name>,
    domain: Option<Name>,
) -> Option<ScannedLine>
    ensures { result ≡ spec.scanned_as chain place falling name domain }
{
    let name = name?;
    let domain = domain?;
    Some(ScannedLine {
        name,
        domain,
        chain,
        place,
        falling,
    })
}

// The name of an instance, if it has one.
fn name_of(alloc: Global, design: &Design, cell: InstanceId) -> Result<Option<Name>, AllocError>
    ensures { IfOk result (λ name. name ≡ spec.name_of design.now cell.0) }
{
    match design.instances().get(cell.0 as usize) {
        Some(instance) => copied(alloc, &instance.name),
        None => Ok(None),
    }
}

fn copied(alloc: Global, name: &Option<Name>) -> Result<Option<Name>, AllocError>
    ensures { IfOk result (λ copy. copy ≡ name.now) }
{
    match name {
        Some(name) => Ok(Some(name.copy(alloc)?)),
        None => Ok(None),
    }
}

// The name of the port of a clock's domain.
fn domain_name(
    alloc: Global,
    config: &Config,
    clock: Option<CellClock>,
) -> Result<Option<Name>, AllocError>
    ensures { IfOk result (λ name. name ≡ option_and_then (slice_get config.now.domains) (chains.domain_in clock)) }
{
    match clock {
        Some(clock) => name_at(alloc, config.domains(), clock.domain),
        None => Ok(None),
    }
}

fn name_at(alloc: Global, names: &[Name], place: u8) -> Result<Option<Name>, AllocError>
    ensures { IfOk result (λ name. name ≡ slice_get names.now place) }
{
    match names.get(usize::from(place)) {
        Some(name) => Ok(Some(name.copy(alloc)?)),
        None => Ok(None),
    }
}

// The line of an instance that is judged so, if it is a flip-flop that is not scanned.
pub(crate) fn unscanned_line(
    alloc: Global,
    instance: &Instance,
    verdict: Option<Judged>,
) -> Result<Option<UnscannedLine>, AllocError>
    ensures { IfOk result (λ line. line ≡ spec.unscanned_as instance.now.name verdict) }
{
    match verdict {
        Some(Judged::Unscanned { rule }) => Ok(unscanned_by(copied(alloc, &instance.name)?, rule)),
        _ => Ok(None),
    }
}

fn unscanned_by(name: Option<Name>, rule: Rule) -> Option<UnscannedLine>
    ensures { result ≡ spec.unscanned_as name (Some (Judged.Unscanned rule)) }
{
    Some(UnscannedLine { name: name?, rule })
}
