//! The searches of all faults.

ghost use Rattle.std.specs.Prelude.{ℕ, ◌≡◌, ◌<◌, ◌^◌, IfErr, IfOk, List, OnOk, Some, length, slice_get};
ghost use Rattle.dft_config.specs.Config.{Config as AConfig};
ghost use Rattle.dft_faults.specs.declared.fault.Fault.{Fault as AFault};
ghost use Rattle.dft_faults.specs.Faulty.{IsFault};
ghost use Rattle.dft_netlist.specs.Netlist.{Netlist};
ghost use Rattle.dft_seeking.specs.Gathers.{AreSearched, IsDone, IsEnded, IsGathered};
ghost use Rattle.dft_seeking.specs.Refusals.{CubesFit, IsCause, IsLong, IsRefused, IsReport, refusal};
ghost use Rattle.dft_seeking.specs.Told as spec;
ghost use Rattle.dft_seeking.specs.Told.{Told};

use crate::counting::SeekCounts;
use crate::error::SeekError;
use crate::gathering::{Gathered, gather, nothing};
use crate::limits::MAX_TEXT;
use crate::lines::{add_number, head};
use dft_base::Name;
use dft_config::Config;
use dft_cubes::MAX_CUBES;
use dft_faults::Fault;
use dft_netlist::Design;
use dft_report::MAX_BYTES;
use dft_seek::{Seeker, seek_faults};
use dft_stitch::Planned;
use std::alloc::{AllocError, Global};

/// What is saved of a search: a cube file with the cubes that were found, in the order of their faults, and a report that tells of
/// each fault; and what is counted of it.
#[derive(Debug, Drop)]
pub struct Sought {
    pub cubes: Vec<u8>,
    pub report: Vec<u8>,
    pub counts: SeekCounts,
}

// The name of the cube of the fault with this number.
fn name_of(alloc: Global, number: u32) -> Result<Name, AllocError>
    ensures { IfOk result (λ name. name ≡ spec.cube_name number) }
{
    let mut bytes = Vec::from_slice(alloc, b"s")?;
    add_number(&mut bytes, number)?;
    Name::from_slice(alloc, &bytes)
}

// Searches these faults one after another.
fn search_all(
    alloc: Global,
    seeker: &Seeker<'_>,
    design: &Design,
    config: &Config,
    faults: &[Fault],
    limit: u32,
) -> Result<Gathered, AllocError>
    requires design { seeker.now.design ≡ design.now }
    requires config { seeker.now.config ≡ config.now }
    requires few { length faults.now < 2 ^ 32 }
    requires faults { (place : ℕ) (fault : AFault) → slice_get faults.now place ≡ Some fault → IsFault design.now fault }
    ensures { IfOk result (AreSearched design.now config.now seeker.now.domain limit faults.now) }
{
    let mut gathered = nothing(alloc);
    for number in 0..faults.len() {
        let name = name_of(alloc, number as u32)?;
        let found = seeker.seek(alloc, faults[number], limit, name)?;
        gather(alloc, &mut gathered, design, config, faults[number], &found)?;
    }
    Ok(gathered)
}

// The report behind this head, if it is no longer than its limit.
fn report_of(mut head: Vec<u8>, gathered: &Gathered) -> Result<Vec<u8>, SeekError>
    ensures done { IfOk result (λ report. (n : Netlist) (config : AConfig) (told : List Told) → IsGathered n config told gathered.now → IsReport n told head.items report.items) }
    ensures refused { IfErr result (λ error. (n : Netlist) (config : AConfig) (told : List Told) → IsGathered n config told gathered.now → IsLong n told head.items error) }
{
    let bytes = gathered
        .lines
        .bytes
        .checked_add(head.len() as u64)
        .ok_or(AllocError)?;
    if bytes > i64::MAX as u64 {
        return Err(SeekError::Memory(AllocError));
    }
    if bytes > MAX_BYTES as u64 {
        return Err(SeekError::LongReport {
            first: bytes as i64,
        });
    }
    head.extend_from_slice(&gathered.lines.text)?;
    Ok(head)
}

// Refuses more cubes than a cube file may have, and a text that is longer than one may be.
fn check_cubes(gathered: &Gathered) -> Result<(), SeekError>
    ensures done { OnOk result ((n : Netlist) (config : AConfig) (told : List Told) → IsGathered n config told gathered.now → CubesFit n config told) }
    ensures refused { IfErr result (λ error. (n : Netlist) (config : AConfig) (told : List Told) → IsGathered n config told gathered.now → IsCause (refusal n config told) error) }
{
    if gathered.counts.cubes as usize > MAX_CUBES {
        return Err(SeekError::TooManyCubes);
    }
    let bytes = gathered.cubes.bytes;
    if bytes > i64::MAX as u64 {
        return Err(SeekError::Memory(AllocError));
    }
    if bytes > MAX_TEXT as u64 {
        return Err(SeekError::LongCubes {
            first: bytes as i64,
        });
    }
    Ok(())
}

// What is saved of these searches.
fn ended(alloc: Global, gathered: Gathered) -> Result<Sought, SeekError>
    ensures done { IfOk result (λ sought. (n : Netlist) (config : AConfig) (told : List Told) → IsGathered n config told gathered → IsEnded n config told sought) }
    ensures refused { IfErr result (λ error. (n : Netlist) (config : AConfig) (told : List Told) → IsGathered n config told gathered → IsCause (refusal n config told) error) }
{
    check_cubes(&gathered)?;
    let head = head(alloc, gathered.counts)?;
    let report = report_of(head, &gathered)?;
    Ok(Sought {
        cubes: gathered.cubes.text,
        report,
        counts: gathered.counts,
    })
}

/// Seeks a test cube for each fault of a planned design: cubes that capture once in this domain, by its place in the configuration,
/// each with so many dead nodes at most. A cube is named `s` and the number of its fault. It is refused where more cubes are found than a
/// cube file may have, then where its text is longer than one may be, then where the report is longer than its limit.
pub fn seek(
    alloc: Global,
    planned: &Planned<'_>,
    domain: u8,
    limit: u32,
) -> Result<Sought, SeekError>
    ensures done { IfOk result (IsDone planned.now.design planned.now.config domain limit) }
    ensures refused { IfErr result (IsRefused planned.now.design planned.now.config domain limit) }
{
    let design = planned.design();
    let config = planned.config();
    design.soundness();
    let faults = seek_faults(alloc, design, config)?;
    let seeker = Seeker::prepare(alloc, planned, domain)?;
    let gathered = search_all(alloc, &seeker, design, config, &faults, limit)?;
    ended(alloc, gathered)
}
