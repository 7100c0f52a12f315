//! How many flip-flops are scanned with the clocks and resets of a netlist.

ghost use Rattle.std.specs.Prelude.{◌≡◌, ◌<◌, ◌≤◌, IfOk, if◌then◌else◌, length};
ghost use Rattle.dft_configure.specs.Found.{AreChosen, AreTables, number, numbers};
ghost use Rattle.dft_configure.specs.Scanned as spec;

use crate::opening::{Tables, hold_port, is_among, open_clock};
use crate::roots::Roots;
use dft_cells::Role;
use dft_netlist::{Design, NetId};
use std::alloc::{AllocError, Global};

// Whether the port at which a reset is kept is among these, if there is one.
fn is_kept_at(resets: &[NetId], port: Option<NetId>) -> bool
    ensures { result ≡ spec.is_kept_at (numbers resets.now) (number port) }
{
    port.is_none() || is_among(resets, port)
}

// Whether the reset of an instance and its set are kept at these, as far as it has them.
fn are_kept_at(design: &Design, tables: &Tables, resets: &[NetId], instance: usize) -> bool
    requires instance { instance < length design.now.instances }
    requires tables { AreTables design.now tables.now }
    ensures { result ≡ spec.are_kept_at design.now (numbers resets.now) instance }
{
    is_kept_at(resets, hold_port(design, tables, Role::Reset, instance))
        && is_kept_at(resets, hold_port(design, tables, Role::Preset, instance))
}

// Whether an instance is scanned with these clocks and resets.
fn is_taken(
    design: &Design,
    tables: &Tables,
    domains: &[NetId],
    resets: &[NetId],
    instance: usize,
) -> bool
    requires instance { instance < length design.now.instances }
    requires tables { AreTables design.now tables.now }
    ensures { result ≡ spec.is_taken design.now (numbers domains.now) (numbers resets.now) instance }
{
    is_among(domains, open_clock(design, tables, instance))
        && are_kept_at(design, tables, resets, instance)
}

// 1 where it holds, else 0.
fn one_if(holds: bool) -> u32
    ensures one { result ≡ (if holds then 1 else 0) }
    ensures few { result ≤ 1 }
{
    if holds { 1 } else { 0 }
}

/// How many flip-flops are scanned with the clocks and resets of a netlist.
#[tactic(auto, unfolding(crate::specs::Scanned::scanned_count))]
pub fn scanned_of(alloc: Global, design: &Design, roots: &Roots) -> Result<u32, AllocError>
    requires { AreChosen design.now roots.now }
    ensures count { IfOk result (λ count. count ≡ spec.scanned_count design.now) }
    ensures few { IfOk result (λ count. count ≤ 262144) }
{
    let tables = Tables::of(alloc, design)?;
    let mut count = 0;
    for instance in 0..design.instances().len() {
        count += one_if(is_taken(design, &tables, &roots.domains, &roots.resets, instance));
    }
    Ok(count)
}
