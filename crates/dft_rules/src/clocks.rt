//! Clocks that are used as data.

ghost use Rattle.std.specs.Prelude.{◌≡◌, ◌≤◌, ◌<◌, ◌^◌, ◌||◌, ◌&&◌, ℕ, List, false, None, IfOk, IfErr, IfSome, OnOk, find, length, option_map, slice_index_or};
ghost use Rattle.std.specs.List.{list_any, range_with_len};
ghost use Rattle.dft_netlist.specs.Drivers.{connections_of};
ghost use Rattle.dft_netlist.specs.Sound.{IsInstance, IsLive};
ghost use Rattle.dft_behavior.specs.RootTables.{AreRoots};
ghost use Rattle.dft_rules.specs.Findings.{AreNets, AreUsed, is_marked_clock};
ghost use Rattle.dft_rules.specs.Refusals.{IsRefusal, clock_as_data, is_data_of, is_joined_to, takes};

use crate::cells::{takes_data, uses_data};
use crate::error::RuleError;
use crate::findings::clock_place;
use dft_base::Name;
use dft_behavior::NetRoot;
use dft_cells::Cell;
use dft_netlist::{Design, Instance, NetId, Signal, kind_of};
use std::alloc::{AllocError, Global};

// Tests that no instance takes as data a net that shows the clock of one of these nets, which are the configured domains',
// or its inverse.
pub(crate) fn check_clocks(
    alloc: Global,
    design: &Design,
    domains: &[NetId],
    roots: &[NetRoot],
) -> Result<(), RuleError>
    requires few { length domains.now ≤ 16 }
    requires small { length roots.now < 2 ^ 32 }
    requires roots { AreRoots design.now roots.now }
    ensures ok { OnOk result ((names : List (List ℕ)) → AreNets design.now names domains.now → clock_as_data design.now names ≡ None) }
    ensures refused { IfErr result (λ error. (names : List (List ℕ)) → AreNets design.now names domains.now → IsRefusal (clock_as_data design.now names) error) }
{
    let used = data_nets(alloc, design)?;
    match first_clock(domains, roots, &used) {
        Some(net) => Err(RuleError::ClockAsData {
            net: design.net_name(net).copy(alloc)?,
        }),
        None => Ok(()),
    }
}

// The first marked net that shows the clock of one of these nets or its inverse.
fn first_clock(domains: &[NetId], roots: &[NetRoot], used: &[bool]) -> Option<NetId>
    requires few { length domains.now ≤ 16 }
    requires small { length roots.now < 2 ^ 32 }
    requires marks { length used.now ≡ length roots.now }
    ensures first { option_map (λ net. net.0) result ≡ find (is_marked_clock domains.now roots.now used.now) (range_with_len 0 (length roots.now)) }
    ensures live { IfSome result (λ net. net.0 < length roots.now) }
{
    for net in 0..roots.len() {
        if clock_place(domains, roots[net].clock()).is_some() && used[net] {
            return Some(NetId(net as u32));
        }
    }
    None
}

/// Marks the nets that some instance takes as data.
pub fn data_nets(alloc: Global, design: &Design) -> Result<Vec<bool>, AllocError>
    ensures { IfOk result (λ used. AreUsed design.now.library design.now.instances (length design.now.nets) used.items) }
{
    let mut used = vec![in alloc; false; design.net_count() as usize]?;
    for instance in design.instances() {
        mark_data(design.library().cells(), instance, &mut used);
    }
    Ok(used)
}

// Marks the nets that an instance takes as data.
fn mark_data(cells: &[Cell], instance: &Instance, used: &mut [bool])
    requires { IsInstance cells.now (length used.old) instance.now.name instance.now.cell instance.now.pins }
    ensures { (net : ℕ) → net < length used.old → slice_index_or used.new net false ≡ (slice_index_or used.old net false || is_data_of cells.now net instance.now) }
{
    if uses_data(kind_of(cells, instance.cell)) {
        mark_pins(cells, instance, used);
    }
}

fn mark_pins(cells: &[Cell], instance: &Instance, used: &mut [bool])
    requires { IsInstance cells.now (length used.old) instance.now.name instance.now.cell instance.now.pins }
    ensures { (net : ℕ) → net < length used.old → slice_index_or used.new net false ≡ (slice_index_or used.old net false || list_any (takes net) (connections_of cells.now instance.now)) }
{
    for (pin, signal) in instance.pins.as_slice().iter().enumerate() {
        mark(takes_data(cells, instance.cell, pin), *signal, used);
    }
}

// Marks the net of a pin that takes data.
fn mark(takes: bool, signal: Signal, used: &mut [bool])
    requires { IsLive (length used.old) signal }
    ensures { (net : ℕ) → net < length used.old → slice_index_or used.new net false ≡ (slice_index_or used.old net false || (takes && is_joined_to net signal)) }
{
    if takes {
        if let Signal::Net(net) = signal {
            used[net.0 as usize] = true;
        }
    }
}
