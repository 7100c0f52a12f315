//! Lock-ups between cells of one edge and different domains.

ghost use Rattle.std.specs.Prelude.{◌≡◌, ◌≤◌, ◌<◌, ◌++◌, IfOk, OnOk, length};
ghost use Rattle.std.specs.List.{All, filter_map, range_with_len};
ghost use Rattle.dft_stitch.specs.Chains as spec;

use crate::cells::Cells;
use crate::cutting::{add, clock_of};
use crate::places::{CellClock, LockupPlace};
use dft_netlist::InstanceId;
use dft_rules::Verdicts;
use std::alloc::{AllocError, Global};

// The lock-ups, chain by chain and by their places.
pub(crate) fn find_lockups(
    alloc: Global,
    verdicts: &Verdicts,
    chains: &[Cells],
) -> Result<Vec<LockupPlace>, AllocError>
    requires few { length chains.now ≤ 1024 }
    requires short { All (λ cells. length cells ≤ 65536) chains.now }
    ensures { IfOk result (λ lockups. lockups.items ≡ spec.lockups_of verdicts.now chains.now) }
{
    let mut lockups = Vec::new(alloc);
    for (chain, cells) in chains.iter().enumerate() {
        add_lockups(&mut lockups, verdicts, chain as u16, cells.as_slice())?;
    }
    Ok(lockups)
}

fn add_lockups(
    lockups: &mut Vec<LockupPlace>,
    verdicts: &Verdicts,
    chain: u16,
    cells: &[InstanceId],
) -> Result<(), AllocError>
    requires { length cells.now ≤ 65536 }
    ensures { OnOk result (lockups.new.items ≡ lockups.old.items ++ filter_map (spec.lockup_after verdicts.now chain cells.now) (range_with_len 0 (length cells.now))) }
{
    for place in 0..cells.len() {
        add(lockups, lockup_after(verdicts, chain, cells, place))?;
    }
    Ok(())
}

// The lock-up after a place, if the next cell has the same edge and another domain.
fn lockup_after(
    verdicts: &Verdicts,
    chain: u16,
    cells: &[InstanceId],
    place: usize,
) -> Option<LockupPlace>
    requires { place < 65536 }
    ensures { result ≡ spec.lockup_after verdicts.now chain cells.now place }
{
    let clock = clock_at(verdicts, cells, place)?;
    let next = clock_at(verdicts, cells, place + 1)?;
    if needs_lockup(clock, next) {
        Some(LockupPlace {
            chain,
            after: place as u16,
            domain: clock.domain,
            high: clock.falling,
        })
    } else {
        None
    }
}

fn needs_lockup(clock: CellClock, next: CellClock) -> bool
    ensures { result ≡ spec.needs_lockup clock next }
{
    clock.falling == next.falling && clock.domain != next.domain
}

// The clock of the cell at a place of a chain.
pub(crate) fn clock_at(verdicts: &Verdicts, cells: &[InstanceId], place: usize) -> Option<CellClock>
    ensures { result ≡ spec.clock_at verdicts.now cells.now place }
{
    match cells.get(place) {
        Some(cell) => clock_of(verdicts, *cell),
        None => None,
    }
}
