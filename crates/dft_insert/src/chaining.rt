//! Links along the chains.

ghost use Rattle.std.specs.Prelude.{◌≡◌, ◌+◌, ◌<◌, ◌≤◌, Ok, IfOk, OnOk, length};
ghost use Rattle.std.specs.List.{range_with_len};
ghost use Rattle.dft_netlist.specs.declared.limits.TheConstants.{MAX_PORTS};
ghost use Rattle.dft_parts.specs.Recipes.{AreThere, Makes, each, outcome};
ghost use Rattle.dft_insert.specs.Chained.{a_chain, a_crossing, a_lockup_behind, a_lockup_clock, a_step, cells_at, crossing_in};

use crate::outputs::net_at;
use crate::pins::{cell_in, join_scan_in};
use dft_cells::Gate;
use dft_config::Config;
use dft_netlist::{Design, InstanceId, NetId, NetlistError};
use dft_parts::PartsBuilder;
use dft_scan_frame::{Gap, domain_net};
use dft_stitch::{Chains, LockupPlace};

// Links a chain behind an entry: with lock-ups between domains of one edge, and elsewhere from cell to cell.
pub(crate) fn make_chain(
    parts: &mut PartsBuilder,
    design: &Design,
    config: &Config,
    chains: &Chains,
    gap: &Gap,
    chain: u16,
    row: &[NetId],
    entry: NetId,
) -> Result<(), NetlistError>
    requires chain { chain < length chains.now.chains }
    requires room { gap.now.width ≤ MAX_PORTS }
    requires nets { length design.now.nets + gap.now.width ≤ length parts.old.netlist.nets }
    requires entry { entry.0 < length parts.old.netlist.nets }
    requires row { AreThere parts.old.netlist row.now }
    ensures makes { Makes (λ _. tt) (a_chain design.now config.now gap.now chains.now.lockups chain (cells_at chains.now.chains chain) row.now entry) parts.old result parts.new }
    ensures nets { OnOk result (length parts.old.netlist.nets ≤ length parts.new.netlist.nets) }
{
    let cells = chains.chain(chain);
    join_scan_in(parts, design, cell_in(cells, 0), entry);
    make_crossings(
        parts,
        design,
        config,
        gap,
        chains.lockups(),
        chain,
        cells,
        row,
    )?;
    join_steps(parts, design, cells, row);
    Ok(())
}

// Makes the lock-ups of a chain, in their order.
fn make_crossings(
    parts: &mut PartsBuilder,
    design: &Design,
    config: &Config,
    gap: &Gap,
    lockups: &[LockupPlace],
    chain: u16,
    cells: &[InstanceId],
    row: &[NetId],
) -> Result<(), NetlistError>
    requires room { gap.now.width ≤ MAX_PORTS }
    requires nets { length design.now.nets + gap.now.width ≤ length parts.old.netlist.nets }
    requires some { 0 < length parts.old.netlist.nets }
    requires row { AreThere parts.old.netlist row.now }
    ensures makes { Makes (λ _. tt) (each (crossing_in design.now config.now gap.now chain cells.now row.now) lockups.now) parts.old result parts.new }
    ensures nets { OnOk result (length parts.old.netlist.nets ≤ length parts.new.netlist.nets) }
{
    for lockup in lockups {
        make_crossing_in(parts, design, config, gap, *lockup, chain, cells, row)?;
    }
    Ok(())
}

// Makes a lock-up where it stands in this chain.
fn make_crossing_in(
    parts: &mut PartsBuilder,
    design: &Design,
    config: &Config,
    gap: &Gap,
    lockup: LockupPlace,
    chain: u16,
    cells: &[InstanceId],
    row: &[NetId],
) -> Result<(), NetlistError>
    requires room { gap.now.width ≤ MAX_PORTS }
    requires nets { length design.now.nets + gap.now.width ≤ length parts.old.netlist.nets }
    requires some { 0 < length parts.old.netlist.nets }
    requires row { AreThere parts.old.netlist row.now }
    ensures makes { Makes (λ _. tt) (crossing_in design.now config.now gap.now chain cells.now row.now lockup) parts.old result parts.new }
    ensures nets { OnOk result (length parts.old.netlist.nets ≤ length parts.new.netlist.nets) }
{
    if lockup.chain == chain {
        return make_crossing(parts, design, config, gap, lockup, cells, row);
    }
    Ok(())
}

// Makes a lock-up on the domain of the cell before it, which drives the scan input of the cell behind it.
fn make_crossing(
    parts: &mut PartsBuilder,
    design: &Design,
    config: &Config,
    gap: &Gap,
    lockup: LockupPlace,
    cells: &[InstanceId],
    row: &[NetId],
) -> Result<(), NetlistError>
    requires room { gap.now.width ≤ MAX_PORTS }
    requires nets { length design.now.nets + gap.now.width ≤ length parts.old.netlist.nets }
    requires some { 0 < length parts.old.netlist.nets }
    requires row { AreThere parts.old.netlist row.now }
    ensures makes { Makes (λ _. tt) (a_crossing design.now config.now gap.now cells.now row.now lockup) parts.old result parts.new }
    ensures nets { OnOk result (length parts.old.netlist.nets ≤ length parts.new.netlist.nets) }
{
    design.soundness();
    let port = domain_net(design, config, gap, lockup.domain);
    let clock = make_clock(parts, port, lockup.high)?;
    make_lockup(parts, design, usize::from(lockup.after), clock, cells, row)
}

// What clocks a lock-up: the net of its domain's port, and where it is high a `not` of it, which is made.
fn make_clock(parts: &mut PartsBuilder, port: NetId, high: bool) -> Result<NetId, NetlistError>
    requires { port.0 < length parts.old.netlist.nets }
    ensures makes { Makes (λ net. net) (a_lockup_clock port high) parts.old result parts.new }
    ensures there { IfOk result (λ net. net.0 < length parts.new.netlist.nets) }
    ensures nets { OnOk result (length parts.old.netlist.nets ≤ length parts.new.netlist.nets) }
{
    if high {
        parts.driving_gate(Gate::Inv, &[port])
    } else {
        Ok(port)
    }
}

// Makes a lock-up on this clock behind the cell at a place.
fn make_lockup(
    parts: &mut PartsBuilder,
    design: &Design,
    after: usize,
    clock: NetId,
    cells: &[InstanceId],
    row: &[NetId],
) -> Result<(), NetlistError>
    requires after { after < 65536 }
    requires clock { clock.0 < length parts.old.netlist.nets }
    requires row { AreThere parts.old.netlist row.now }
    ensures makes { Makes (λ _. tt) (a_lockup_behind design.now cells.now row.now after clock) parts.old result parts.new }
    ensures nets { OnOk result (length parts.old.netlist.nets ≤ length parts.new.netlist.nets) }
{
    let net = parts.net()?;
    parts.lockup(clock, net_at(row, after), net)?;
    join_scan_in(parts, design, cell_in(cells, after + 1), net);
    Ok(())
}

// Joins each scan input that is still open to the output of the cell before it.
fn join_steps(parts: &mut PartsBuilder, design: &Design, cells: &[InstanceId], row: &[NetId])
    requires some { 0 < length parts.old.netlist.nets }
    requires row { AreThere parts.old.netlist row.now }
    ensures makes { outcome (each (a_step design.now cells.now row.now) (range_with_len 0 (length cells.now))) parts.old ≡ Ok (tt, parts.new) }
    ensures nets { length parts.new.netlist.nets ≡ length parts.old.netlist.nets }
{
    for place in 0..cells.len() {
        join_scan_in(parts, design, cell_in(cells, place + 1), net_at(row, place));
    }
}
