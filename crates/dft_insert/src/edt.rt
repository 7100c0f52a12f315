//! What style Edt makes.

ghost use Rattle.std.specs.Prelude.{◌≡◌, ◌+◌, ◌<◌, ◌≤◌, IfOk, OnOk, length, map};
ghost use Rattle.std.specs.List.{All, range_with_len};
ghost use Rattle.dft_netlist.specs.declared.limits.TheConstants.{MAX_NETS, MAX_PORTS};
ghost use Rattle.dft_netlist.specs.NetNumbers as numbers;
ghost use Rattle.dft_stitch.specs.Plans.{falling_head};
ghost use Rattle.dft_parts.specs.Recipes.{AreThere, Makes, each};
ghost use Rattle.dft_edt.specs.CompactorRecipe.{a_compactor};
ghost use Rattle.dft_insert.specs.Bounds.{EdtThere};
ghost use Rattle.dft_insert.specs.Chained as chained;
ghost use Rattle.dft_insert.specs.Ports.{edt_nets};
ghost use Rattle.dft_insert.specs.Scanned.{an_edt_chain, behind_rows, edt_recipe};

use crate::chaining::make_chain;
use crate::outputs::{last_net, make_rows, net_at, row_at};
use dft_base::Listed;
use dft_config::Config;
use dft_edt::{build_compactor, build_ring};
use dft_netlist::{Design, NetId, NetlistError};
use dft_parts::{EdtPorts, PartsBuilder, push_net};
use dft_scan_frame::Gap;
use dft_stitch::Chains;
use std::alloc::{AllocError, Global};

// Makes what stands in the frame of style Edt.
pub(crate) fn make_edt(
    parts: &mut PartsBuilder,
    design: &Design,
    config: &Config,
    chains: &Chains,
    gap: &Gap,
) -> Result<(), NetlistError>
    requires count { length chains.now.chains ≡ config.now.chains }
    requires room { gap.now.width ≤ MAX_PORTS }
    requires before { gap.now.before ≤ MAX_NETS }
    requires ports { EdtThere parts.old.netlist config.now (edt_nets gap.now.before config.now) }
    requires nets { length design.now.nets + gap.now.width ≤ length parts.old.netlist.nets }
    ensures makes { Makes (λ _. tt) (edt_recipe design.now config.now chains.now gap.now (edt_nets gap.now.before config.now)) parts.old result parts.new }
{
    let ports = port_nets(parts.alloc(), gap.before(), config)?;
    make_at_ports(parts, design, config, chains, gap, &ports)
}

// Makes it at these nets of its ports.
fn make_at_ports(
    parts: &mut PartsBuilder,
    design: &Design,
    config: &Config,
    chains: &Chains,
    gap: &Gap,
    ports: &EdtPorts,
) -> Result<(), NetlistError>
    requires count { length chains.now.chains ≡ config.now.chains }
    requires room { gap.now.width ≤ MAX_PORTS }
    requires ports { EdtThere parts.old.netlist config.now ports.now }
    requires nets { length design.now.nets + gap.now.width ≤ length parts.old.netlist.nets }
    ensures makes { Makes (λ _. tt) (edt_recipe design.now config.now chains.now gap.now ports.now) parts.old result parts.new }
{
    let rows = make_rows(parts, design, gap, chains)?;
    make_behind_rows(parts, design, config, chains, gap, ports, &rows)
}

// Makes ring, chains and compactor, where these are the nets at the outputs of the cells.
fn make_behind_rows(
    parts: &mut PartsBuilder,
    design: &Design,
    config: &Config,
    chains: &Chains,
    gap: &Gap,
    ports: &EdtPorts,
    rows: &[Listed<NetId>],
) -> Result<(), NetlistError>
    requires count { length rows.now ≡ config.now.chains }
    requires room { gap.now.width ≤ MAX_PORTS }
    requires ports { EdtThere parts.old.netlist config.now ports.now }
    requires nets { length design.now.nets + gap.now.width ≤ length parts.old.netlist.nets }
    requires rows { All (AreThere parts.old.netlist) rows.now }
    ensures makes { Makes (λ _. tt) (behind_rows design.now config.now chains.now gap.now ports.now rows.now) parts.old result parts.new }
{
    let ring = build_ring(parts, config, ports)?;
    let phases = ring.phases.as_slice();
    make_edt_chains(parts, design, config, chains, gap, ports, phases, rows)?;
    make_ends(parts, config, ports, ring.run, rows)
}

// Makes the chains behind their phase sums.
fn make_edt_chains(
    parts: &mut PartsBuilder,
    design: &Design,
    config: &Config,
    chains: &Chains,
    gap: &Gap,
    ports: &EdtPorts,
    phases: &[NetId],
    rows: &[Listed<NetId>],
) -> Result<(), NetlistError>
    requires room { gap.now.width ≤ MAX_PORTS }
    requires clock { ports.now.edt_clock.0 < length parts.old.netlist.nets }
    requires phases { AreThere parts.old.netlist phases.now }
    requires nets { length design.now.nets + gap.now.width ≤ length parts.old.netlist.nets }
    requires rows { All (AreThere parts.old.netlist) rows.now }
    ensures makes { Makes (λ _. tt) (each (an_edt_chain design.now config.now chains.now gap.now ports.now phases.now rows.now) (range_with_len 0 (length chains.now.chains))) parts.old result parts.new }
    ensures nets { OnOk result (length parts.old.netlist.nets ≤ length parts.new.netlist.nets) }
{
    let count = chains.count();
    for chain in 0..count {
        let phase = net_at(phases, usize::from(chain));
        let row = row_at(rows, chain);
        make_edt_chain(parts, design, config, chains, gap, ports, chain, phase, row)?;
    }
    Ok(())
}

// Makes a chain behind its phase sum: it is the entry where the first cell is falling, else a lock-up on edt_clock that takes it.
fn make_edt_chain(
    parts: &mut PartsBuilder,
    design: &Design,
    config: &Config,
    chains: &Chains,
    gap: &Gap,
    ports: &EdtPorts,
    chain: u16,
    phase: NetId,
    row: &[NetId],
) -> Result<(), NetlistError>
    requires chain { chain < length chains.now.chains }
    requires room { gap.now.width ≤ MAX_PORTS }
    requires clock { ports.now.edt_clock.0 < length parts.old.netlist.nets }
    requires phase { phase.0 < length parts.old.netlist.nets }
    requires nets { length design.now.nets + gap.now.width ≤ length parts.old.netlist.nets }
    requires row { AreThere parts.old.netlist row.now }
    ensures makes { Makes (λ _. tt) (chained.a_fed_chain (falling_head chains.now chain) design.now config.now gap.now chains.now.lockups chain (chained.cells_at chains.now.chains chain) row.now ports.now.edt_clock phase) parts.old result parts.new }
    ensures nets { OnOk result (length parts.old.netlist.nets ≤ length parts.new.netlist.nets) }
{
    if chains.falling_head(chain) {
        make_chain(parts, design, config, chains, gap, chain, row, phase)
    } else {
        make_latched_chain(parts, design, config, chains, gap, ports, chain, phase, row)
    }
}

// Makes a chain behind a lock-up on edt_clock that takes its phase sum.
fn make_latched_chain(
    parts: &mut PartsBuilder,
    design: &Design,
    config: &Config,
    chains: &Chains,
    gap: &Gap,
    ports: &EdtPorts,
    chain: u16,
    phase: NetId,
    row: &[NetId],
) -> Result<(), NetlistError>
    requires chain { chain < length chains.now.chains }
    requires room { gap.now.width ≤ MAX_PORTS }
    requires clock { ports.now.edt_clock.0 < length parts.old.netlist.nets }
    requires phase { phase.0 < length parts.old.netlist.nets }
    requires nets { length design.now.nets + gap.now.width ≤ length parts.old.netlist.nets }
    requires row { AreThere parts.old.netlist row.now }
    ensures makes { Makes (λ _. tt) (chained.a_latched_chain design.now config.now gap.now chains.now.lockups chain (chained.cells_at chains.now.chains chain) row.now ports.now.edt_clock phase) parts.old result parts.new }
    ensures nets { OnOk result (length parts.old.netlist.nets ≤ length parts.new.netlist.nets) }
{
    let entry = parts.net()?;
    parts.lockup(ports.edt_clock, phase, entry)?;
    make_chain(parts, design, config, chains, gap, chain, row, entry)
}

// Makes masks, hold bits and compactor behind the ends of the chains.
fn make_ends(
    parts: &mut PartsBuilder,
    config: &Config,
    ports: &EdtPorts,
    run: NetId,
    rows: &[Listed<NetId>],
) -> Result<(), NetlistError>
    requires count { length rows.now ≡ config.now.chains }
    requires ports { EdtThere parts.old.netlist config.now ports.now }
    requires inverse { run.0 < length parts.old.netlist.nets }
    requires rows { All (AreThere parts.old.netlist) rows.now }
    ensures makes { Makes (λ _. tt) (a_compactor config.now ports.now run (map chained.last_net rows.now)) parts.old result parts.new }
{
    let ends = last_nets(parts.alloc(), rows)?;
    build_compactor(parts, config, ports, run, &ends)
}

// The nets at the ends of the chains.
fn last_nets(alloc: Global, rows: &[Listed<NetId>]) -> Result<Vec<NetId>, AllocError>
    ensures { IfOk result (λ nets. nets.items ≡ map chained.last_net rows.now) }
{
    let mut nets = Vec::new(alloc);
    for row in rows {
        push_net(&mut nets, last_net(row.as_slice()))?;
    }
    Ok(nets)
}

// The nets of the ports, of which the first has this number.
fn port_nets(alloc: Global, first: u32, config: &Config) -> Result<EdtPorts, AllocError>
    requires few { first ≤ MAX_NETS }
    ensures { IfOk result (λ ports. ports ≡ edt_nets first config.now) }
{
    config.soundness();
    let channels = first + 3;
    let masks = channels + u32::from(config.ring().channels);
    let outputs = masks + u32::from(config.compactor().mask_inputs);
    let count = config.compactor().groups.as_slice().len() as u32;
    Ok(EdtPorts {
        scan_enable: NetId(first),
        edt_clock: NetId(first + 1),
        edt_update: NetId(first + 2),
        channels: nets_from(alloc, channels, u32::from(config.ring().channels))?,
        masks: nets_from(alloc, masks, u32::from(config.compactor().mask_inputs))?,
        outputs: nets_from(alloc, outputs, count)?,
    })
}

// So many nets from a number on.
fn nets_from(alloc: Global, first: u32, count: u32) -> Result<Listed<NetId>, AllocError>
    requires { first + count ≤ MAX_NETS + MAX_PORTS }
    ensures { IfOk result (λ nets. nets ≡ numbers.nets_from first count) }
{
    let mut nets = Vec::new(alloc);
    for number in 0..count {
        push_net(&mut nets, NetId(first + number))?;
    }
    Ok(Listed::from_vec(nets))
}
