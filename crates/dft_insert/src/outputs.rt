//! The nets at the outputs of the cells.

ghost use Rattle.std.specs.Prelude.{◌≡◌, ◌+◌, ◌++◌, ◌∷◌, ◌<◌, ◌≤◌, [], IfOk, OnOk, length};
ghost use Rattle.std.specs.List.{All};
ghost use Rattle.dft_netlist.specs.declared.limits.TheConstants.{MAX_PORTS};
ghost use Rattle.dft_parts.specs.Recipes.{AreThere, Makes};
ghost use Rattle.dft_parts.specs.Recipes as recipes;
ghost use Rattle.dft_insert.specs.Chained.{a_row, an_open_output, an_output, rows};
ghost use Rattle.dft_insert.specs.Chained as spec;

use crate::pins::join_role;
use dft_base::Listed;
use dft_cells::Role;
use dft_netlist::{Design, InstanceId, NetId, NetlistError};
use dft_parts::{PartsBuilder, push_net};
use dft_scan_frame::{Gap, own_output};
use dft_stitch::Chains;
use std::alloc::AllocError;

// The nets at the outputs of the cells of all chains; for an output that is joined to nothing a net is made.
pub(crate) fn make_rows(
    parts: &mut PartsBuilder,
    design: &Design,
    gap: &Gap,
    chains: &Chains,
) -> Result<Vec<Listed<NetId>>, NetlistError>
    requires room { gap.now.width ≤ MAX_PORTS }
    requires nets { length design.now.nets + gap.now.width ≤ length parts.old.netlist.nets }
    ensures makes { Makes (λ rows. rows.items) (rows design.now gap.now chains.now.chains) parts.old result parts.new }
    ensures there { IfOk result (λ rows. All (AreThere parts.new.netlist) rows.items) }
    ensures count { IfOk result (λ rows. length rows.items ≡ length chains.now.chains) }
    ensures nets { OnOk result (length parts.old.netlist.nets ≤ length parts.new.netlist.nets) }
{
    let mut rows = Vec::new(parts.alloc());
    let count = chains.count();
    for chain in 0..count {
        let row = make_row(parts, design, gap, chains.chain(chain))?;
        push_row(&mut rows, row)?;
    }
    Ok(rows)
}

fn push_row(rows: &mut Vec<Listed<NetId>>, row: Vec<NetId>) -> Result<(), AllocError>
    ensures { OnOk result (rows.new.items ≡ rows.old.items ++ row.items ∷ []) }
{
    rows.push(Listed::from_vec(row))?;
    Ok(())
}

// The nets at the outputs of the cells of a chain.
fn make_row(
    parts: &mut PartsBuilder,
    design: &Design,
    gap: &Gap,
    cells: &[InstanceId],
) -> Result<Vec<NetId>, NetlistError>
    requires room { gap.now.width ≤ MAX_PORTS }
    requires nets { length design.now.nets + gap.now.width ≤ length parts.old.netlist.nets }
    ensures makes { Makes (λ nets. nets.items) (a_row design.now gap.now cells.now) parts.old result parts.new }
    ensures there { IfOk result (λ nets. AreThere parts.new.netlist nets.items) }
    ensures nets { OnOk result (length parts.old.netlist.nets ≤ length parts.new.netlist.nets) }
{
    let mut nets = Vec::new(parts.alloc());
    for cell in cells {
        let net = make_output(parts, design, gap, *cell)?;
        push_net(&mut nets, net)?;
    }
    Ok(nets)
}

// The net at the output of a cell: its own, or one that is made for it.
fn make_output(
    parts: &mut PartsBuilder,
    design: &Design,
    gap: &Gap,
    cell: InstanceId,
) -> Result<NetId, NetlistError>
    requires room { gap.now.width ≤ MAX_PORTS }
    requires nets { length design.now.nets + gap.now.width ≤ length parts.old.netlist.nets }
    ensures makes { Makes (λ net. net) (an_output design.now gap.now cell) parts.old result parts.new }
    ensures there { IfOk result (λ net. net.0 < length parts.new.netlist.nets) }
    ensures nets { OnOk result (length parts.old.netlist.nets ≤ length parts.new.netlist.nets) }
{
    design.soundness();
    match own_output(design, cell) {
        Some(net) => Ok(gap.moved(net)),
        None => open_output(parts, design, cell),
    }
}

// Makes a net for an output that is joined to nothing.
fn open_output(
    parts: &mut PartsBuilder,
    design: &Design,
    cell: InstanceId,
) -> Result<NetId, NetlistError>
    ensures makes { Makes (λ net. net) (an_open_output design.now cell) parts.old result parts.new }
    ensures there { IfOk result (λ net. net.0 < length parts.new.netlist.nets) }
    ensures nets { OnOk result (length parts.old.netlist.nets ≤ length parts.new.netlist.nets) }
{
    let net = parts.net()?;
    join_role(parts, design, cell, Role::Output, net);
    Ok(net)
}

// The nets at the outputs of a chain, and none where there is no such chain.
pub(crate) fn row_at(rows: &[Listed<NetId>], chain: u16) -> &[NetId]
    ensures { result.now ≡ spec.row_at rows.now chain }
{
    match rows.get(usize::from(chain)) {
        Some(row) => row.as_slice(),
        None => &[],
    }
}

// The net at a place of a list, and the first net where there is no such place.
pub(crate) fn net_at(nets: &[NetId], place: usize) -> NetId
    ensures { result ≡ recipes.net_at nets.now place }
{
    match nets.get(place) {
        Some(net) => *net,
        None => NetId(0),
    }
}

// The net at the end of a chain.
pub(crate) fn last_net(row: &[NetId]) -> NetId
    ensures { result ≡ spec.last_net row.now }
{
    net_at(row, row.len().saturating_sub(1))
}
