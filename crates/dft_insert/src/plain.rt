//! What style Plain makes.

ghost use Rattle.std.specs.Prelude.{◌≡◌, ◌+◌, ◌<◌, ◌≤◌, ◌^◌, OnOk, length};
ghost use Rattle.std.specs.List.{All, range_with_len};
ghost use Rattle.dft_netlist.specs.declared.limits.TheConstants.{MAX_NETS, MAX_PORTS};
ghost use Rattle.dft_parts.specs.Recipes.{AreThere, Makes, each};
ghost use Rattle.dft_insert.specs.Scanned.{a_plain_chain, a_plain_end, plain_recipe};

use crate::chaining::make_chain;
use crate::outputs::{last_net, make_rows, row_at};
use dft_base::Listed;
use dft_cells::Gate;
use dft_config::Config;
use dft_netlist::{Design, NetId, NetlistError};
use dft_parts::PartsBuilder;
use dft_scan_frame::Gap;
use dft_stitch::Chains;

// Makes what stands in the frame of style Plain: nets for open outputs, the chains, and the buffers to the scan outputs.
pub(crate) fn make_plain(
    parts: &mut PartsBuilder,
    design: &Design,
    config: &Config,
    chains: &Chains,
    gap: &Gap,
) -> Result<(), NetlistError>
    requires room { gap.now.width ≤ MAX_PORTS }
    requires few { length parts.old.netlist.nets ≤ MAX_NETS }
    requires ports { gap.now.before + 1 + config.now.chains + length chains.now.chains ≤ length parts.old.netlist.nets }
    requires nets { length design.now.nets + gap.now.width ≤ length parts.old.netlist.nets }
    ensures makes { Makes (λ _. tt) (plain_recipe design.now config.now chains.now gap.now) parts.old result parts.new }
{
    let rows = make_rows(parts, design, gap, chains)?;
    make_plain_chains(parts, design, config, chains, gap, &rows)?;
    make_plain_ends(parts, config, chains, gap, &rows)
}

// Makes the chains behind their scan inputs.
fn make_plain_chains(
    parts: &mut PartsBuilder,
    design: &Design,
    config: &Config,
    chains: &Chains,
    gap: &Gap,
    rows: &[Listed<NetId>],
) -> Result<(), NetlistError>
    requires room { gap.now.width ≤ MAX_PORTS }
    requires fits { gap.now.before + 1 + config.now.chains + length chains.now.chains < 2 ^ 32 }
    requires ports { gap.now.before + 1 + length chains.now.chains ≤ length parts.old.netlist.nets }
    requires nets { length design.now.nets + gap.now.width ≤ length parts.old.netlist.nets }
    requires rows { All (AreThere parts.old.netlist) rows.now }
    ensures makes { Makes (λ _. tt) (each (a_plain_chain design.now config.now chains.now gap.now rows.now) (range_with_len 0 (length chains.now.chains))) parts.old result parts.new }
    ensures nets { OnOk result (length parts.old.netlist.nets ≤ length parts.new.netlist.nets) }
{
    let count = chains.count();
    for chain in 0..count {
        let entry = NetId(gap.before() + 1 + u32::from(chain));
        let row = row_at(rows, chain);
        make_chain(parts, design, config, chains, gap, chain, row, entry)?;
    }
    Ok(())
}

// Makes the buffers from the ends of the chains to their scan outputs.
fn make_plain_ends(
    parts: &mut PartsBuilder,
    config: &Config,
    chains: &Chains,
    gap: &Gap,
    rows: &[Listed<NetId>],
) -> Result<(), NetlistError>
    requires fits { gap.now.before + 1 + config.now.chains + length chains.now.chains < 2 ^ 32 }
    requires ports { gap.now.before + 1 + config.now.chains + length chains.now.chains ≤ length parts.old.netlist.nets }
    requires rows { All (AreThere parts.old.netlist) rows.now }
    ensures makes { Makes (λ _. tt) (each (a_plain_end config.now gap.now rows.now) (range_with_len 0 (length chains.now.chains))) parts.old result parts.new }
{
    let first = gap.before() + 1 + u32::from(config.chains());
    let count = chains.count();
    for chain in 0..count {
        let end = last_net(row_at(rows, chain));
        parts.gate(Gate::Buf, &[end], NetId(first + u32::from(chain)))?;
    }
    Ok(())
}
