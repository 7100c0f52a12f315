ghost use Rattle.std.specs.Prelude.{◌≡◌, ◌<◌, ◌≤◌, OnOk, length};
ghost use Rattle.dft_parts.specs.Recipes.{AreThere, Makes};
ghost use Rattle.dft_edt.specs.Bounds.{PortsThere};
ghost use Rattle.dft_edt.specs.CompactorRecipe.{a_compactor};

use crate::masks::make_masks;
use crate::outputs::{make_gated, make_outputs};
use dft_config::Config;
use dft_netlist::{NetId, NetlistError};
use dft_parts::{EdtPorts, PartsBuilder};

/// Makes the masks, the hold bits and the compactor: for each chain its mask flip-flop and its hold flip-flop, then its end where
/// the hold bit is 0, and for each output the sum of its group. `run` is the inverse of edt_update. After a refusal the builder holds
/// a part of the hardware.
pub fn build_compactor(
    parts: &mut PartsBuilder,
    config: &Config,
    ports: &EdtPorts,
    run: NetId,
    ends: &[NetId],
) -> Result<(), NetlistError>
    requires masks { length ports.now.masks ≡ config.now.compactor.mask_inputs }
    requires outputs { length ports.now.outputs ≡ length config.now.compactor.groups }
    requires ports { PortsThere parts.old.netlist ports.now run }
    requires chains { length ends.now ≡ config.now.chains }
    requires ends { AreThere parts.old.netlist ends.now }
    ensures makes { Makes (λ _. tt) (a_compactor config.now ports.now run ends.now) parts.old result parts.new }
    ensures nets { OnOk result (length parts.old.netlist.nets ≤ length parts.new.netlist.nets) }
{
    let masks = make_masks(parts, config, ports, run)?;
    let gated = make_gated(parts, &masks, ends)?;
    make_outputs(parts, config, ports, &gated)
}
