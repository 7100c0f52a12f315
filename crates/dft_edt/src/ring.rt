ghost use Rattle.std.specs.Prelude.{◌≡◌, ◌<◌, ◌≤◌, IfOk, OnOk, length};
ghost use Rattle.dft_parts.specs.Recipes.{AreThere, Makes};
ghost use Rattle.dft_edt.specs.RingRecipe.{a_ring};

use crate::phases::make_phases;
use crate::stages::{make_nets, make_stages};
use dft_base::Listed;
use dft_cells::Gate;
use dft_config::Config;
use dft_netlist::{NetId, NetlistError};
use dft_parts::{EdtPorts, PartsBuilder};

/// What later hardware takes from the ring.
#[derive(Debug, Drop)]
pub struct Ring {
    /// The inverse of edt_update.
    pub run: NetId,
    /// For each chain the net of its phase sum.
    pub phases: Listed<NetId>,
}

/// Makes the ring generator and the phase shifter behind it: the net `run`, the stages with their taps and injectors, and for
/// each chain the sum of its phase set. After a refusal the builder holds a part of the hardware.
pub fn build_ring(
    parts: &mut PartsBuilder,
    config: &Config,
    ports: &EdtPorts,
) -> Result<Ring, NetlistError>
    requires channels { length ports.now.channels ≡ config.now.ring.channels }
    requires clock { ports.now.edt_clock.0 < length parts.old.netlist.nets }
    requires update { ports.now.edt_update.0 < length parts.old.netlist.nets }
    requires fed { AreThere parts.old.netlist ports.now.channels }
    ensures makes { Makes (λ ring. ring) (a_ring config.now ports.now) parts.old result parts.new }
    ensures run { IfOk result (λ ring. ring.run.0 < length parts.new.netlist.nets) }
    ensures phases { IfOk result (λ ring. AreThere parts.new.netlist ring.phases) }
    ensures count { IfOk result (λ ring. length ring.phases ≡ config.now.chains) }
    ensures nets { OnOk result (length parts.old.netlist.nets ≤ length parts.new.netlist.nets) }
{
    config.soundness();
    let run = parts.driving_gate(Gate::Inv, &[ports.edt_update])?;
    let ring = config.ring();
    let stages = make_nets(parts, ring.stages)?;
    make_stages(parts, ring, ports, run, &stages)?;
    let phases = make_phases(parts, ring, &stages, config.chains())?;
    Ok(Ring {
        run,
        phases: Listed::from_vec(phases),
    })
}
