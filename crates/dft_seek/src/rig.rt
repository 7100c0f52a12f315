//! A planned design made ready for searches.

ghost use Rattle.std.specs.Prelude.{◌≡◌, true, length, replicate, IfOk};
ghost use Rattle.dft_sweep.specs.Places.{AreBusy, ArePlaces};
ghost use Rattle.dft_seek.specs.Rigs.{IsBase, IsRig};

use crate::pins::Pins;
use crate::preparing::{compiled, find_moves, find_nets, find_ways};
use crate::showing::{Numbers, showing};
use crate::tables::unknown;
use dft_base::{Listed, Tri};
use dft_config::Config;
use dft_logic::Circuit;
use dft_netlist::{Design, InstanceId, NetId};
use dft_stitch::Planned;
use dft_sweep::{Field, Marks, Sources, places, settle};
use std::alloc::{AllocError, Global};

// A planned design and one of its domains, with what is the same for all faults.
pub(crate) struct Rig<'a> {
    pub design: &'a Design,
    pub config: &'a Config,
    pub domain: u8,
    pub circuit: Circuit,
    // By net, its place in the circuit's order.
    pub places: Vec<u32>,
    // By net: whether it is a reset, which flip-flop it shows, and from which nets a walk goes on to it.
    pub resets: Vec<bool>,
    pub shows: Vec<Option<InstanceId>>,
    pub steps: Vec<Listed<NetId>>,
    // By instance: which nets show it, whether it is a scanned cell, takes its next value at the rise or at the fall, and its pins.
    pub showing: Vec<Numbers>,
    pub holds: Vec<bool>,
    pub rises: Vec<bool>,
    pub falls: Vec<bool>,
    pub pins: Vec<Pins>,
    // Whether a cell takes its next value at the fall.
    pub any_falls: bool,
    // The scanned cells by chain and place, and the drivable ports in order.
    pub cells: Vec<InstanceId>,
    pub ports: Vec<NetId>,
    // The bits of output ports in order, and the scanned cells of the domain.
    pub outputs: Vec<NetId>,
    pub responses: Vec<InstanceId>,
    // The values of all nets where no cell and no port has one.
    pub base: Vec<Tri>,
}

// One call for all fields, so that the proof of what owns a value stays short.
impl Drop for Rig<'_> {
    fn drop(self) {
        let Rig {
            design: _,
            config: _,
            domain: _,
            circuit: _,
            places: _,
            resets: _,
            shows: _,
            steps: _,
            showing: _,
            holds: _,
            rises: _,
            falls: _,
            pins: _,
            any_falls: _,
            cells: _,
            ports: _,
            outputs: _,
            responses: _,
            base: _,
        } = self;
    }
}

// Settles all nets, where no cell and no port has a value.
fn settle_base(
    circuit: &Circuit,
    places: &[u32],
    resets: &[bool],
    holds: &[bool],
    values: &mut [Tri],
    marks: &mut Marks,
)
    requires places { ArePlaces circuit.now places.now }
    requires values { length values.old ≡ length circuit.now.ops }
    requires marked { marks.old.marked.items ≡ replicate (length circuit.now.ops) true }
    requires busy { AreBusy places.now marks.old }
    ensures { IsBase circuit.now resets.now holds.now values.new }
{
    let field = Field {
        circuit,
        places,
        needed: &[],
        stuck: None,
        sources: Sources {
            ports: &[],
            resets,
            cells: &[],
            holds,
        },
    };
    settle(&field, &[], values, marks);
}

// The values of all nets where no cell and no port has one.
fn base(
    alloc: Global,
    circuit: &Circuit,
    places: &[u32],
    resets: &[bool],
    holds: &[bool],
) -> Result<Vec<Tri>, AllocError>
    requires places { ArePlaces circuit.now places.now }
    ensures { IfOk result (λ values. IsBase circuit.now resets.now holds.now values.items) }
{
    let mut values = unknown(alloc, circuit.ops.len())?;
    let mut marks = Marks::new(alloc, circuit.ops.len(), true)?;
    settle_base(circuit, places, resets, holds, &mut values, &mut marks);
    Ok(values)
}

// A planned design made ready for searches of cubes that capture once in this domain.
pub(crate) fn prepared<'a>(
    alloc: Global,
    planned: &Planned<'a>,
    domain: u8,
) -> Result<Rig<'a>, AllocError>
    ensures rig { IfOk result IsRig }
    ensures design { IfOk result (λ rig. rig.design.now ≡ planned.entry.now.design) }
    ensures config { IfOk result (λ rig. rig.config.now ≡ planned.entry.now.config) }
    ensures domain { IfOk result (λ rig. rig.domain ≡ domain) }
{
    planned.soundness();
    let design = planned.design();
    let config = planned.config();
    design.soundness();
    let circuit = compiled(alloc, planned)?;
    let moves = find_moves(alloc, planned, domain)?;
    let ways = find_ways(alloc, planned, domain, &circuit, &moves)?;
    let nets = find_nets(alloc, planned, &circuit)?;
    let places = places(alloc, &circuit)?;
    let base = base(alloc, &circuit, &places, &nets.resets, &moves.holds)?;
    let showing = showing(alloc, &circuit.ops, moves.holds.len())?;
    Ok(Rig {
        design,
        config,
        domain,
        circuit,
        places,
        resets: nets.resets,
        shows: ways.shows,
        steps: ways.steps,
        showing,
        holds: moves.holds,
        rises: moves.rises,
        falls: moves.falls,
        pins: ways.pins,
        any_falls: moves.any_falls,
        cells: moves.cells,
        ports: nets.ports,
        outputs: nets.outputs,
        responses: moves.responses,
        base,
    })
}
