//! The parts of a planned design that is made ready for searches.

ghost use Rattle.std.specs.Prelude.{IfOk};
ghost use Rattle.dft_seek.specs.Prepared.{AreMoves, AreNets, AreWays, IsCompiled, search_for};

use crate::pins::{Pins, all_pins};
use crate::steps::{shown_cells, steps};
use crate::tables::{
    any_cell, cells, drivable, flagged_cells, held, inputs, named, outputs, passing, taking,
};
use dft_base::Listed;
use dft_logic::{Circuit, compile};
use dft_netlist::{InstanceId, NetId};
use dft_stitch::Planned;
use std::alloc::{AllocError, Global};

// The scanned cells by chain and place; by instance whether it is one, and whether it takes its next value at the rise or at the fall; whether
// any does at the fall; and the cells that do at either.
#[derive(Drop)]
pub(crate) struct Moves {
    pub cells: Vec<InstanceId>,
    pub holds: Vec<bool>,
    pub rises: Vec<bool>,
    pub falls: Vec<bool>,
    pub any_falls: bool,
    pub responses: Vec<InstanceId>,
}

// The pins by instance, and by net which flip-flop it shows and from which nets a walk goes on to it.
#[derive(Drop)]
pub(crate) struct Ways {
    pub pins: Vec<Pins>,
    pub shows: Vec<Option<InstanceId>>,
    pub steps: Vec<Listed<NetId>>,
}

// Whether a net is a reset, the bits of output ports, and the drivable ports.
#[derive(Drop)]
pub(crate) struct Nets {
    pub resets: Vec<bool>,
    pub outputs: Vec<NetId>,
    pub ports: Vec<NetId>,
}

// The circuit of a planned design.
pub(crate) fn compiled(alloc: Global, planned: &Planned<'_>) -> Result<Circuit, AllocError>
    ensures { IfOk result (IsCompiled planned.now.design planned.now.config) }
{
    let design = planned.design();
    let clocks = named(alloc, design, planned.config().domains())?;
    let circuit = compile(alloc, design, &clocks)?;
    Ok(circuit)
}

// The scanned cells, and what they do where the clock of a domain pulses.
pub(crate) fn find_moves(
    alloc: Global,
    planned: &Planned<'_>,
    domain: u8,
) -> Result<Moves, AllocError>
    ensures { IfOk result (AreMoves (search_for planned.now.design planned.now.config domain)) }
{
    planned.soundness();
    let design = planned.design();
    design.soundness();
    let verdicts = planned.verdicts();
    let cells = cells(alloc, planned.chains())?;
    let holds = held(alloc, &cells, design.instances().len())?;
    let rises = taking(alloc, verdicts, &holds, domain, false)?;
    let falls = taking(alloc, verdicts, &holds, domain, true)?;
    let any_falls = any_cell(&cells, &falls);
    let responses = flagged_cells(alloc, &cells, &rises, &falls)?;
    Ok(Moves {
        cells,
        holds,
        rises,
        falls,
        any_falls,
        responses,
    })
}

// What walks go along, in a circuit and with cells that move so.
pub(crate) fn find_ways(
    alloc: Global,
    planned: &Planned<'_>,
    domain: u8,
    circuit: &Circuit,
    moves: &Moves,
) -> Result<Ways, AllocError>
    requires circuit { IsCompiled planned.now.design planned.now.config circuit.now }
    requires moves { AreMoves (search_for planned.now.design planned.now.config domain) moves.now }
    ensures { IfOk result (AreWays (search_for planned.now.design planned.now.config domain)) }
{
    let design = planned.design();
    design.soundness();
    let passed = passing(alloc, moves.any_falls, &moves.rises)?;
    let pins = all_pins(alloc, design)?;
    let shows = shown_cells(alloc, design)?;
    let steps = steps(alloc, &circuit.ops, &shows, &pins, &passed)?;
    Ok(Ways { pins, shows, steps })
}

// The nets at ports, in a circuit.
pub(crate) fn find_nets(
    alloc: Global,
    planned: &Planned<'_>,
    circuit: &Circuit,
) -> Result<Nets, AllocError>
    requires { IsCompiled planned.now.design planned.now.config circuit.now }
    ensures { IfOk result (AreNets planned.now.design planned.now.config) }
{
    let design = planned.design();
    let resets = named(alloc, design, planned.config().resets())?;
    let outputs = outputs(alloc, design.ports())?;
    let inputs = inputs(alloc, design.ports())?;
    let ports = drivable(alloc, &circuit.ops, &inputs, &resets)?;
    Ok(Nets {
        resets,
        outputs,
        ports,
    })
}
