//! The pins of what is made.

ghost use Rattle.std.specs.Prelude.{◌≡◌, ◌<◌, ◌++◌, ◌∷◌, [], IfOk, length, map};
ghost use Rattle.dft_cells.specs.WellFormed.{role_of};
ghost use Rattle.dft_netlist.specs.declared.instance.Signal.TheVariants.{Net};
ghost use Rattle.dft_netlist.specs.declared.instance.CellRef.TheVariants.{Library as ALibrary};
ghost use Rattle.dft_netlist.specs.Drivers.{shape_of};
ghost use Rattle.dft_parts.specs.Cells.{first_cell, is_dff, is_lockup};
ghost use Rattle.dft_parts.specs.Cells as spec;
ghost use Rattle.dft_parts.specs.Recipes.{at_nets};

use dft_cells::{CellId, DFF, Kind, Library, Pin, Role};
use dft_netlist::{NetId, PinSignals, Signal};
use std::alloc::{AllocError, Global};

// The pins of a gate between these nets.
pub(crate) fn gate_pins(
    alloc: Global,
    inputs: &[NetId],
    output: NetId,
) -> Result<PinSignals, AllocError>
    ensures { IfOk result (λ pins. pins ≡ at_nets inputs.now ++ Net output ∷ []) }
{
    let mut pins = PinSignals::new(alloc);
    for net in inputs {
        pins.push(Signal::Net(*net))?;
    }
    pins.push(Signal::Net(output))?;
    Ok(pins)
}

// The nets that a cell that stores a bit stands between.
#[derive(Clone, Copy, Debug, PartialEq, Eq)]
pub(crate) struct Between {
    pub(crate) clock: NetId,
    pub(crate) input: NetId,
    pub(crate) output: NetId,
}

// The pins of a cell between these nets.
pub(crate) fn store_pins(
    alloc: Global,
    cell_pins: &[Pin],
    nets: Between,
) -> Result<PinSignals, AllocError>
    ensures { IfOk result (λ pins. pins ≡ map (spec.pin_between nets.clock nets.input nets.output) (map role_of cell_pins.now)) }
{
    let mut pins = PinSignals::new(alloc);
    for pin in cell_pins {
        pins.push(pin_between(nets, pin.role))?;
    }
    Ok(pins)
}

// The pins of a cell of the library.
pub(crate) fn cell_pins(library: &Library, cell: CellId) -> &[Pin]
    requires { cell.0 < length library.now }
    ensures { map role_of result.now ≡ (shape_of library.now (ALibrary cell)).roles }
{
    library.cell(cell).pins.as_slice()
}

// What a pin is joined to, by what it is for.
fn pin_between(nets: Between, role: Role) -> Signal
    ensures { result ≡ spec.pin_between nets.clock nets.input nets.output role }
{
    match role {
        Role::Clock => Signal::Net(nets.clock),
        Role::Din => Signal::Net(nets.input),
        Role::Output => Signal::Net(nets.output),
        _ => Signal::Unconnected,
    }
}

// The first flip-flop without reset of a library.
pub(crate) fn first_dff(library: &Library) -> CellId
    ensures first { result ≡ first_cell is_dff library.now }
    ensures there { result.0 < length library.now }
{
    match library.first_of(DFF) {
        Some(cell) => cell,
        None => unreachable!(),
    }
}

// The first lock-up of a library.
pub(crate) fn first_lockup(library: &Library) -> CellId
    ensures first { result ≡ first_cell is_lockup library.now }
    ensures there { result.0 < length library.now }
{
    match library.first_of(Kind::Lockup) {
        Some(cell) => cell,
        None => unreachable!(),
    }
}
