//! The pins of an instance: what each is for, and what it takes its value from.

ghost use Rattle.std.specs.Prelude.{◌≡◌, length, map, option_map, IfOk};
ghost use Rattle.dft_netlist.specs.Drivers.{shape_of, source_of, connections_of};
ghost use Rattle.dft_logic.specs.Circuit.{source_at};
ghost use Rattle.dft_logic.specs.Compiling.{wired_at, wired_by, inputs_in, found_in};

use crate::circuit::{Operand, Operands};
use crate::packed::word_of;
use dft_cells::{Cell, Role};
use dft_netlist::{Instance, InstanceId, Signal, is_role, role_at};
use std::alloc::{AllocError, Global};

// A pin: what it is for, and what it takes its value from.
#[derive(Clone, Copy)]
pub(crate) struct Wire {
    pub role: Role,
    pub source: Operand,
}

// What a pin takes its value from.
pub(crate) fn operand(instance: InstanceId, pin: u32, signal: Signal) -> Operand
    ensures { source_at result ≡ source_of instance.0 pin signal }
{
    match signal {
        Signal::Net(net) => Operand::Net(net),
        Signal::Constant(bit) => Operand::Tied(bit),
        Signal::Unconnected => Operand::Loose(instance, pin),
    }
}

// The pins of an instance.
pub(crate) fn wires(
    alloc: Global,
    library: &[Cell],
    number: InstanceId,
    instance: &Instance,
) -> Result<Vec<Wire>, AllocError>
    requires { length instance.now.pins ≡ length (shape_of library.now instance.now.cell).roles }
    ensures { IfOk result (λ wires. map wired_at wires.items ≡ map (wired_by number.0) (connections_of library.now instance.now)) }
{
    let mut wires = Vec::new(alloc);
    for (pin, signal) in instance.pins.as_slice().iter().enumerate() {
        if let Some(role) = role_at(library, instance.cell, pin) {
            let source = operand(number, word_of(pin)?, *signal);
            wires.push(Wire { role, source })?;
        }
    }
    Ok(wires)
}

// What the first pin of a role takes its value from.
pub(crate) fn find(wires: &[Wire], role: Role) -> Option<Operand>
    ensures { option_map source_at result ≡ found_in role (map wired_at wires.now) }
{
    for wire in wires {
        if is_role(role, wire.role) {
            return Some(wire.source);
        }
    }
    None
}

// What the inputs of a gate take their values from.
pub(crate) fn gate_inputs(alloc: Global, wires: &[Wire]) -> Result<Operands, AllocError>
    ensures { IfOk result (λ inputs. map source_at inputs ≡ inputs_in (map wired_at wires.now)) }
{
    let mut inputs = Operands::new(alloc);
    for wire in wires {
        if wire.role.is_input() {
            inputs.push(wire.source)?;
        }
    }
    Ok(inputs)
}
