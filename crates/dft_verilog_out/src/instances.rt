//! Joins and instances.

ghost use Rattle.std.specs.Prelude.{ℕ, ◌≡◌, ◌++◌, OnOk, Some, codes, flat_map, length, map, slice_get};
ghost use Rattle.dft_netlist.specs.Sound.{AreLive, IsAJoin, IsInstance, IsLive};
ghost use Rattle.dft_netlist.specs.declared.instance.Instance.{Instance as AnInstance};
ghost use Rattle.dft_netlist.specs.declared.instance.Join.{Join as AJoin};
ghost use Rattle.dft_verilog_out.specs.Written as form;

use crate::names::add_name;
use crate::nets::{NetText, add_signal};
use dft_base::Name;
use dft_cells::{Cell, Gate, Pin};
use dft_netlist::{CellRef, Instance, Join, Signal};
use std::alloc::AllocError;

// Adds the line of a join.
#[tactic(auto, unfolding(crate::specs::Written::join_line))]
fn add_join(out: &mut Vec<u8>, nets: &[NetText], join: Join) -> Result<(), AllocError>
    requires { IsAJoin (length nets.now) join.target join.source }
    ensures { OnOk result (out.new.items ≡ out.old.items ++ form.join_line nets.now join) }
{
    out.extend_from_slice(b"assign ")?;
    add_signal(out, nets, Signal::Net(join.target))?;
    out.extend_from_slice(b" = ")?;
    add_signal(out, nets, join.source)?;
    out.extend_from_slice(b";\n")
}

// Adds the lines of joins.
pub(crate) fn add_joins(
    out: &mut Vec<u8>,
    nets: &[NetText],
    joins: &[Join],
) -> Result<(), AllocError>
    requires { (place : ℕ) (join : AJoin) → slice_get joins.now place ≡ Some join → IsAJoin (length nets.now) join.target join.source }
    ensures { OnOk result (out.new.items ≡ out.old.items ++ flat_map (form.join_line nets.now) joins.now) }
{
    for join in joins {
        add_join(out, nets, *join)?;
    }
    Ok(())
}

// Adds a pin and what it is joined to.
fn add_joined(out: &mut Vec<u8>, nets: &[NetText], pin: &Name, to: Signal) -> Result<(), AllocError>
    requires { IsLive (length nets.now) to }
    ensures { OnOk result (out.new.items ≡ out.old.items ++ form.connection_text nets.now pin.now to) }
{
    out.push(b'.')?;
    add_name(out, pin)?;
    out.push(b'(')?;
    add_signal(out, nets, to)?;
    out.push(b')')?;
    Ok(())
}

// Whether a pin is joined to something.
pub(crate) fn is_joined(signal: Signal) -> bool
    ensures { result ≡ form.is_joined signal }
{
    match signal {
        Signal::Net(_) | Signal::Constant(_) => true,
        Signal::Unconnected => false,
    }
}

// Adds the pins that are joined, with commas between them.
fn add_connections(
    out: &mut Vec<u8>,
    nets: &[NetText],
    pins: &[Pin],
    signals: &[Signal],
) -> Result<(), AllocError>
    requires live { AreLive (length nets.now) signals.now }
    requires width { length signals.now ≡ length pins.now }
    ensures { OnOk result (out.new.items ≡ out.old.items ++ form.list_text (form.connection_texts nets.now pins.now signals.now)) }
{
    let mut before: &[u8] = b"";
    for place in 0..pins.len() {
        if is_joined(signals[place]) {
            out.extend_from_slice(before)?;
            add_joined(out, nets, &pins[place].name, signals[place])?;
            before = b", ";
        }
    }
    Ok(())
}

fn gate_text(kind: Gate) -> &'static [u8]
    ensures { result.now ≡ form.gate_text kind }
{
    match kind {
        Gate::Buf => b"buf",
        Gate::Inv => b"not",
        Gate::And => b"and",
        Gate::Nand => b"nand",
        Gate::Or => b"or",
        Gate::Nor => b"nor",
        Gate::Xor => b"xor",
        Gate::Xnor => b"xnor",
        _ => b"",
    }
}

// Adds signals behind those that are there.
fn add_inputs(out: &mut Vec<u8>, nets: &[NetText], signals: &[Signal]) -> Result<(), AllocError>
    requires { AreLive (length nets.now) signals.now }
    ensures { OnOk result (out.new.items ≡ out.old.items ++ form.list_text_behind (codes ", ") (map (form.signal_text nets.now) signals.now)) }
{
    for signal in signals {
        out.extend_from_slice(b", ")?;
        add_signal(out, nets, *signal)?;
    }
    Ok(())
}

// Adds a gate's terminals, its output first.
fn add_terminals(out: &mut Vec<u8>, nets: &[NetText], pins: &[Signal]) -> Result<(), AllocError>
    requires { AreLive (length nets.now) pins.now }
    ensures { OnOk result (out.new.items ≡ out.old.items ++ form.list_text (map (form.signal_text nets.now) (form.output_first pins.now))) }
{
    if pins.is_empty() {
        return Ok(());
    }
    let (inputs, output) = pins.split_at(pins.len() - 1);
    add_signal(out, nets, output[0])?;
    add_inputs(out, nets, inputs)
}

// Adds a name, if there is one.
fn add_own_name(out: &mut Vec<u8>, name: &Option<Name>) -> Result<(), AllocError>
    ensures { OnOk result (out.new.items ≡ out.old.items ++ form.own_name_text name.now) }
{
    match name {
        Some(name) => {
            out.push(b' ')?;
            add_name(out, name)
        }
        None => Ok(()),
    }
}

// Adds the line of a gate.
#[tactic(auto, unfolding(crate::specs::Written::gate_line))]
fn add_gate(
    out: &mut Vec<u8>,
    nets: &[NetText],
    kind: Gate,
    instance: &Instance,
) -> Result<(), AllocError>
    requires { AreLive (length nets.now) instance.now.pins }
    ensures { OnOk result (out.new.items ≡ out.old.items ++ form.gate_line nets.now kind instance.now) }
{
    out.extend_from_slice(gate_text(kind))?;
    add_own_name(out, &instance.name)?;
    out.extend_from_slice(b" (")?;
    add_terminals(out, nets, instance.pins.as_slice())?;
    out.extend_from_slice(b");\n")
}

// Adds the line of an instance of a cell.
#[tactic(auto, unfolding(crate::specs::Written::cell_line))]
fn add_cell(
    out: &mut Vec<u8>,
    nets: &[NetText],
    cell: &Cell,
    instance: &Instance,
) -> Result<(), AllocError>
    requires live { AreLive (length nets.now) instance.now.pins }
    requires width { length instance.now.pins ≡ length cell.now.pins }
    ensures { OnOk result (out.new.items ≡ out.old.items ++ form.cell_line nets.now cell.now instance.now) }
{
    add_name(out, &cell.name)?;
    add_own_name(out, &instance.name)?;
    out.extend_from_slice(b" (")?;
    add_connections(out, nets, cell.pins.as_slice(), instance.pins.as_slice())?;
    out.extend_from_slice(b");\n")
}

// Adds the line of an instance.
fn add_instance(
    out: &mut Vec<u8>,
    cells: &[Cell],
    nets: &[NetText],
    instance: &Instance,
) -> Result<(), AllocError>
    requires { IsInstance cells.now (length nets.now) instance.now.name instance.now.cell instance.now.pins }
    ensures { OnOk result (out.new.items ≡ out.old.items ++ form.instance_line cells.now nets.now instance.now) }
{
    match instance.cell {
        CellRef::Library(id) => add_cell(out, nets, &cells[id.0 as usize], instance),
        CellRef::Gate(kind, _) => add_gate(out, nets, kind, instance),
    }
}

// Adds the lines of instances.
pub(crate) fn add_instances(
    out: &mut Vec<u8>,
    cells: &[Cell],
    nets: &[NetText],
    instances: &[Instance],
) -> Result<(), AllocError>
    requires { (place : ℕ) (i : AnInstance) → slice_get instances.now place ≡ Some i → IsInstance cells.now (length nets.now) i.name i.cell i.pins }
    ensures { OnOk result (out.new.items ≡ out.old.items ++ flat_map (form.instance_line cells.now nets.now) instances.now) }
{
    for instance in instances {
        add_instance(out, cells, nets, instance)?;
    }
    Ok(())
}
