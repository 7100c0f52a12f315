//! The nets by which clocks, resets and sets come.

ghost use Rattle.std.specs.Prelude.{◌≡◌, ◌<◌, ℕ, true, Some, length, slice_get, IfOk};
ghost use Rattle.dft_cells.specs.declared.kind.Role.{Role as ARole};
ghost use Rattle.dft_netlist.specs.declared.instance.Instance.{Instance as AnInstance};
ghost use Rattle.dft_netlist.specs.declared.instance.Signal.TheVariants.{Net};
ghost use Rattle.dft_netlist.specs.Drivers.{shape_of};
ghost use Rattle.dft_behavior.specs.Logic.{Ports};
ghost use Rattle.dft_netlist.specs.Sound.{AreLive, IsLive};
ghost use Rattle.dft_logic.specs.Circuit.{flag_at};
ghost use Rattle.dft_logic.specs.Compiling.{IsCircuitOf};
ghost use Rattle.dft_fault_laws.specs.Stuck as spec;
ghost use Rattle.dft_fault_laws.specs.Stuck.{IsControl};
ghost use Rattle.dft_fault_lanes.specs.Controls.{HasPins, HasPinsOf};

use dft_cells::{Cell, Role};
use dft_logic::Circuit;
use dft_netlist::{Design, Instance, Signal, role_at};
use dft_takings::mark_needed;
use std::alloc::{AllocError, Global};

// Whether a clock, a reset or a set comes in by a pin of this role.
fn is_control(role: Role) -> bool
    ensures { result ≡ spec.is_control role }
{
    match role {
        Role::Clock | Role::Reset | Role::Preset => true,
        _ => false,
    }
}

// Marks the net of a pin, where a clock, a reset or a set comes in by it.
fn mark_pin(role: Option<Role>, to: Signal, marked: &mut [bool])
    requires { IsLive (length marked.old) to }
    ensures kept { (k : ℕ) → flag_at marked.old k ≡ true → flag_at marked.new k ≡ true }
    ensures here { (r : ARole) (net : ℕ) → role ≡ Some r → spec.is_control r ≡ true → to ≡ Net (record { 0 = net }) → flag_at marked.new net ≡ true }
{
    if let (Some(role), Signal::Net(net)) = (role, to) {
        if is_control(role) {
            marked[net.0 as usize] = true;
        }
    }
}

// Marks the nets of an instance's pins by which a clock, a reset or a set comes in.
fn mark_pins(library: &[Cell], instance: &Instance, marked: &mut [bool])
    requires { AreLive (length marked.old) instance.now.pins }
    ensures kept { (k : ℕ) → flag_at marked.old k ≡ true → flag_at marked.new k ≡ true }
    ensures pins { HasPinsOf library.now instance.now (flag_at marked.new) }
{
    for (pin, to) in instance.pins.as_slice().iter().enumerate() {
        mark_pin(role_at(library, instance.cell, pin), *to, marked);
    }
}

// The same of all instances.
fn mark_instances(library: &[Cell], instances: &[Instance], marked: &mut [bool])
    requires { (place : ℕ) (instance : AnInstance) → slice_get instances.now place ≡ Some instance → AreLive (length marked.old) instance.pins }
    ensures { HasPins library.now instances.now (flag_at marked.new) }
{
    for instance in instances {
        mark_pins(library, instance, marked);
    }
}

/// Marks the nets by which clocks, resets and sets come: those of their pins, and all that these are settled from.
pub fn control(alloc: Global, design: &Design, circuit: &Circuit) -> Result<Vec<bool>, AllocError>
    requires { (ports : Ports) × IsCircuitOf design.now ports circuit.now }
    ensures { IfOk result (λ marked. IsControl design.now (flag_at marked.items)) }
{
    let mut marked = vec![in alloc; false; circuit.ops.len()]?;
    mark_instances(design.library().cells(), design.instances(), &mut marked);
    mark_needed(circuit, &mut marked);
    Ok(marked)
}
