//! Which designs can be written.

ghost use Rattle.std.specs.Prelude.{◌≡◌, true};
ghost use Rattle.std.specs.List.{list_all};
ghost use Rattle.dft_verilog_out.specs.Named as spec;
ghost use Rattle.dft_verilog_out.specs.Named.{GatesAreJoined};
ghost use Rattle.dft_verilog_out.specs.Written as form;

use crate::instances::is_joined;
use dft_netlist::{CellRef, Design, Instance, Signal};

fn are_joined(signals: &[Signal]) -> bool
    ensures { result ≡ list_all form.is_joined signals.now }
{
    signals.iter().all(|to| is_joined(*to))
}

// Whether every pin of an instance is joined, where it is of a gate.
fn is_joined_gate(instance: &Instance) -> bool
    ensures { result ≡ spec.is_joined_gate instance.now }
{
    match instance.cell {
        CellRef::Library(_) => true,
        CellRef::Gate(..) => are_joined(instance.pins.as_slice()),
    }
}

// Whether every pin of each of these is joined, where it is of a gate.
fn are_joined_gates(instances: &[Instance]) -> bool
    ensures { result ≡ list_all spec.is_joined_gate instances.now }
{
    instances.iter().all(is_joined_gate)
}

/// Whether every pin of every gate is joined. Then the design can be written.
#[tactic(auto, using(crate::proofs::JoinedLemmas::gates_joined))]
pub fn gates_are_joined(design: &Design) -> bool
    ensures { result ≡ true → GatesAreJoined design.now }
{
    are_joined_gates(design.instances())
}
