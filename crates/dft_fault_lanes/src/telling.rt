//! What lanes tell of the grades of faults.

ghost use Rattle.std.specs.Prelude.{◌≡◌, ◌<◌, ◌≤◌, ◌^◌, ℕ, All, false, length, slice_get, Some, IfOk};
ghost use Rattle.dft_faults.specs.declared.fault.Fault.{Fault as AFault};
ghost use Rattle.dft_faults.specs.Faulty.{IsFault};
ghost use Rattle.dft_grade.specs.declared.found.Grade.{Grade as AGrade};
ghost use Rattle.dft_grade.specs.Grades.{IsGraded};
ghost use Rattle.dft_logic.specs.Circuit as circuits;
ghost use Rattle.dft_logic.specs.Compiling.{IsCircuitOf};
ghost use Rattle.dft_netlist.specs.Orders.{numbers_of};
ghost use Rattle.dft_replay.specs.Rows as rows;
ghost use Rattle.dft_replay.specs.Rows.{ports_of};
ghost use Rattle.dft_replay.specs.Vectors.{AreSignals};
ghost use Rattle.dft_fault_laws.specs.Stuck.{IsControl};
ghost use Rattle.dft_fault_lanes.specs.Compares.{found_at};
ghost use Rattle.dft_fault_lanes.specs.Groups.{IsKept};

use crate::grouping::grade_group;
use dft_faults::Fault;
use dft_grade::Grade;
use dft_logic::{Circuit, flag_at};
use dft_netlist::{Design, NetId};
use dft_patterns::PatternSet;
use std::alloc::{AllocError, Global};

// Takes back what is told of faults by whose nets a clock, a reset or a set comes.
fn take_back(faults: &[Fault], control: &[bool], found: &mut [Option<Grade>])
    requires { length faults.now ≤ length found.old }
    ensures { (place : ℕ) (fault : AFault) (grade : AGrade) → slice_get faults.now place ≡ Some fault → found_at found.new place ≡ Some grade → IsKept control.now fault (found_at found.old place) grade }
{
    for (place, fault) in faults.iter().enumerate() {
        if flag_at(control, fault.net.0) {
            found[place] = None;
        }
    }
}

/// What the first so many vectors tell of the grades of at most 512 faults, in a lane for each: a grade that is told is the fault's.
/// Nothing is told of a fault by whose net a clock, a reset or a set comes, nor where a cell may take what moves.
pub fn tell_grades(
    alloc: Global,
    design: &Design,
    patterns: &PatternSet,
    circuit: &Circuit,
    nets: &[NetId],
    control: &[bool],
    count: usize,
    faults: &[Fault],
) -> Result<Vec<Option<Grade>>, AllocError>
    requires circuit { IsCircuitOf design.now (ports_of design.now patterns.now) circuit.now }
    requires control { IsControl design.now (circuits.flag_at control.now) }
    requires named { numbers_of nets.now ≡ rows.nets_of design.now patterns.now.signals }
    requires nets { AreSignals (length circuit.now.ops) nets.now }
    requires few { length nets.now < 2 ^ 32 }
    requires vectors { length patterns.now.vectors < 2 ^ 32 }
    requires acts { All (λ acts. length acts ≡ length nets.now) patterns.now.vectors }
    requires faults { length faults.now ≤ 512 }
    requires each { (place : ℕ) (fault : AFault) → slice_get faults.now place ≡ Some fault → IsFault design.now fault }
    ensures { IfOk result (λ found. (place : ℕ) (fault : AFault) (grade : AGrade) → slice_get faults.now place ≡ Some fault → found_at found.items place ≡ Some grade → IsGraded design.now patterns.now fault grade) }
{
    let mut found = grade_group(alloc, circuit, nets, patterns.vectors(), count, faults)?;
    take_back(faults, control, &mut found);
    Ok(found)
}
