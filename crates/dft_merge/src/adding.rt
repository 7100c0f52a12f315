//! The equations of cells, added to a system one by one.

ghost use Rattle.std.specs.Prelude.{◌≡◌, ◌<◌, ◌^◌, [], None, length, unwrap_or, IfOk, MatchBool};
ghost use Rattle.dft_base.specs.Solutions.{Equation, IsSolvable};
ghost use Rattle.dft_merge.specs.Placement as spec;
ghost use Rattle.dft_merge.specs.Placement.{equations_of};
ghost use Rattle.dft_merge.specs.LoadPlan.{columns_by, rows_by};
ghost use Rattle.dft_merge.specs.Systems.{IsConflict, IsRefused, IsRun, IsSystem, IsTaken};

use crate::loads::Loads;
use dft_gf2::{Outcome, System};
use dft_netlist::InstanceId;
use std::alloc::{AllocError, Global};

// Adds the equation of a scanned cell, and says whether it can hold with those that are kept.
fn add_cell(system: &mut System, loads: &Loads<'_>, cell: InstanceId, bit: bool, id: u32) -> bool
    requires columns { system.old.columns ≡ columns_by loads.now }
    requires scanned { rows_by loads.now cell ≡ None → ⊥ }
    ensures columns { system.new.columns ≡ columns_by loads.now }
    ensures added { let e : Equation = record { row = unwrap_or (rows_by loads.now cell) []; bit = bit; id = id } in
        MatchBool result (IsTaken (columns_by loads.now) system.old.kept e system.new.kept) (IsConflict (columns_by loads.now) e system.old system.new) }
{
    match loads.row(cell) {
        Some(row) => match system.try_add(row, bit, id) {
            Outcome::Kept => true,
            Outcome::Implied => true,
            Outcome::Conflict => false,
        },
        None => false,
    }
}

// Adds the equations of scanned cells, each named by its position, up to the first that contradicts the kept ones, and says
// whether there is none.
pub(crate) fn add_cells(
    system: &mut System,
    loads: &Loads<'_>,
    cells: &[(InstanceId, bool)],
) -> bool
    requires columns { system.old.columns ≡ columns_by loads.now }
    requires scanned { spec.first_unscanned (rows_by loads.now) cells.now ≡ None }
    requires few { length cells.now < 2 ^ 32 }
    ensures columns { system.new.columns ≡ columns_by loads.now }
    ensures added { MatchBool result
        (IsRun (columns_by loads.now) system.old.kept (equations_of (rows_by loads.now) cells.now) system.new.kept [])
        (IsRefused (columns_by loads.now) (equations_of (rows_by loads.now) cells.now) system.old system.new) }
{
    loads.soundness();
    for (id, given) in cells.iter().enumerate() {
        if !add_cell(system, loads, given.0, given.1, id as u32) {
            return false;
        }
    }
    true
}

// A new system with the equations of scanned cells that some channel bits load.
pub(crate) fn system_of(
    alloc: Global,
    loads: &Loads<'_>,
    cells: &[(InstanceId, bool)],
) -> Result<System, AllocError>
    requires scanned { spec.first_unscanned (rows_by loads.now) cells.now ≡ None }
    requires solvable { IsSolvable (columns_by loads.now) (equations_of (rows_by loads.now) cells.now) }
    ensures { IfOk result (IsSystem (columns_by loads.now) (equations_of (rows_by loads.now) cells.now)) }
{
    loads.soundness();
    let mut system = System::new(alloc, loads.equations().columns())?;
    for given in cells {
        add_cell(&mut system, loads, given.0, given.1, 0);
    }
    Ok(system)
}
