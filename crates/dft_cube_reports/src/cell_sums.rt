//! The sums that cells take.

ghost use Rattle.std.specs.Prelude.{◌≡◌, ◌≤◌, ◌++◌, [], IfOk, OnOk, unwrap_or};
ghost use Rattle.std.specs.Option.{option_to_list};
ghost use Rattle.dft_lanes.specs.Rows.{bits_of, IsPacked};
ghost use Rattle.dft_merge.specs.LoadPlan.{rows_by};
ghost use Rattle.dft_cube_reports.specs.Outcomes as spec;

use dft_base::{Listed, Name};
use dft_config::RingConfig;
use dft_lanes::has_bit;
use dft_merge::Loads;
use dft_netlist::{Design, InstanceId};
use dft_report::{SumLine, Variable};
use std::alloc::{AllocError, Global};

/// The variables that a cell sums, in column order.
pub fn variables_of(
    alloc: Global,
    loads: &Loads<'_>,
    cell: InstanceId,
) -> Result<Vec<Variable>, AllocError>
    ensures { IfOk result (λ variables. variables.items ≡ spec.variables_of loads.now.config.ring (unwrap_or (rows_by loads.now cell) [])) }
{
    loads.soundness();
    match loads.row(cell) {
        Some(row) => variables(
            alloc,
            loads.config().ring(),
            loads.equations().columns(),
            row,
        ),
        None => Ok(Vec::new(alloc)),
    }
}

// The name of a cell, if it has one.
pub(crate) fn name_of(
    alloc: Global,
    design: &Design,
    cell: InstanceId,
) -> Result<Option<Name>, AllocError>
    ensures { IfOk result (λ name. name ≡ spec.cell_name design.now cell) }
{
    match design.instances().get(cell.0 as usize) {
        Some(instance) => copied(alloc, &instance.name),
        None => Ok(None),
    }
}

// The sum that a cell takes, with the bit that a cube gives it.
pub(crate) fn sum_of(
    alloc: Global,
    loads: &Loads<'_>,
    cell: InstanceId,
    bit: bool,
) -> Result<Option<SumLine>, AllocError>
    ensures { IfOk result (λ line. line ≡ spec.sum_line loads.now.design loads.now.config.ring (rows_by loads.now) (cell, bit)) }
{
    let Some(name) = name_of(alloc, loads.design(), cell)? else {
        return Ok(None);
    };
    let variables = Listed::from_vec(variables_of(alloc, loads, cell)?);
    Ok(Some(SumLine {
        name,
        bit,
        variables,
    }))
}

fn copied(alloc: Global, name: &Option<Name>) -> Result<Option<Name>, AllocError>
    ensures { IfOk result (λ copy. copy ≡ name.now) }
{
    match name {
        Some(name) => Ok(Some(name.copy(alloc)?)),
        None => Ok(None),
    }
}

// Adds the variable of a column, where it is in a load equation.
fn add_variable(
    variables: &mut Vec<Variable>,
    ring: &RingConfig,
    column: u32,
    is_in: bool,
) -> Result<(), AllocError>
    requires { 1 ≤ ring.now.channels }
    ensures { OnOk result (variables.new.items ≡ variables.old.items ++ option_to_list (spec.variable_of ring.now column is_in)) }
{
    if is_in {
        let channels = u32::from(ring.channels);
        variables.push(Variable {
            channel: column % channels,
            cycle: column / channels,
        })?;
    }
    Ok(())
}

// The variables of a row of so many columns.
fn variables(
    alloc: Global,
    ring: &RingConfig,
    columns: u32,
    row: &[u64],
) -> Result<Vec<Variable>, AllocError>
    requires ring { 1 ≤ ring.now.channels }
    requires row { IsPacked columns row.now }
    ensures { IfOk result (λ variables. variables.items ≡ spec.variables_of ring.now (bits_of columns row.now)) }
{
    let mut variables = Vec::new(alloc);
    for column in 0..columns {
        add_variable(&mut variables, ring, column, has_bit(row, column as usize))?;
    }
    Ok(variables)
}
