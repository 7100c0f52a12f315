//! Whether load equations are good.

ghost use Rattle.std.specs.Prelude.{ℕ, ◌≡◌, ◌+◌, ◌/◌, ◌<◌, ◌≤◌, true, Ok, IfOk, OnOk, length};
ghost use Rattle.std.specs.BTreeSet.{contains};
ghost use Rattle.std.specs.Ordering.{nat_cmp};
ghost use Rattle.std.specs.List.{slice_index};
ghost use Rattle.dft_base.specs.Packed.{packed_bit};
ghost use Rattle.dft_base.specs.Solutions.{bit_at, xor};
ghost use Rattle.dft_equations.specs.LoadRows.{IsCell, row_of, rows_of};
ghost use Rattle.dft_configure.specs.Good as spec;
ghost use Rattle.dft_configure.specs.Good.{HaveLengths};
ghost use Rattle.dft_configure.specs.Seen as seen_spec;
ghost use Rattle.dft_configure.specs.Seen.{AreSeen, stamp_upto};

use dft_decompressor::carried;
use dft_equations::Equations;
use dft_lanes::has_bit;
use std::alloc::{AllocError, Global};
use std::collections::BTreeSet;

// Whether two bits differ.
fn differ(bit: bool, other: bool) -> bool
    ensures { result ≡ xor bit other }
{
    bit != other
}

// Whether two rows of so many columns have the same bits.
fn same_bits(row: &[u64], other: &[u64], columns: u32) -> bool
    requires row { (columns + 63) / 64 ≤ length row.now }
    requires other { (columns + 63) / 64 ≤ length other.now }
    ensures { result ≡ spec.same_bits columns (packed_bit row.now) (packed_bit other.now) }
{
    for column in 0..columns {
        if differ(
            has_bit(row, column as usize),
            has_bit(other, column as usize),
        ) {
            return false;
        }
    }
    true
}

// Whether a row of so many columns has a bit.
fn has_bits(row: &[u64], columns: u32) -> bool
    requires { (columns + 63) / 64 ≤ length row.now }
    ensures { result ≡ spec.has_bits columns (packed_bit row.now) }
{
    for column in 0..columns {
        if has_bit(row, column as usize) {
            return true;
        }
    }
    false
}

// Whether two cells have the same load equation.
fn same_cells(equations: &Equations, chain: u16, place: u16, other: u16, spot: u16) -> bool
    requires cell { IsCell equations.now chain place }
    requires other { IsCell equations.now other spot }
    ensures { result ≡ spec.same_bits equations.now.columns (bit_at (row_of equations.now chain place)) (bit_at (row_of equations.now other spot)) }
{
    let columns = equations.columns();
    let row = equations.of_cell(chain, place);
    same_bits(row, equations.of_cell(other, spot), columns)
}

// Whether a cell's load equation holds a variable.
fn has_variable(equations: &Equations, chain: u16, place: u16) -> bool
    requires { IsCell equations.now chain place }
    ensures { result ≡ spec.has_bits equations.now.columns (bit_at (row_of equations.now chain place)) }
{
    has_bits(equations.of_cell(chain, place), equations.columns())
}

// Whether a cell's load equation stands at one of the first so many places of a chain.
fn stands_in(equations: &Equations, chain: u16, place: u16, other: u16, places: u16) -> bool
    requires cell { IsCell equations.now chain place }
    requires other { other < length equations.now.chains }
    requires places { places ≤ length (rows_of equations.now other) }
    ensures { result ≡ spec.stands_in equations.now (row_of equations.now chain place) other places }
{
    for spot in 0..places {
        if same_cells(equations, chain, place, other, spot) {
            return true;
        }
    }
    false
}

// Whether a cell's load equation stands in a chain before.
fn stands_above(equations: &Equations, lengths: &[u16], chain: u16, place: u16) -> bool
    requires cell { IsCell equations.now chain place }
    requires lengths { HaveLengths equations.now lengths.now }
    ensures { result ≡ spec.stands_above equations.now chain place }
{
    for other in 0..chain {
        if stands_in(equations, chain, place, other, lengths[other as usize]) {
            return true;
        }
    }
    false
}

// The stamp of a row of so many columns.
fn stamp_of(row: &[u64], columns: u32) -> u64
    requires { (columns + 63) / 64 ≤ length row.now }
    ensures { result ≡ stamp_upto columns (packed_bit row.now) }
{
    let mut stamp = 0;
    for column in 0..columns {
        stamp = carried(stamp, has_bit(row, column as usize));
    }
    stamp
}

// The stamp of a cell's load equation.
fn stamp_at(equations: &Equations, chain: u16, place: u16) -> u64
    requires { IsCell equations.now chain place }
    ensures { result ≡ seen_spec.stamp_at equations.now chain place }
{
    stamp_of(equations.of_cell(chain, place), equations.columns())
}

// Whether a cell's load equation stands nowhere before, by comparing it with all of them.
fn is_alone(equations: &Equations, lengths: &[u16], chain: u16, place: u16) -> bool
    requires cell { IsCell equations.now chain place }
    requires lengths { HaveLengths equations.now lengths.now }
    ensures { result ≡ spec.is_alone equations.now chain place }
{
    if stands_above(equations, lengths, chain, place) {
        return false;
    }
    !stands_in(equations, chain, place, chain, place)
}

// Whether a cell's load equation is not empty, and stands nowhere before: where its stamp was not seen, it does not.
fn is_good_cell(
    equations: &Equations,
    lengths: &[u16],
    seen: &mut BTreeSet<u64>,
    chain: u16,
    place: u16,
) -> Result<bool, AllocError>
    requires cell { IsCell equations.now chain place }
    requires lengths { HaveLengths equations.now lengths.now }
    requires seen { AreSeen equations.now chain place (contains nat_cmp seen.old) }
    ensures good { IfOk result (λ good. good ≡ spec.is_good_cell equations.now chain place) }
    ensures seen { OnOk result (AreSeen equations.now chain (place + 1) (contains nat_cmp seen.new)) }
{
    let is_new = seen.insert(stamp_at(equations, chain, place))?;
    if !has_variable(equations, chain, place) {
        return Ok(false);
    }
    if is_new {
        return Ok(true);
    }
    Ok(is_alone(equations, lengths, chain, place))
}

// Whether the load equations of a chain are.
fn is_good_chain(
    equations: &Equations,
    lengths: &[u16],
    seen: &mut BTreeSet<u64>,
    chain: u16,
) -> Result<bool, AllocError>
    requires chain { chain < length lengths.now }
    requires lengths { HaveLengths equations.now lengths.now }
    requires seen { AreSeen equations.now chain 0 (contains nat_cmp seen.old) }
    ensures good { IfOk result (λ good. good ≡ spec.is_good_chain equations.now chain) }
    ensures seen { result ≡ Ok true → AreSeen equations.now (chain + 1) 0 (contains nat_cmp seen.new) }
{
    for place in 0..lengths[chain as usize] {
        let good = is_good_cell(equations, lengths, seen, chain, place)?;
        if !good {
            return Ok(false);
        }
    }
    Ok(true)
}

/// Whether the load equations of chains of these lengths are good: none is empty, and no two hold the same variables.
pub fn is_good(alloc: Global, equations: &Equations, lengths: &[u16]) -> Result<bool, AllocError>
    requires few { length lengths.now ≤ 1024 }
    requires lengths { HaveLengths equations.now lengths.now }
    ensures { IfOk result (λ good. good ≡ spec.is_good equations.now) }
{
    let mut seen = BTreeSet::new(alloc);
    for chain in 0..lengths.len() as u16 {
        let good = is_good_chain(equations, lengths, &mut seen, chain)?;
        if !good {
            return Ok(false);
        }
    }
    Ok(true)
}
