//! The scanned cells that lines name, and their variables.

ghost use Rattle.std.specs.Prelude.{◌≡◌, None, Some, MatchOption, option_and_then};
ghost use Rattle.dft_lanes.specs.Rows.{bits_of, IsPacked};
ghost use Rattle.dft_merge.specs.LoadPlan.{columns_by, rows_by};
ghost use Rattle.dft_certify.specs.Certifying as spec;

use dft_merge::Loads;
use dft_netlist::InstanceId;
use dft_report::Variable;

// The cell of this name, where it is scanned.
pub(crate) fn scanned_named(loads: &Loads<'_>, name: &[u8]) -> Option<InstanceId>
    ensures { result ≡ spec.scanned_named loads.now.design (rows_by loads.now) name.now }
{
    let cell = loads.design().find_instance(name)?;
    match loads.row(cell) {
        Some(_words) => Some(cell),
        None => None,
    }
}

// The load equation of the scanned cell of this name.
pub(crate) fn row_named<'a>(loads: &'a Loads<'_>, name: &[u8]) -> Option<&'a [u64]>
    ensures { MatchOption result (option_and_then (rows_by loads.now) (spec.scanned_named loads.now.design (rows_by loads.now) name.now) ≡ None)
        (λ words. IsPacked (columns_by loads.now) words.now × (option_and_then (rows_by loads.now) (spec.scanned_named loads.now.design (rows_by loads.now) name.now) ≡ Some (bits_of (columns_by loads.now) words.now))) }
{
    let cell = scanned_named(loads, name)?;
    loads.row(cell)
}

// Whether two variables are one.
fn same_variable(a: &Variable, b: &Variable) -> bool
    ensures { result ≡ spec.same_variable a.now b.now }
{
    a.channel == b.channel && a.cycle == b.cycle
}

// Whether these are the same variables, in the same order.
pub(crate) fn same_variables(a: &[Variable], b: &[Variable]) -> bool
    ensures { result ≡ spec.same_variables a.now b.now }
{
    if a.len() != b.len() {
        return false;
    }
    for place in 0..a.len() {
        if !same_variable(&a[place], &b[place]) {
            return false;
        }
    }
    true
}
