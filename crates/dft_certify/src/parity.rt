//! Whether sums are a certificate: no variable is left over, and their bits sum to 1.

ghost use Rattle.std.specs.Prelude.{◌≡◌, ℕ, IfOk, length, replicate};
ghost use Rattle.dft_base.specs.Packed.{packed_bit};
ghost use Rattle.dft_base.specs.Solutions.{xor};
ghost use Rattle.dft_lanes.specs.Rows.{IsPacked};
ghost use Rattle.dft_merge.specs.LoadPlan.{columns_by, rows_by};
ghost use Rattle.dft_certify.specs.Certifying as spec;

use crate::rows::row_named;
use dft_lanes::{highest, xor_into};
use dft_merge::Loads;
use dft_report::SumLine;
use std::alloc::{AllocError, Global};

// So many words that are 0.
fn zeros(alloc: Global, count: usize) -> Result<Vec<u64>, AllocError>
    ensures { IfOk result (λ words. words.items ≡ replicate count 0) }
{
    vec![in alloc; 0; count]
}

// Adds the load equation of the cell that a line names.
fn add_line(loads: &Loads<'_>, parity: &mut [u64], line: &SumLine)
    requires packed { IsPacked (columns_by loads.now) parity.old }
    ensures bits { (column : ℕ) → packed_bit parity.new column ≡ xor (packed_bit parity.old column) (spec.has_column loads.now.design (rows_by loads.now) column line.now) }
    ensures packed { IsPacked (columns_by loads.now) parity.new }
    ensures size { length parity.new ≡ length parity.old }
{
    if let Some(words) = row_named(loads, line.name.as_slice()) {
        xor_into(parity, words);
    }
}

// Whether no column is in an odd number of the lines, and their bits sum to 1.
pub(crate) fn is_certificate(
    alloc: Global,
    loads: &Loads<'_>,
    lines: &[SumLine],
) -> Result<bool, AllocError>
    ensures { IfOk result (λ is. is ≡ spec.is_certificate loads.now.design (rows_by loads.now) (columns_by loads.now) lines.now) }
{
    let mut parity = zeros(alloc, (loads.equations().columns() as usize + 63) / 64)?;
    let mut odd = false;
    for line in lines {
        add_line(loads, &mut parity, line);
        odd = odd != line.bit;
    }
    Ok(odd && highest(&parity).is_none())
}
