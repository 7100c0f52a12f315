//! The channel bits of patterns.

ghost use Rattle.std.specs.Prelude.{◌≡◌, ◌<◌, Some, length, slice_get, IfOk};
ghost use Rattle.dft_base.specs.Solutions.{bit_at, IsChosen};
ghost use Rattle.dft_cubes.specs.declared.cube.Merged.{Merged};
ghost use Rattle.dft_lanes.specs.Rows.{bits_of, IsPacked};
ghost use Rattle.dft_merge.specs.Fills.{fill_of};
ghost use Rattle.dft_merge.specs.Merging.{columns_in, rows_in};
ghost use Rattle.dft_merge.specs.Placement.{Loads, equations_of};

use dft_config::Config;
use dft_gf2::Fill;
use dft_merge::{Closed, fill_bits};
use std::alloc::{AllocError, Global};

// The channel bits that load a pattern, where these bits fill the columns that are free.
fn solved(merger: &Closed<'_>, pattern: u32, like: &[bool]) -> Result<Vec<u64>, AllocError>
    requires pattern { pattern < length merger.now.patterns }
    requires columns { length like.now ≡ columns_in merger.now }
    ensures packed { IfOk result (λ words. IsPacked (columns_in merger.now) words.items) }
    ensures chosen { IfOk result (λ words. (merged : Merged) → slice_get merger.now.patterns pattern ≡ Some merged →
        IsChosen (columns_in merger.now) (equations_of (rows_in merger.now) merged.cells) like.now (bits_of (columns_in merger.now) words.items)) }
    ensures loads { IfOk result (λ words. (merged : Merged) → slice_get merger.now.patterns pattern ≡ Some merged →
        Loads (columns_in merger.now) (rows_in merger.now) (bit_at (bits_of (columns_in merger.now) words.items)) merged.cells) }
{
    let fill = Fill::new(
        |column: u32| -> bool
            requires { column < length like.now }
        { like[column as usize] },
        like,
    );
    merger.channel_bits(pattern, &fill)
}

// The channel bits that load a pattern, one a column, packed into words.
pub(crate) fn channel_bits(
    alloc: Global,
    config: &Config,
    merger: &Closed<'_>,
    pattern: u32,
    columns: u32,
) -> Result<Vec<u64>, AllocError>
    requires pattern { pattern < length merger.now.patterns }
    requires columns { columns ≡ columns_in merger.now }
    ensures packed { IfOk result (λ words. IsPacked (columns_in merger.now) words.items) }
    ensures chosen { IfOk result (λ words. (merged : Merged) → slice_get merger.now.patterns pattern ≡ Some merged →
        IsChosen (columns_in merger.now) (equations_of (rows_in merger.now) merged.cells) (fill_of config.now.fill pattern (columns_in merger.now)) (bits_of (columns_in merger.now) words.items)) }
    ensures loads { IfOk result (λ words. (merged : Merged) → slice_get merger.now.patterns pattern ≡ Some merged →
        Loads (columns_in merger.now) (rows_in merger.now) (bit_at (bits_of (columns_in merger.now) words.items)) merged.cells) }
{
    let like = fill_bits(alloc, config, pattern, columns)?;
    solved(merger, pattern, &like)
}
