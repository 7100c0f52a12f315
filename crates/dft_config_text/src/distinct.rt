//! Whether something stands twice in a list.

ghost use Rattle.std.specs.Prelude.{◌≡◌, IfOk, map};
ghost use Rattle.std.specs.Str.{bytes_eq};
ghost use Rattle.std.specs.Ordering.{eq_by_cmp};
ghost use Rattle.dft_config.specs.Range.{all_differ, same_number, same_tap, same_injector};

use dft_base::Name;
use dft_config::{Injector, Tap};
use std::alloc::{AllocError, Global};
use std::collections::BTreeSet;

// Whether none of the items stands twice.
fn items_differ<T: Ord + Copy>(alloc: Global, items: &[T]) -> Result<bool, AllocError>
    ensures { IfOk result (λ differ. differ ≡ all_differ (eq_by_cmp T.cmp) items.now) }
{
    let mut seen = BTreeSet::new(alloc);
    for item in items {
        if !seen.insert(*item)? {
            return Ok(false);
        }
    }
    Ok(true)
}

/// Whether none of the chains stands twice.
pub fn chains_differ(alloc: Global, chains: &[u16]) -> Result<bool, AllocError>
    ensures { IfOk result (λ differ. differ ≡ all_differ same_number chains.now) }
{
    items_differ(alloc, chains)
}

/// Whether none of the stages stands twice.
pub fn stages_differ(alloc: Global, stages: &[u8]) -> Result<bool, AllocError>
    ensures { IfOk result (λ differ. differ ≡ all_differ same_number stages.now) }
{
    items_differ(alloc, stages)
}

/// Whether none of the taps stands twice.
pub fn taps_differ(alloc: Global, taps: &[Tap]) -> Result<bool, AllocError>
    ensures { IfOk result (λ differ. differ ≡ all_differ same_tap taps.now) }
{
    items_differ(alloc, taps)
}

/// Whether none of the injectors stands twice.
pub fn injectors_differ(alloc: Global, injectors: &[Injector]) -> Result<bool, AllocError>
    ensures { IfOk result (λ differ. differ ≡ all_differ same_injector injectors.now) }
{
    items_differ(alloc, injectors)
}

/// Whether none of the names stands twice.
pub fn names_differ(alloc: Global, names: &[Name]) -> Result<bool, AllocError>
    ensures { IfOk result (λ differ. differ ≡ all_differ bytes_eq names.now) }
{
    let mut texts = Vec::new(alloc);
    for name in names {
        texts.push(name.as_slice())?;
    }
    texts_differ(alloc, texts.as_slice())
}

/// Whether none of the texts stands twice.
pub fn texts_differ(alloc: Global, texts: &[&[u8]]) -> Result<bool, AllocError>
    ensures { IfOk result (λ differ. differ ≡ all_differ bytes_eq (map (λ t. t.now) texts.now)) }
{
    items_differ(alloc, texts)
}
