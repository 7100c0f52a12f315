//! What is tested of a configuration once its keys are read.

ghost use Rattle.std.specs.Prelude.{◌≡◌, ℕ, ◌||◌, ◌<◌, false, IfOk, length, slice_index_or};
ghost use Rattle.std.specs.Str.{bytes_eq};
ghost use Rattle.dft_config.specs.Range.{has, all_differ, same_number, names_of};
ghost use Rattle.dft_config_text.specs.Checks as spec;
ghost use Rattle.dft_config.specs.Shown.{drafted};

use crate::distinct::{
    chains_differ, injectors_differ, names_differ, stages_differ, taps_differ, texts_differ,
};
use crate::fault::Key;
use dft_base::{Listed, Name};
use dft_config::{Draft, PortNames};
use std::alloc::{AllocError, Global};

/// The first key with something that stands twice in one list.
#[tactic(auto, unfolding(crate::specs::Checks::first_repeated))]
pub fn first_repeated(alloc: Global, draft: &Draft) -> Result<Option<Key>, AllocError>
    ensures { IfOk result (λ key. key ≡ spec.first_repeated (drafted draft.now)) }
{
    if !names_differ(alloc, draft.clocking.domains.as_slice())? {
        return Ok(Some(Key::Domains));
    }
    if !resets_differ(
        alloc,
        draft.clocking.domains.as_slice(),
        draft.clocking.resets.as_slice(),
    )? {
        return Ok(Some(Key::Resets));
    }
    if !names_differ(alloc, draft.clocking.keep.as_slice())? {
        return Ok(Some(Key::Keep));
    }
    if !chains_differ(alloc, draft.loading.always_masked.as_slice())? {
        return Ok(Some(Key::AlwaysMasked));
    }
    if !taps_differ(alloc, draft.ring.taps.as_slice())? {
        return Ok(Some(Key::Taps));
    }
    if !injectors_differ(alloc, draft.ring.injectors.as_slice())? {
        return Ok(Some(Key::Injectors));
    }
    if !phase_differs(alloc, draft.ring.phase.as_slice())? {
        return Ok(Some(Key::Phase));
    }
    if !groups_differ(alloc, draft.compactor.groups.as_slice())? {
        return Ok(Some(Key::Groups));
    }
    if !ports_differ(alloc, &draft.names)? {
        return Ok(Some(Key::Names));
    }
    Ok(None)
}

// Whether no reset stands twice, and none is a domain.
fn resets_differ(alloc: Global, domains: &[Name], resets: &[Name]) -> Result<bool, AllocError>
    ensures { IfOk result (λ differ. differ ≡ spec.resets_differ domains.now resets.now) }
{
    Ok(names_differ(alloc, resets)? && are_apart(domains, resets))
}

fn are_apart(domains: &[Name], resets: &[Name]) -> bool
    ensures { result ≡ spec.are_apart domains.now resets.now }
{
    for reset in resets {
        if has_name(domains, reset.as_slice()) {
            return false;
        }
    }
    true
}

fn has_name(names: &[Name], bytes: &[u8]) -> bool
    ensures { result ≡ has bytes_eq names.now bytes.now }
{
    for name in names {
        if name.as_slice() == bytes {
            return true;
        }
    }
    false
}

fn phase_differs(alloc: Global, lists: &[Listed<u8>]) -> Result<bool, AllocError>
    ensures { IfOk result (λ differ. differ ≡ spec.each_differs lists.now) }
{
    for list in lists {
        if !stages_differ(alloc, list.as_slice())? {
            return Ok(false);
        }
    }
    Ok(true)
}

fn groups_differ(alloc: Global, lists: &[Listed<u16>]) -> Result<bool, AllocError>
    ensures { IfOk result (λ differ. differ ≡ spec.each_differs lists.now) }
{
    for list in lists {
        if !chains_differ(alloc, list.as_slice())? {
            return Ok(false);
        }
    }
    Ok(true)
}

// Whether no two of the eight names of ports are the same.
fn ports_differ(alloc: Global, names: &PortNames) -> Result<bool, AllocError>
    ensures { IfOk result (λ differ. differ ≡ all_differ bytes_eq (names_of names.now)) }
{
    let texts = [
        names.scan_enable.as_slice(),
        names.edt_clock.as_slice(),
        names.edt_update.as_slice(),
        names.channel.as_slice(),
        names.mask.as_slice(),
        names.output.as_slice(),
        names.scan_in.as_slice(),
        names.scan_out.as_slice(),
    ];
    texts_differ(alloc, &texts)
}

/// The first key with an empty list in its list.
#[tactic(auto, unfolding(crate::specs::Checks::first_empty))]
pub fn first_empty(draft: &Draft) -> Option<Key>
    ensures { result ≡ spec.first_empty (drafted draft.now) }
{
    if !have_items(draft.ring.phase.as_slice()) {
        Some(Key::Phase)
    } else if !have_items(draft.compactor.groups.as_slice()) {
        Some(Key::Groups)
    } else {
        None
    }
}

fn have_items<T>(lists: &[Listed<T>]) -> bool
    ensures { result ≡ spec.have_items lists.now }
{
    for list in lists {
        if list.as_slice().is_empty() {
            return false;
        }
    }
    true
}

/// The first chain that stands in no group.
#[tactic(auto, unfolding(crate::specs::Checks::first_unreached))]
pub fn first_unreached(alloc: Global, draft: &Draft) -> Result<Option<u16>, AllocError>
    ensures { IfOk result (λ chain. chain ≡ spec.first_unreached (drafted draft.now)) }
{
    let mut reached = vec![in alloc; false; usize::from(draft.loading.chains)]?;
    for group in draft.compactor.groups.as_slice() {
        mark(&mut reached, group.as_slice());
    }
    Ok(first_unmarked(&reached, draft.loading.chains))
}

// Marks the chains of a group.
fn mark(reached: &mut [bool], group: &[u16])
    ensures { (chain : ℕ) → chain < length reached.old → slice_index_or reached.new chain false ≡ (slice_index_or reached.old chain false || has same_number group.now chain) }
{
    for chain in group {
        let place = usize::from(*chain);
        if place < reached.len() {
            reached[place] = true;
        }
    }
}

// The first chain that is not marked.
fn first_unmarked(reached: &[bool], chains: u16) -> Option<u16>
    requires { length reached.now ≡ chains }
    ensures { result ≡ spec.first_not (λ chain. slice_index_or reached.now chain false) 0 chains }
{
    for chain in 0..chains {
        if !reached[usize::from(chain)] {
            return Some(chain);
        }
    }
    None
}
