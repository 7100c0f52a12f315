//! The mask bits of a pattern.

ghost use Rattle.std.specs.Prelude.{◌≡◌, ◌<◌, length, IfOk};
ghost use Rattle.std.specs.List.{list_any};
ghost use Rattle.dft_expect.specs.Loaded.{all_cells};
ghost use Rattle.dft_expect.specs.Masks.{by_chain, masks_of};
ghost use Rattle.dft_expect.specs.Masks as spec;
ghost use Rattle.dft_expect.specs.Policies.{MasksLike};

use crate::policy::MaskPolicy;
use crate::response::Response;
use dft_base::Tri;
use dft_stitch::Chains;
use std::alloc::{AllocError, Global};

fn is_unknown(value: Tri) -> bool
    ensures { result ≡ spec.is_unknown value }
{
    match value {
        Tri::Unknown => true,
        Tri::Zero | Tri::One => false,
    }
}

// Whether one of the values is unknown.
fn has_unknown(values: &[Tri]) -> bool
    ensures { result ≡ list_any spec.is_unknown values.now }
{
    for value in values {
        if is_unknown(*value) {
            return true;
        }
    }
    false
}

/// The mask bit of each chain: whether the response leaves something in it unknown, or the policy always masks it.
pub fn masks<F: Fn(u32, bool) -> bool>(
    alloc: Global,
    policy: &MaskPolicy<'_, F>,
    chains: &Chains,
    response: &Response,
) -> Result<Vec<bool>, AllocError>
    requires answers { MasksLike (F.pre policy.now.answer) (F.post policy.now.answer) policy.now.always.now }
    requires always { length policy.now.always.now ≡ length chains.now.chains }
    requires cells { length response.now.cells ≡ length (all_cells chains.now.chains) }
    ensures { IfOk result (λ masks. masks.items ≡ masks_of policy.now.always.now (by_chain chains.now.chains response.now.cells)) }
{
    let mut masks = Vec::with_capacity(alloc, usize::from(chains.count()))?;
    let values = response.cells.as_slice();
    let mut first = 0;
    for chain in 0..chains.count() {
        let end = first + chains.chain(chain).len();
        masks.push(policy.mask(u32::from(chain), has_unknown(&values[first..end])))?;
        first = end;
    }
    Ok(masks)
}
