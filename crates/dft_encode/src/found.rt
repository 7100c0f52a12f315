//! All that is found of patterns.

ghost use Rattle.std.specs.Prelude.{◌≡◌, ◌<◌, Some, length, slice_get, IfOk};
ghost use Rattle.dft_cubes.specs.declared.cube.Merged.{Merged};
ghost use Rattle.dft_expect.specs.Captures.{IsCapture};
ghost use Rattle.dft_expect.specs.Loaded.{all_cells};
ghost use Rattle.dft_expect.specs.Masks.{by_chain, masks_of};
ghost use Rattle.dft_encode.specs.Compiled.{IsPattern};
ghost use Rattle.dft_encode.specs.Finding.{FitsFound, IsFinder, IsLoad, data_found};

use crate::finder::Finder;
use crate::loads::Load;
use dft_base::Listed;
use dft_cubes::Merged;
use dft_expect::{MaskPolicy, Response, masks};
use dft_stitch::Chains;
use dft_vectors::Pattern;
use std::alloc::{AllocError, Global};

// A pattern, and all that is found of it.
#[derive(Debug)]
pub(crate) struct Found {
    pub(crate) merged: Merged,
    // The channel bits of its load, packed into words.
    pub(crate) bits: Listed<u64>,
    // Which chains are masked while it is unloaded.
    pub(crate) masks: Listed<bool>,
    pub(crate) response: Response,
}

// One call for all fields, so that the proof of what owns a value stays short.
impl Drop for Found {
    fn drop(self) {
        let Found {
            merged: _,
            bits: _,
            masks: _,
            response: _,
        } = self;
    }
}

impl Found {
    // The pattern.
    pub(crate) fn pattern(&self) -> Pattern<'_>
        ensures merged { result.merged.now ≡ self.entry.now.merged }
        ensures bits { result.bits.now ≡ self.entry.now.bits }
        ensures masks { result.masks.now ≡ self.entry.now.masks }
        ensures response { result.response.now ≡ self.entry.now.response }
    {
        Pattern {
            merged: &self.merged,
            bits: self.bits.as_slice(),
            masks: self.masks.as_slice(),
            response: &self.response,
        }
    }
}

// The same merged cubes once more.
fn copied(alloc: Global, merged: &Merged) -> Result<Merged, AllocError>
    ensures { IfOk result (λ copy. copy ≡ merged.now) }
{
    let cells = Vec::from_slice(alloc, merged.cells.as_slice())?;
    let ports = Vec::from_slice(alloc, merged.ports.as_slice())?;
    Ok(Merged {
        domains: merged.domains,
        cells: Listed::from_vec(cells),
        ports: Listed::from_vec(ports),
    })
}

// The same response once more.
fn copied_response(alloc: Global, response: &Response) -> Result<Response, AllocError>
    ensures { IfOk result (λ copy. copy ≡ response.now) }
{
    let cells = Vec::from_slice(alloc, response.cells.as_slice())?;
    let outputs = Vec::from_slice(alloc, response.outputs.as_slice())?;
    Ok(Response {
        cells: Listed::from_vec(cells),
        outputs: Listed::from_vec(outputs),
    })
}

// The mask bit of each chain, where these are always masked.
fn mask_bits(
    alloc: Global,
    always: &[bool],
    chains: &Chains,
    response: &Response,
) -> Result<Vec<bool>, AllocError>
    requires always { length always.now ≡ length chains.now.chains }
    requires cells { length response.now.cells ≡ length (all_cells chains.now.chains) }
    ensures { IfOk result (λ bits. bits.items ≡ masks_of always.now (by_chain chains.now.chains response.now.cells)) }
{
    let policy = MaskPolicy::new(
        |chain: u32, unknown: bool| -> bool
            requires { chain < length always.now }
        { unknown || always[chain as usize] },
        always,
    );
    masks(alloc, &policy, chains, response)
}

// The pattern of this number, where this is its load, and it captures this.
pub(crate) fn find(
    finder: &Finder<'_>,
    number: usize,
    load: &Load,
    response: &Response,
) -> Result<Found, AllocError>
    requires finder { IsFinder finder.now }
    requires number { number < length finder.now.merger.now.patterns }
    requires load { IsLoad finder.now number load.now }
    requires captured { (merged : Merged) → slice_get finder.now.merger.now.patterns number ≡ Some merged →
        IsCapture finder.now.loads.now.design finder.now.loads.now.config finder.now.loads.now.plan.chains merged load.now.cells response.now }
    ensures merged { IfOk result (λ f. slice_get finder.now.merger.now.patterns number ≡ Some f.merged) }
    ensures found { IfOk result (λ f. IsPattern finder.now.loads.now.design finder.now.loads.now.config finder.now.loads.now.plan finder.now.merger.now.loads.rows number (data_found finder.now.loads.now.config finder.now.loads.now.plan f)) }
    ensures fits { IfOk result (FitsFound finder.now.loads.now.config finder.now.loads.now.plan) }
{
    let merged = copied(finder.alloc, &finder.merger.patterns()[number])?;
    let masks = mask_bits(finder.alloc, finder.always, finder.loads.chains(), response)?;
    let bits = Vec::from_slice(finder.alloc, load.bits.as_slice())?;
    let response = copied_response(finder.alloc, response)?;
    Ok(Found {
        merged,
        bits: Listed::from_vec(bits),
        masks: Listed::from_vec(masks),
        response,
    })
}
