//! What patterns are found by.

ghost use Rattle.std.specs.Prelude.{◌≡◌, IfOk};
ghost use Rattle.dft_config.specs.Range.{has, same_number};
ghost use Rattle.dft_expect.specs.Masks.{always_of};

use dft_config::Config;
use std::alloc::{AllocError, Global};

fn is_listed(chains: &[u16], chain: u16) -> bool
    ensures { result ≡ has same_number chains.now chain }
{
    for other in chains {
        if *other == chain {
            return true;
        }
    }
    false
}

// For each chain whether the configuration always masks it.
pub(crate) fn always_masked(alloc: Global, config: &Config) -> Result<Vec<bool>, AllocError>
    ensures { IfOk result (λ always. always.items ≡ always_of config.now) }
{
    let mut always = Vec::with_capacity(alloc, usize::from(config.chains()))?;
    for chain in 0..config.chains() {
        always.push(is_listed(config.always_masked(), chain))?;
    }
    Ok(always)
}
