ghost use Rattle.std.specs.Prelude.{◌≡◌, ◌≤◌};
ghost use Rattle.dft_config.specs.Cycles as spec;
ghost use Rattle.dft_config.specs.Loads as loads;

use crate::config::Config;

/// The cycles of a load, where the longest chain has this many cells.
pub fn load_cycles(config: &Config, longest: u32) -> u32
    requires longest { longest ≤ 65536 }
    ensures { result ≡ spec.load_cycles config.now longest }
{
    config.soundness();
    let chains = u32::from(config.chains());
    let masks = u32::from(config.compactor().mask_inputs);
    (u32::from(config.warm()) + longest).max(longest_part(chains, masks))
}

/// The cycles by which the bits of a chain come later: one where the chain is late, which is where its first cell is falling.
pub fn delay(late: bool) -> usize
    ensures { result ≡ loads.delay late }
{
    if late { 1 } else { 0 }
}

fn longest_part(items: u32, parts: u32) -> u32
    requires some { 1 ≤ parts }
    requires few { items ≤ 1024 }
    ensures { result ≡ spec.part_length items parts 0 }
{
    if items % parts > 0 {
        items / parts + 1
    } else {
        items / parts
    }
}
