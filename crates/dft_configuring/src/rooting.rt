//! The clocks and resets of a netlist by name, and the flip-flops that are scanned with them.

ghost use Rattle.std.specs.Prelude.{◌≡◌, ◌<◌, ◌≤◌, IfOk, length, replicate, [], ◌∷◌};
ghost use Rattle.std.specs.List.{All};
ghost use Rattle.dft_configure.specs.Found.{AreChosen, numbers};
ghost use Rattle.dft_configuring.specs.Rooted as spec;

use crate::naming::{Counts, names_for};
use dft_base::{Listed, Name};
use dft_config::{CompactorConfig, RingConfig};
use dft_config_out::Made;
use dft_configure::{Roots, groups_of};
use dft_netlist::{Design, NetId};
use std::alloc::{AllocError, Global};

// The printed name of a net.
fn name_of(alloc: Global, design: &Design, net: NetId) -> Result<Name, AllocError>
    requires { net.0 < length design.now.nets }
    ensures { IfOk result (λ name. name ≡ spec.name_of design.now net.0) }
{
    design.net_name(net).copy(alloc)
}

// The printed names of nets.
fn names_of_nets(alloc: Global, design: &Design, nets: &[NetId]) -> Result<Listed<Name>, AllocError>
    requires { All (λ net. net.0 < length design.now.nets) nets.now }
    ensures { IfOk result (λ names. names ≡ spec.names_of_nets design.now (numbers nets.now)) }
{
    let mut names = Vec::with_capacity(alloc, nets.len())?;
    for net in nets {
        names.push(name_of(alloc, design, *net)?)?;
    }
    Ok(Listed::from_vec(names))
}

// The names of the clocks.
pub(crate) fn clock_names(
    alloc: Global,
    design: &Design,
    roots: &Roots,
) -> Result<Listed<Name>, AllocError>
    requires { AreChosen design.now roots.now }
    ensures { IfOk result (λ names. names ≡ spec.clock_names design.now) }
{
    names_of_nets(alloc, design, &roots.domains)
}

// The names of the resets.
pub(crate) fn reset_names(
    alloc: Global,
    design: &Design,
    roots: &Roots,
) -> Result<Listed<Name>, AllocError>
    requires { AreChosen design.now roots.now }
    ensures { IfOk result (λ names. names ≡ spec.reset_names design.now) }
{
    names_of_nets(alloc, design, &roots.resets)
}

// The set of the first stage.
fn first_stage(alloc: Global) -> Result<Listed<u8>, AllocError>
    ensures { IfOk result (λ set. set ≡ 0 ∷ []) }
{
    let mut set = Vec::new(alloc);
    set.push(0)?;
    Ok(Listed::from_vec(set))
}

// One set of the first stage for each chain.
fn plain_phase(alloc: Global, chains: u16) -> Result<Listed<Listed<u8>>, AllocError>
    ensures { IfOk result (λ phase. phase ≡ replicate chains (0 ∷ [])) }
{
    let mut phase = Vec::with_capacity(alloc, usize::from(chains))?;
    for _chain in 0..chains {
        phase.push(first_stage(alloc)?)?;
    }
    Ok(Listed::from_vec(phase))
}

// A ring that feeds all chains from one stage.
fn plain_ring(alloc: Global, chains: u16) -> Result<RingConfig, AllocError>
    ensures { IfOk result (λ ring. ring ≡ record { stages = 8; channels = 1; taps = []; injectors = []; phase = replicate chains (0 ∷ []) }) }
{
    Ok(RingConfig {
        stages: 8,
        channels: 1,
        taps: Listed::from_vec(Vec::new(alloc)),
        injectors: Listed::from_vec(Vec::new(alloc)),
        phase: plain_phase(alloc, chains)?,
    })
}

// A configuration with the clocks and resets of a design and so many chains, as the scan rules ask for it.
pub(crate) fn rooted_made(
    alloc: Global,
    design: &Design,
    roots: &Roots,
    chains: u16,
) -> Result<Made, AllocError>
    requires { AreChosen design.now roots.now }
    ensures { IfOk result (λ made. made ≡ spec.rooted_made design.now chains) }
{
    let counts = Counts {
        channels: 1,
        masks: 1,
        outputs: 1,
        chains,
    };
    Ok(Made {
        domains: clock_names(alloc, design, roots)?,
        resets: reset_names(alloc, design, roots)?,
        chains,
        warm: 0,
        ring: plain_ring(alloc, chains)?,
        compactor: CompactorConfig {
            groups: groups_of(alloc, chains, 1)?,
            mask_inputs: 1,
        },
        names: names_for(alloc, design, counts)?,
    })
}
