//! The plan of a design's scan chains.

ghost use Rattle.std.specs.Prelude.{◌≡◌, None, IfOk, IfErr, pos};
ghost use Rattle.dft_rules.specs.Rules.{judgements};
ghost use Rattle.dft_stitch.specs.Chains as spec;
ghost use Rattle.dft_stitch.specs.Limits.{IsRefusal, refusal, refusal_of};

use crate::chains::Chains;
use crate::cutting::{cut, longest_chain, scanned_cells};
use crate::error::{Counted, StitchError};
use crate::heads::find_heads;
use crate::limits::{MAX_CELLS, MAX_CYCLES, MAX_VARIABLES};
use crate::lockups::find_lockups;
use crate::table::find_places;
use dft_config::{Config, load_cycles};
use dft_netlist::Design;
use dft_rules::Verdicts;
use std::alloc::Global;

/// Plans the chains of a design that is judged so: its scanned cells, first the falling ones and then the rising ones, each
/// by domain in the configuration's order and then by instance order, are cut into as many blocks as there are chains. It is
/// refused where the cells, then the cycles of a load, then the variables of the channels pass their limits.
pub fn plan(
    alloc: Global,
    design: &Design,
    config: &Config,
    verdicts: &Verdicts,
) -> Result<Chains, StitchError>
    requires verdicts { verdicts.now ≡ judgements design.now config.now }
    ensures plan { IfOk result (λ chains. chains ≡ spec.plan_of design.now config.now) }
    ensures fits { IfOk result (λ chains. refusal design.now config.now ≡ None) }
    ensures refused { IfErr result (IsRefusal (refusal design.now config.now)) }
{
    config.soundness();
    let count = design.instances().len();
    let domains = config.domains().len() as u8;
    let cells = scanned_cells(alloc, verdicts, count as u32, domains)?;
    let cycles = cycles_within(config, cells.len())?;
    let chains = cut(alloc, &cells, config.chains())?;
    let heads = find_heads(alloc, verdicts, &chains)?;
    let lockups = find_lockups(alloc, verdicts, &chains)?;
    let places = find_places(alloc, count, &chains)?;
    Ok(Chains {
        chains,
        heads,
        lockups,
        places,
        cycles,
    })
}

// The cycles of a load for so many scanned cells, where no limit is passed.
fn cycles_within(config: &Config, cells: usize) -> Result<u16, StitchError>
    ensures cycles { IfOk result (λ cycles. cycles ≡ spec.cycles_of config.now cells) }
    ensures fits { IfOk result (λ cycles. refusal_of config.now cells ≡ None) }
    ensures refused { IfErr result (IsRefusal (refusal_of config.now cells)) }
{
    config.soundness();
    if cells > MAX_CELLS {
        return Err(too_many(Counted::Cells, MAX_CELLS as u32));
    }
    let cycles = load_cycles(config, longest_chain(cells, config.chains()));
    if cycles > MAX_CYCLES {
        return Err(too_many(Counted::Cycles, MAX_CYCLES));
    }
    if cycles * u32::from(config.ring().channels) > MAX_VARIABLES {
        return Err(too_many(Counted::Variables, MAX_VARIABLES));
    }
    Ok(cycles as u16)
}

fn too_many(what: Counted, limit: u32) -> StitchError
    ensures { result ≡ StitchError.TooMany what (pos limit) }
{
    StitchError::TooMany {
        what,
        limit: i64::from(limit),
    }
}
