//! The replay of patterns on a design.

ghost use Rattle.std.specs.Prelude.{◌≡◌, ◌<◌, ◌^◌, ℕ, List, All, None, length, map, IfOk, IfErr};
ghost use Rattle.dft_behavior.specs.Logic.{logic_of};
ghost use Rattle.dft_netlist.specs.Orders.{numbers_of};
ghost use Rattle.dft_abstract.specs.Cycle.{all_unknown};
ghost use Rattle.dft_cycle.specs.Machine.{AreNets, is_one_of};
ghost use Rattle.dft_patterns.specs.Patterns.{IsWellFormed};
ghost use Rattle.dft_replay.specs.Fits.{first_misfit, TellsMisfit};
ghost use Rattle.dft_replay.specs.Laws.{HoldsInRuns};
ghost use Rattle.dft_replay.specs.Looks.{HasRanks};
ghost use Rattle.dft_replay.specs.Rows.{rows_from, ports_in, ports_of};
ghost use Rattle.dft_replay.specs.Vectors as spec;
ghost use Rattle.dft_replay.specs.Vectors.{AreSignals, net_at};
ghost use Rattle.dft_replay.specs.Verdicts.{EndsAt, EndsFrom, HasVerdict, IsPlaced};

use crate::acts::{clocks_of, nets_at};
use crate::error::ReplayError;
use crate::nets::nets_of;
use crate::playing::{Room, play};
use crate::verdict::{Unknowns, Verdict};
use dft_cycle::AbstractMachine;
use dft_netlist::{Design, NetId};
use dft_patterns::{Acts, PatternSet};
use std::alloc::{AllocError, Global};

// What the replay of vectors at signals with these nets comes to.
fn verdict_at(
    alloc: Global,
    design: &Design,
    nets: &[NetId],
    vectors: &[Acts],
    unknowns: Unknowns,
) -> Result<Verdict, AllocError>
    requires ordered { HasRanks design.now }
    requires nets { AreSignals (length design.now.nets) nets.now }
    requires signals { length nets.now < 2 ^ 31 }
    requires vectors { length vectors.now < 2 ^ 32 }
    requires acts { All (λ acts. length acts ≡ length nets.now) vectors.now }
    ensures verdict { IfOk result (EndsFrom unknowns (logic_of design.now (ports_in (numbers_of nets.now) vectors.now)) all_unknown 0 0 (rows_from (numbers_of nets.now) all_unknown vectors.now)) }
    ensures placed { IfOk result (IsPlaced (length vectors.now) (length nets.now)) }
{
    let clocks = clocks_of(alloc, nets.len(), vectors)?;
    let clock_nets = nets_at(alloc, nets, &clocks)?;
    let mut room = Room::new(alloc, clocks.len(), nets.len())?;
    let mut machine = AbstractMachine::prepare(alloc, design, &clock_nets)?;
    let mut compared: u64 = 0;
    for (vector, acts) in vectors.iter().enumerate() {
        let acts = acts.as_slice();
        let number = vector as u32;
        let decision = play(
            &mut machine,
            nets,
            &clocks,
            &mut room,
            unknowns,
            number,
            acts,
        );
        if let Some(verdict) = decision {
            return Ok(verdict);
        }
        compared += room.asked.len() as u64;
    }
    Ok(Verdict::Pass { compared })
}

/// The verdict of the patterns on the design: what the first compared bit that is unknown or not as printed comes to.
/// P7 tells the first signal that is no bit of a port with its direction.
pub fn replay(alloc: Global, design: &Design, patterns: &PatternSet) -> Result<Verdict, ReplayError>
    requires { IsWellFormed patterns.now }
    ensures fit { IfOk result (λ verdict. first_misfit design.now patterns.now.signals ≡ None) }
    ensures verdict { IfOk result (HasVerdict design.now patterns.now) }
    ensures runs { IfOk result (HoldsInRuns design.now patterns.now) }
    ensures placed { IfOk result (IsPlaced (length patterns.now.vectors) (length patterns.now.signals)) }
    ensures misfit { IfErr result (TellsMisfit design.now patterns.now.signals) }
{
    design.soundness();
    replay_past(alloc, design, patterns, Unknowns::Stop)
}

/// The same, where unknown bits stop the replay or are passed over. Where they are, the replay comes to Pass, or to the first compared bit
/// that is known to be the opposite of what is printed.
pub fn replay_past(
    alloc: Global,
    design: &Design,
    patterns: &PatternSet,
    unknowns: Unknowns,
) -> Result<Verdict, ReplayError>
    requires { IsWellFormed patterns.now }
    ensures fit { IfOk result (λ verdict. first_misfit design.now patterns.now.signals ≡ None) }
    ensures ends { IfOk result (EndsAt unknowns design.now patterns.now) }
    ensures placed { IfOk result (IsPlaced (length patterns.now.vectors) (length patterns.now.signals)) }
    ensures misfit { IfErr result (TellsMisfit design.now patterns.now.signals) }
{
    design.soundness();
    let nets = nets_of(alloc, design, patterns.signals())?;
    let verdict = verdict_at(alloc, design, &nets, patterns.vectors(), unknowns)?;
    Ok(verdict)
}

// Of signals with these nets, the nets of those that pulse in some vector.
fn clock_nets(alloc: Global, nets: &[NetId], vectors: &[Acts]) -> Result<Vec<NetId>, AllocError>
    ensures { IfOk result (λ clocks. clocks.items ≡ map (net_at nets.now) (spec.clocks_of (length nets.now) vectors.now)) }
{
    let signals = clocks_of(alloc, nets.len(), vectors)?;
    nets_at(alloc, nets, &signals)
}

/// The nets of the signals that pulse in some vector, in the order of the signals: the clock ports of the patterns.
pub fn clocks(
    alloc: Global,
    design: &Design,
    patterns: &PatternSet,
) -> Result<Vec<NetId>, ReplayError>
    requires { IsWellFormed patterns.now }
    ensures fit { IfOk result (λ clocks. first_misfit design.now patterns.now.signals ≡ None) }
    ensures clocks { IfOk result (λ clocks. (net : ℕ) → is_one_of clocks.items net ≡ (ports_of design.now patterns.now).is_clock net) }
    ensures live { IfOk result (λ clocks. AreNets (length design.now.nets) clocks.items) }
    ensures misfit { IfErr result (TellsMisfit design.now patterns.now.signals) }
{
    let nets = nets_of(alloc, design, patterns.signals())?;
    let clocks = clock_nets(alloc, &nets, patterns.vectors())?;
    Ok(clocks)
}
