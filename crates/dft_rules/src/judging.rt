//! The judgement of a design by the scan rules.

ghost use Rattle.std.specs.Prelude.{◌≡◌, ◌<◌, ◌≤◌, None, Some, IfOk, IfErr, length};
ghost use Rattle.dft_config.specs.Config.{Config};
ghost use Rattle.dft_rules.specs.Findings.{AreFindings, IsFor};
ghost use Rattle.dft_rules.specs.Refusals.{IsLeftToCount, IsRefusal, refusal};
ghost use Rattle.dft_rules.specs.Rules.{judged, judged_by, judgements};

use crate::cells::{has_scan_cell, may_be_scanned};
use crate::checks::{check_absent, check_count, check_ports};
use crate::clocks::check_clocks;
use crate::error::RuleError;
use crate::findings::{Findings, are_held, clock_at, input_nets, kept_cells};
use crate::judged::Judged;
use crate::verdicts::Verdicts;
use dft_base::Rule;
use dft_behavior::find_roots;
use dft_cells::Role;
use dft_config::Config;
use dft_netlist::{Design, kind_of, signal_of};
use std::alloc::{AllocError, Global};

/// Judges each flip-flop of kind dff, dffr or dffs by the first scan rule that fails. The design is refused by the first
/// of these checks that fails: a configured domain or reset is no input port's bit, or a kept name no flip-flop's; a
/// scan cell or a lock-up is there already, by the order of instances; a configured clock is used as data; a port's
/// name has a double quote; there are fewer scanned cells than chains.
pub fn judge(alloc: Global, design: &Design, config: &Config) -> Result<Verdicts, RuleError>
    ensures judged { IfOk result (λ verdicts. verdicts ≡ judgements design.now config.now) }
    ensures accepted { IfOk result (λ verdicts. refusal design.now config.now ≡ None) }
    ensures refused { IfErr result (IsRefusal (refusal design.now config.now)) }
{
    let found = look_up(alloc, design, config)?;
    let verdicts = judge_each(alloc, design, &found)?;
    check_count(&verdicts, config.chains())?;
    Ok(Verdicts { verdicts })
}

// Looks up what the rules ask, where no check before the count of the scanned cells fails.
fn look_up(alloc: Global, design: &Design, config: &Config) -> Result<Findings, RuleError>
    ensures found { IfOk result (AreFindings design.now config.now) }
    ensures fits { IfOk result (IsFor design.now) }
    ensures passed { IfOk result (λ found. IsLeftToCount design.now config.now) }
    ensures refused { IfErr result (IsRefusal (refusal design.now config.now)) }
{
    config.soundness();
    let domains = input_nets(alloc, design, config.domains())?;
    let resets = input_nets(alloc, design, config.resets())?;
    let kept = kept_cells(alloc, design, config.keep())?;
    check_absent(alloc, design.library().cells(), design.instances())?;
    let roots = find_roots(alloc, design)?;
    check_clocks(alloc, design, &domains, &roots)?;
    check_ports(alloc, design.ports())?;
    Ok(Findings {
        domains,
        resets,
        kept,
        roots,
    })
}

fn judge_each(
    alloc: Global,
    design: &Design,
    found: &Findings,
) -> Result<Vec<Option<Judged>>, AllocError>
    requires { IsFor design.now found.now }
    ensures { IfOk result (λ verdicts. (config : Config) → AreFindings design.now config found.now → verdicts.items ≡ judgements design.now config) }
{
    let count = design.instances().len();
    let mut verdicts = Vec::with_capacity(alloc, count)?;
    for number in 0..count {
        verdicts.push(judge_instance(design, found, number))?;
    }
    Ok(verdicts)
}

fn judge_instance(design: &Design, found: &Findings, number: usize) -> Option<Judged>
    requires number { number < length design.now.instances }
    requires found { IsFor design.now found.now }
    ensures { (config : Config) → AreFindings design.now config found.now → result ≡ judged design.now config number }
{
    let cells = design.library().cells();
    let instance = &design.instances()[number];
    if !may_be_scanned(kind_of(cells, instance.cell)) {
        return None;
    }
    let pin = signal_of(cells, instance, Role::Clock);
    let reset = signal_of(cells, instance, Role::Reset);
    let preset = signal_of(cells, instance, Role::Preset);
    let clock = clock_at(&found.domains, &found.roots, pin);
    let held = are_held(&found.resets, &found.roots, reset, preset);
    let scans = has_scan_cell(cells, instance.cell);
    judgement(clock, held, scans, found.kept[number])
}

// The judgement by the first rule that fails.
fn judgement(clock: Option<(u8, bool)>, held: bool, scans: bool, kept: bool) -> Option<Judged>
    ensures { result ≡ judged_by clock held scans kept }
{
    match clock {
        None => Some(Judged::Unscanned { rule: Rule::S1 }),
        Some((domain, falling)) => {
            if !held {
                Some(Judged::Unscanned { rule: Rule::S2 })
            } else if !scans {
                Some(Judged::Unscanned { rule: Rule::S3 })
            } else if kept {
                Some(Judged::Unscanned { rule: Rule::S4 })
            } else {
                Some(Judged::Scanned { domain, falling })
            }
        }
    }
}
