//! What is counted of a scan.

ghost use Rattle.std.specs.Prelude.{◌≡◌, ◌<◌, ◌≤◌, ◌^◌, length};
ghost use Rattle.dft_rules.specs.Refusals as rules;
ghost use Rattle.dft_scan.specs.Reports as spec;
ghost use Rattle.dft_scan.specs.Scans.{counts_with};

use crate::texts::Counts;
use dft_netlist::InstanceId;
use dft_rules::{Judged, Verdicts};
use dft_stitch::Chains;

/// Counts what is judged so, of so many instances, and planned so.
pub fn counts_of(instances: u32, verdicts: &Verdicts, chains: &Chains) -> Counts
    requires instances { length verdicts.now ≡ instances }
    requires few { length chains.now.lockups < 2 ^ 32 }
    ensures { result ≡ counts_with verdicts.now chains.now }
{
    Counts {
        cells: scanned_count(instances, verdicts),
        unscanned: unscanned_count(instances, verdicts),
        chains: u32::from(chains.count()),
        lockups: chains.lockups().len() as u32,
    }
}

fn is_scanned(verdict: Option<Judged>) -> bool
    ensures { result ≡ rules.is_scanned verdict }
{
    matches!(verdict, Some(Judged::Scanned { .. }))
}

fn is_unscanned(verdict: Option<Judged>) -> bool
    ensures { result ≡ spec.is_unscanned verdict }
{
    matches!(verdict, Some(Judged::Unscanned { .. }))
}

// How many flip-flops are scanned.
fn scanned_count(instances: u32, verdicts: &Verdicts) -> u32
    requires { length verdicts.now ≡ instances }
    ensures { result ≡ spec.scanned_count verdicts.now }
{
    let mut found = 0;
    for number in 0..instances {
        if is_scanned(verdicts.of(InstanceId(number))) {
            found += 1;
        }
    }
    found
}

// How many flip-flops are judged and not scanned.
fn unscanned_count(instances: u32, verdicts: &Verdicts) -> u32
    requires { length verdicts.now ≡ instances }
    ensures { result ≡ spec.unscanned_count verdicts.now }
{
    let mut found = 0;
    for number in 0..instances {
        if is_unscanned(verdicts.of(InstanceId(number))) {
            found += 1;
        }
    }
    found
}
