//! Scan cells and lock-ups that are there already, and the names of ports.

ghost use Rattle.std.specs.Prelude.{◌≡◌, ◌≤◌, None, OnOk, IfErr, length, count_by};
ghost use Rattle.dft_rules.specs.Refusals as spec;
ghost use Rattle.dft_rules.specs.Refusals.{IsRefusal};

use crate::error::RuleError;
use crate::judged::Judged;
use crate::verdicts::Verdicts;
use dft_base::Name;
use dft_cells::{Cell, Kind};
use dft_netlist::{Instance, Port, kind_of};
use std::alloc::Global;

// Tests that no instance is a scan cell or a lock-up.
pub(crate) fn check_absent(
    alloc: Global,
    cells: &[Cell],
    instances: &[Instance],
) -> Result<(), RuleError>
    ensures ok { OnOk result (spec.first_present cells.now instances.now ≡ None) }
    ensures refused { IfErr result (IsRefusal (spec.first_present cells.now instances.now)) }
{
    for instance in instances {
        check_kind(alloc, cells, instance)?;
    }
    Ok(())
}

fn check_kind(alloc: Global, cells: &[Cell], instance: &Instance) -> Result<(), RuleError>
    ensures ok { OnOk result (spec.present cells.now instance.now ≡ None) }
    ensures refused { IfErr result (IsRefusal (spec.present cells.now instance.now)) }
{
    let name = match &instance.name {
        Some(name) => name,
        None => return Ok(()),
    };
    match kind_of(cells, instance.cell) {
        Kind::Flop(flop) if flop.scan => Err(RuleError::ScanCellPresent {
            instance: name.copy(alloc)?,
        }),
        Kind::Lockup => Err(RuleError::LockupPresent {
            instance: name.copy(alloc)?,
        }),
        _ => Ok(()),
    }
}

// Tests that no port's name has a double quote.
pub(crate) fn check_ports(alloc: Global, ports: &[Port]) -> Result<(), RuleError>
    ensures ok { OnOk result (spec.quoted_port ports.now ≡ None) }
    ensures refused { IfErr result (IsRefusal (spec.quoted_port ports.now)) }
{
    for port in ports {
        if has_quote(port.name.as_slice()) {
            return Err(RuleError::PortName {
                name: port.name.copy(alloc)?,
            });
        }
    }
    Ok(())
}

fn has_quote(name: &[u8]) -> bool
    ensures { result ≡ spec.has_quote name.now }
{
    name.iter().any(|byte| *byte == b'"')
}

// Tests that there are as many scanned cells as chains.
pub(crate) fn check_count(verdicts: &[Option<Judged>], chains: u16) -> Result<(), RuleError>
    requires { length verdicts.now ≤ 262144 }
    ensures ok { OnOk result (spec.too_few verdicts.now chains ≡ None) }
    ensures refused { IfErr result (IsRefusal (spec.too_few verdicts.now chains)) }
{
    let found = scanned_count(verdicts);
    if found < u32::from(chains) {
        return Err(RuleError::TooFewCells {
            found: i64::from(found),
            wanted: i64::from(chains),
        });
    }
    Ok(())
}

fn scanned_count(verdicts: &[Option<Judged>]) -> u32
    requires { length verdicts.now ≤ 262144 }
    ensures { result ≡ count_by spec.is_scanned verdicts.now }
{
    let mut found = 0;
    for verdict in verdicts {
        if is_scanned(*verdict) {
            found += 1;
        }
    }
    found
}

fn is_scanned(verdict: Option<Judged>) -> bool
    ensures { result ≡ spec.is_scanned verdict }
{
    matches!(verdict, Some(Judged::Scanned { .. }))
}
