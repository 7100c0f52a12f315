//! The most used of some ports.

ghost use Rattle.std.specs.Prelude.{ℕ, ◌≡◌, ◌+◌, ◌<◌, ◌≤◌, ◌^◌, IfOk, length, if◌then◌else◌};
ghost use Rattle.dft_configure.specs.Roots as spec;
ghost use Rattle.dft_configure.specs.Roots.{is_port, uses};
ghost use Rattle.dft_configure.specs.Found.{count_at, number, numbers, numbers_of};

use dft_netlist::NetId;
use std::alloc::{AllocError, Global};

// 1 where it holds, else 0.
fn one_if(holds: bool) -> usize
    ensures one { result ≡ (if holds then 1 else 0) }
    ensures few { result ≤ 1 }
{
    if holds { 1 } else { 0 }
}

// Counts a port.
fn count(counts: &mut [usize], port: Option<NetId>)
    requires { (net : ℕ) → count_at counts.old net < 2 ^ 63 }
    ensures { (net : ℕ) → net < length counts.old → count_at counts.new net ≡ count_at counts.old net + (if is_port net (number port) then 1 else 0) }
{
    if let Some(net) = port {
        if (net.0 as usize) < counts.len() {
            counts[net.0 as usize] += 1;
        }
    }
}

// How often each of so many nets is used.
fn counts_of(alloc: Global, ports: &[Option<NetId>], nets: usize) -> Result<Vec<usize>, AllocError>
    requires { nets < 2 ^ 32 }
    ensures count { IfOk result (λ counts. length counts.items ≡ nets) }
    ensures each { IfOk result (λ counts. (net : ℕ) → net < nets → count_at counts.items net ≡ uses (numbers_of ports.now) net) }
{
    let mut counts = vec![in alloc; 0; nets]?;
    for port in ports {
        count(&mut counts, *port);
    }
    Ok(counts)
}

// Whether a net comes before another.
fn comes_before(counts: &[usize], net: usize, other: usize) -> bool
    requires net { net < length counts.now }
    requires other { other < length counts.now }
    ensures { result ≡ spec.comes_before (count_at counts.now) net other }
{
    counts[other] < counts[net] || counts[net] == counts[other] && net < other
}

// How many nets come before one.
fn rank(counts: &[usize], net: usize) -> usize
    requires { net < length counts.now }
    ensures { result ≡ spec.rank (count_at counts.now) (length counts.now) net }
{
    let mut rank = 0;
    for other in 0..counts.len() {
        rank += one_if(comes_before(counts, other, net));
    }
    rank
}

// Whether a net is used, and fewer than 16 come before it.
fn is_most_used(counts: &[usize], net: usize) -> bool
    requires { net < length counts.now }
    ensures { result ≡ spec.is_most_used (count_at counts.now) (length counts.now) net }
{
    counts[net] > 0 && rank(counts, net) < 16
}

// The most used ones of so many nets, at most 16, in the order of their numbers.
pub(crate) fn most_used(
    alloc: Global,
    ports: &[Option<NetId>],
    nets: usize,
) -> Result<Vec<NetId>, AllocError>
    requires { nets < 2 ^ 32 }
    ensures { IfOk result (λ chosen. numbers chosen.items ≡ spec.most_used (uses (numbers_of ports.now)) nets) }
{
    let counts = counts_of(alloc, ports, nets)?;
    let mut chosen = Vec::new(alloc);
    for net in 0..nets {
        if is_most_used(&counts, net) {
            chosen.push(NetId(net as u32))?;
        }
    }
    Ok(chosen)
}
