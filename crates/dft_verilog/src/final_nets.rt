//! The final numbers of a draft's nets: the ports' bits in header order, then the other nets.

ghost use Rattle.std.specs.Prelude.{◌≡◌, ◌+◌, ◌*◌, ◌<◌, ◌≤◌, ◌^◌, length, IfOk, Some, slice_get, map};
ghost use Rattle.std.specs.List.{All};
ghost use Rattle.dft_base.specs.Ranges.{going_up};
ghost use Rattle.dft_netlist_text.specs.Modules as spec;
ghost use Rattle.dft_netlist_text.specs.NetlistText.{nets_of_port, nets_of_ports};
ghost use Rattle.dft_netlist.specs.Sound.{IsLive, AreLive};
ghost use Rattle.dft_verilog_draft.specs.Drafts.{IsDeclaredWithin};
ghost use Rattle.dft_verilog.specs.FinalNets.{with_number, with_numbers, numbers_among, net_by, signal_by};

use dft_base::Range;
use dft_netlist::{MAX_PORTS, NetId, PinSignals, Signal};
use dft_netlist_text::Declared;
use dft_verilog_draft::{HeaderPort, width};
use std::alloc::{AllocError, Global};

// Gives a net this number, unless it has one.
fn give_number(numbers: &mut [Option<NetId>], net: usize, number: u32)
    requires { net < length numbers.old }
    ensures { numbers.new ≡ with_number net number numbers.old }
{
    if numbers[net].is_none() {
        numbers[net] = Some(NetId(number));
    }
}

// Gives nets with numbers one after the other the final numbers from `next` on, unless they have some.
fn number_bits(numbers: &mut [Option<NetId>], first: usize, count: usize, next: usize)
    requires within { first + count ≤ length numbers.old }
    requires few { next + count ≤ 2 ^ 32 }
    ensures { numbers.new ≡ with_numbers (going_up first count) next numbers.old }
{
    for bit in 0..count {
        give_number(numbers, first + bit, (next + bit) as u32);
    }
}

/// How many nets a name with this range has.
pub fn net_count(range: Option<Range>) -> usize
    ensures count { result ≡ spec.net_count range }
    ensures few { result ≤ 65536 }
{
    match range {
        Some(range) => width(range),
        None => 1,
    }
}

// Gives the nets of a port the final numbers from `next` on, and says which number comes then.
fn number_port(numbers: &mut [Option<NetId>], declared: Option<Declared>, next: usize) -> usize
    requires within { IsDeclaredWithin (length numbers.old) declared }
    requires few { next + 65536 ≤ 2 ^ 32 }
    ensures numbers { numbers.new ≡ with_numbers (nets_of_port declared) next numbers.old }
    ensures next { result ≡ next + length (nets_of_port declared) }
    ensures few { result ≤ next + 65536 }
{
    match declared {
        Some(declared) => {
            let count = net_count(declared.shape.range);
            number_bits(numbers, declared.shape.first.0 as usize, count, next);
            next + count
        }
        None => next,
    }
}

/// The final numbers of the nets that are bits of ports.
pub fn port_numbers(
    alloc: Global,
    ports: &[HeaderPort],
    count: usize,
) -> Result<Vec<Option<NetId>>, AllocError>
    requires few { length ports.now ≤ MAX_PORTS }
    requires within { All (λ p. IsDeclaredWithin count p.declared) ports.now }
    ensures { IfOk result (λ numbers. numbers.items ≡ numbers_among (nets_of_ports ports.now) count) }
{
    let mut numbers = vec![in alloc; None; count]?;
    let mut next = 0;
    for port in ports {
        next = number_port(&mut numbers, port.declared(), next);
    }
    Ok(numbers)
}

/// The final number of a net.
pub fn final_net(finals: &[NetId], net: NetId) -> NetId
    requires { net.0 < length finals.now }
    ensures { result ≡ net_by finals.now net }
{
    finals[net.0 as usize]
}

/// A signal with the final number of its net.
pub fn final_signal(finals: &[NetId], signal: Signal) -> Signal
    requires { IsLive (length finals.now) signal }
    ensures { result ≡ signal_by finals.now signal }
{
    match signal {
        Signal::Net(net) => Signal::Net(final_net(finals, net)),
        Signal::Constant(bit) => Signal::Constant(bit),
        Signal::Unconnected => Signal::Unconnected,
    }
}

/// Signals with the final numbers of their nets.
pub fn final_pins(
    alloc: Global,
    finals: &[NetId],
    pins: &[Signal],
) -> Result<PinSignals, AllocError>
    requires { AreLive (length finals.now) pins.now }
    ensures { IfOk result (λ signals. signals ≡ map (signal_by finals.now) pins.now) }
{
    let mut signals = PinSignals::new(alloc);
    for pin in pins {
        signals.push(final_signal(finals, *pin))?;
    }
    Ok(signals)
}
