//! The signals of a netlist.

ghost use Rattle.std.specs.Prelude.{◌≡◌, ◌<◌, ◌++◌, length, map, IfOk, OnOk};
ghost use Rattle.std.specs.List.{All};
ghost use Rattle.dft_vectors.specs.Signals as spec;

use crate::bits;
use dft_base::Dir;
use dft_netlist::{Design, NetId};
use dft_patterns::StilSignal;
use std::alloc::{AllocError, Global};

/// The bits of the input ports, and behind them those of the output ports.
pub fn signals_of(alloc: Global, design: &Design) -> Result<Vec<StilSignal>, AllocError>
    ensures { IfOk result (λ signals. signals.items ≡ spec.signals_of design.now) }
{
    let ports = design.ports();
    let inputs = bits::inputs(alloc, ports)?;
    let outputs = bits::outputs(alloc, ports)?;
    let mut signals = Vec::with_capacity(alloc, inputs.len().saturating_add(outputs.len()))?;
    push_signals(alloc, &mut signals, design, Dir::Input, &inputs)?;
    push_signals(alloc, &mut signals, design, Dir::Output, &outputs)?;
    Ok(signals)
}

// The signal of a port's bit.
#[tactic(auto, using(std::proofs::lemmas::Option::get_or_from_slice_get))]
fn signal(alloc: Global, design: &Design, dir: Dir, net: NetId) -> Result<StilSignal, AllocError>
    requires { net.0 < length design.now.nets }
    ensures { IfOk result (λ signal. signal ≡ spec.signal_of design.now dir net) }
{
    let name = design.net_name(net).copy(alloc)?;
    Ok(StilSignal { name, dir })
}

// Adds the signals of these nets.
fn push_signals(
    alloc: Global,
    signals: &mut Vec<StilSignal>,
    design: &Design,
    dir: Dir,
    nets: &[NetId],
) -> Result<(), AllocError>
    requires { All (λ net. net.0 < length design.now.nets) nets.now }
    ensures { OnOk result (signals.new.items ≡ signals.old.items ++ map (spec.signal_of design.now dir) nets.now) }
{
    for net in nets {
        signals.push(signal(alloc, design, dir, *net)?)?;
    }
    Ok(())
}
