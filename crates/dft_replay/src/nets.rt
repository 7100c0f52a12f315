//! The net of each signal.

ghost use Rattle.std.specs.Prelude.{◌≡◌, ◌<◌, ◌++◌, ℕ, false, true, Some, None, length, map, slice_get, OnOk, IfOk, IfErr, IfSome};
ghost use Rattle.dft_netlist.specs.Names.{find_net};
ghost use Rattle.dft_netlist.specs.Orders.{numbers_of};
ghost use Rattle.dft_netlist.specs.Sound.{IsNetlist};
ghost use Rattle.dft_cycle.specs.Machine.{AreNets};
ghost use Rattle.dft_replay.specs.Fits.{first_misfit, is_port_bit, same_dir as goes_as, TellsMisfit};
ghost use Rattle.dft_replay.specs.Rows as rows;
ghost use Rattle.dft_replay.specs.Vectors.{dirs_of};

use crate::error::ReplayError;
use dft_base::{Dir, Name};
use dft_netlist::{Design, NetId, Port};
use dft_patterns::StilSignal;
use std::alloc::{AllocError, Global};

fn same_dir(a: Dir, b: Dir) -> bool
    ensures { result ≡ goes_as a b }
{
    match (a, b) {
        (Dir::Input, Dir::Input) | (Dir::Output, Dir::Output) => true,
        (Dir::Input, Dir::Output) | (Dir::Output, Dir::Input) => false,
    }
}

// Adds a direction for each of these bits.
fn add_bits(dirs: &mut Vec<Dir>, dir: Dir, bits: &[NetId]) -> Result<(), AllocError>
    ensures { OnOk result (dirs.new.items ≡ dirs.old.items ++ map (λ net. dir) bits.now) }
{
    for _bit in bits {
        dirs.push(dir)?;
    }
    Ok(())
}

// The direction of each bit of the ports, by its net: their nets come first.
fn directions(alloc: Global, ports: &[Port]) -> Result<Vec<Dir>, AllocError>
    ensures { IfOk result (λ dirs. dirs.items ≡ dirs_of ports.now) }
{
    let mut dirs = Vec::new(alloc);
    for port in ports {
        add_bits(&mut dirs, port.dir, port.bits.as_slice())?;
    }
    Ok(dirs)
}

// The net of a signal, if it is a bit of a port with its direction.
fn net_of(design: &Design, dirs: &[Dir], signal: &StilSignal) -> Option<NetId>
    requires sound { IsNetlist design.now }
    requires dirs { dirs.now ≡ dirs_of design.now.ports }
    ensures found { IfSome result (λ net. find_net design.now signal.now.name ≡ Some net) }
    ensures live { IfSome result (λ net. net.0 < length design.now.nets) }
    ensures fits { IfSome result (λ net. is_port_bit design.now signal.now ≡ true) }
    ensures misfit { result ≡ None → is_port_bit design.now signal.now ≡ false }
{
    match design.find(signal.name.as_slice()) {
        Some(net) => match dirs.get(net.0 as usize) {
            Some(dir) => if same_dir(*dir, signal.dir) {
                Some(net)
            } else {
                None
            },
            None => None,
        },
        None => None,
    }
}

/// The net of each signal. P7 tells the first signal that is no bit of a port with its direction.
pub fn nets_of(
    alloc: Global,
    design: &Design,
    signals: &[StilSignal],
) -> Result<Vec<NetId>, ReplayError>
    ensures nets { IfOk result (λ nets. numbers_of nets.items ≡ rows.nets_of design.now signals.now) }
    ensures live { IfOk result (λ nets. AreNets (length design.now.nets) nets.items) }
    ensures fit { IfOk result (λ nets. first_misfit design.now signals.now ≡ None) }
    ensures misfit { IfErr result (TellsMisfit design.now signals.now) }
{
    let dirs = directions(alloc, design.ports())?;
    let mut nets = Vec::new(alloc);
    for signal in signals {
        match net_of(design, &dirs, signal) {
            Some(net) => nets.push(net)?,
            None => {
                let name = signal.name.copy(alloc)?;
                return Err(ReplayError::P7 { name });
            }
        }
    }
    Ok(nets)
}
