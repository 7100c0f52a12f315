//! What a vector sets and pulses, by net.

ghost use Rattle.std.specs.Prelude.{◌≡◌, ℕ, false, length};
ghost use Rattle.dft_netlist.specs.Orders.{numbers_of};
ghost use Rattle.dft_logic.specs.Circuit.{flag_at};
ghost use Rattle.dft_logic.specs.Values as values;
ghost use Rattle.dft_replay.specs.Rows as rows;
ghost use Rattle.dft_replay.specs.Rows.{act_on};
ghost use Rattle.dft_replay.specs.Vectors.{AreSignals};

use dft_base::Tri;
use dft_netlist::NetId;
use dft_patterns::Act;

// What an act leaves an input at that had this value before.
fn set_by(act: Act, before: Tri) -> Tri
    ensures { result ≡ rows.set_by act before }
{
    match act {
        Act::Low | Act::Pulse => Tri::Zero,
        Act::High => Tri::One,
        Act::Unset | Act::ExpectLow | Act::ExpectHigh | Act::Ignore => before,
    }
}

// Whether an act pulses its signal.
pub(crate) fn is_pulse(act: Act) -> bool
    ensures { result ≡ rows.is_pulse act }
{
    match act {
        Act::Pulse => true,
        _ => false,
    }
}

// Lowers all flags.
pub(crate) fn lower(flags: &mut [bool])
    ensures { (e : ℕ) → flag_at flags.new e ≡ false }
{
    for place in 0..flags.len() {
        flags[place] = false;
    }
}

/// Sets the input ports that a vector sets, by net.
pub fn set_inputs(nets: &[NetId], acts: &[Act], ports: &mut [Tri])
    requires nets { AreSignals (length ports.old) nets.now }
    requires acts { length acts.now ≡ length nets.now }
    ensures { (net : ℕ) → values.value_at ports.new net ≡ rows.set_by (act_on (numbers_of nets.now) acts.now net) (values.value_at ports.old net) }
{
    for signal in (0..nets.len()).rev() {
        let net = nets[signal].0 as usize;
        ports[net] = set_by(acts[signal], ports[net]);
    }
}

/// Flags the clocks that a vector pulses, by net.
pub fn flag_pulses(nets: &[NetId], acts: &[Act], pulsed: &mut [bool])
    requires nets { AreSignals (length pulsed.old) nets.now }
    requires acts { length acts.now ≡ length nets.now }
    ensures { (net : ℕ) → flag_at pulsed.new net ≡ rows.is_pulse (act_on (numbers_of nets.now) acts.now net) }
{
    lower(pulsed);
    for signal in (0..nets.len()).rev() {
        pulsed[nets[signal].0 as usize] = is_pulse(acts[signal]);
    }
}
