//! One step of a walk back from a net.

ghost use Rattle.std.specs.Prelude.{ℕ, ◌≡◌, ◌<◌, length};
ghost use Rattle.dft_netlist.specs.Drivers.{Source, source_of};
ghost use Rattle.dft_netlist.specs.NetDrivers.{driver_at};
ghost use Rattle.dft_netlist.specs.Sound.{IsLive};
ghost use Rattle.dft_netlist.specs.declared.net_driver.NetDriver.TheVariants.{Pin as PinOf};
ghost use Rattle.dft_behavior.specs.NetRoots.{NetRoot as ARoot, inverse_root, turned_root, root_of_driver};
ghost use Rattle.dft_behavior.specs.Roots.{shown_net_root};
ghost use Rattle.dft_behavior.specs.WalkSteps.{after_step, IsLiveStep, IsWalk, TakesStep};

use crate::root::NetRoot;
use dft_cells::{Gate, Kind};
use dft_netlist::{Design, InstanceId, NetDriver, NetId, Signal, kind_of};

// One step of a walk back: to a net whose root it is, or that root behind an inverter; or to its end.
#[derive(Clone, Copy, Debug, PartialEq, Eq)]
pub(crate) enum Step {
    Back(NetId, bool),
    End(NetRoot),
}

// One step back from this net.
pub(crate) fn step_back(design: &Design, net: NetId) -> Step
    requires { net.0 < length design.now.nets }
    ensures step { TakesStep design.now net.0 result }
    ensures live { IsLiveStep (length design.now.nets) result }
{
    match design.driver(net) {
        NetDriver::Input => Step::End(NetRoot::Port(net, false, true)),
        NetDriver::Nothing => Step::End(NetRoot::Other),
        NetDriver::Join(number) => step_to(design.joins()[number].source, false),
        NetDriver::Pin { instance, pin } => step_through(design, instance, pin),
    }
}

// One step back through a buffer or an inverter, or from a tie.
fn step_through(design: &Design, id: InstanceId, pin: usize) -> Step
    requires { id.0 < length design.now.instances }
    ensures step { (walk : Source → ARoot) (net : ℕ) → IsWalk walk → after_step walk result ≡ root_of_driver walk net (driver_at design.now (PinOf id pin)) }
    ensures live { IsLiveStep (length design.now.nets) result }
{
    let instance = &design.instances()[id.0 as usize];
    match kind_of(design.library().cells(), instance.cell) {
        Kind::Gate(gate) => match gate {
            Gate::Buf => step_to(instance.pins.as_slice()[0], false),
            Gate::Inv => step_to(instance.pins.as_slice()[0], true),
            Gate::Tie0 => Step::End(NetRoot::Constant(false)),
            Gate::Tie1 => Step::End(NetRoot::Constant(true)),
            _ => Step::End(NetRoot::Other),
        },
        Kind::Flop(_) | Kind::Lockup | Kind::Opaque => Step::End(NetRoot::Other),
    }
}

// To what a pin is joined, or behind an inverter.
fn step_to(signal: Signal, turns: bool) -> Step
    ensures step { (walk : Source → ARoot) → IsWalk walk → after_step walk result ≡ turned_root turns (walk (source_of 0 0 signal)) }
    ensures live { (count : ℕ) → IsLive count signal → IsLiveStep count result }
{
    match signal {
        Signal::Net(net) => Step::Back(net, turns),
        Signal::Constant(bit) => Step::End(turned(turns, NetRoot::Constant(bit))),
        Signal::Unconnected => Step::End(NetRoot::Other),
    }
}

// The root, or the one behind an inverter.
pub(crate) fn turned(turns: bool, root: NetRoot) -> NetRoot
    ensures { shown_net_root result ≡ turned_root turns (shown_net_root root) }
{
    if turns { inverse(root) } else { root }
}

// The root behind an inverter: it is straight no more, and no constant.
fn inverse(root: NetRoot) -> NetRoot
    ensures { shown_net_root result ≡ inverse_root (shown_net_root root) }
{
    match root {
        NetRoot::Port(net, inverted, _) => NetRoot::Port(net, !inverted, false),
        NetRoot::Constant(_) | NetRoot::Other => NetRoot::Other,
    }
}
