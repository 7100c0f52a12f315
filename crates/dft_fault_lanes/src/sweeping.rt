//! Nets settled in each lane.

ghost use Rattle.std.specs.Prelude.{◌≡◌, ◌<◌, [], ℕ, length, if◌then◌else◌};
ghost use Rattle.dft_base.specs.Tri.{known};
ghost use Rattle.dft_netlist.specs.Orders.{Has, numbers_of};
ghost use Rattle.dft_behavior.specs.Settled as settled;
ghost use Rattle.dft_behavior.specs.Settled.{inverse, value_given};
ghost use Rattle.dft_logic.specs.Circuit as circuits;
ghost use Rattle.dft_logic.specs.Circuit.{AreOrdered, Fits, meaning, op_at};
ghost use Rattle.dft_takings.specs.Needs.{still_from};
ghost use Rattle.dft_logic.specs.Values as spec;
ghost use Rattle.dft_evaluator.specs.Wides.{AreWides, IsWide, values_in};
ghost use Rattle.dft_fault_lanes.specs.Lanes.{AreClamps, lane_given, situation_of};

use crate::clamps::{Clamp, within};
use dft_base::Tri;
use dft_evaluator::{all, op_wide, operand, unknown};
use dft_lanes::{Wide, wide_not};
use dft_logic::{Circuit, Op, flag_at, value_at};
use dft_netlist::{InstanceId, NetId};
use dft_registers::Cells;

/// What nets are settled from: the values of input ports and the levels of clocks, by net and alike in all lanes, what cells hold
/// by instance, and by net the bounds of its value.
#[derive(Clone, Copy)]
pub struct Setting<'a> {
    pub ports: &'a [Tri],
    pub levels: &'a [bool],
    pub cells: &'a Cells<Wide>,
    pub clamps: &'a [Option<Clamp>],
}

// Whether a lock-up is a wire while its clock has this level.
fn is_wire(high: bool, level: bool) -> bool
    ensures { result ≡ settled.is_wire high level }
{
    if high { level } else { !level }
}

// The value of a clock.
fn level_value(level: bool) -> Tri
    ensures { result ≡ known level }
{
    if level { Tri::One } else { Tri::Zero }
}

// What a flip-flop's output can be, or its inverse.
fn flop_wide(cells: &Cells<Wide>, instance: InstanceId, inverted: bool) -> Wide
    requires { AreWides cells.now.values }
    ensures { IsWide result (λ lane. if inverted then inverse (values_in cells.now.values lane instance.0) else values_in cells.now.values lane instance.0) }
{
    let wide = cells.at(instance.0 as usize);
    if inverted { wide_not(&wide) } else { wide }
}

// What a net is given by its driver.
fn given_wide(op: &Op, net: NetId, setting: Setting<'_>, wides: &[Wide]) -> Wide
    requires fits { Fits op.now }
    requires wides { AreWides wides.now }
    requires cells { AreWides setting.cells.now.values }
    ensures { IsWide result (λ lane. value_given (still_from (circuits.flag_at setting.entry.levels.now) (spec.value_at setting.entry.ports.now) (values_in setting.entry.cells.now.values lane) (values_in wides.now lane)) (values_in wides.now lane) net.0 (meaning op.now)) }
{
    match op {
        Op::Input => all(value_at(setting.ports, net.0)),
        Op::Clock => all(level_value(flag_at(setting.levels, net.0))),
        Op::Flop(instance, inverted) => flop_wide(setting.cells, *instance, *inverted),
        Op::Lockup(instance, domain, high, source) => if is_wire(
            *high,
            flag_at(setting.levels, domain.0),
        ) {
            operand(source, wides)
        } else {
            setting.cells.at(instance.0 as usize)
        },
        Op::Gate(_, _) | Op::Joined(_) => op_wide(op, net, wides),
        Op::Free => unknown(),
    }
}

/// Settles these nets in each lane, whatever the values before.
pub fn settle(circuit: &Circuit, setting: Setting<'_>, nets: &[NetId], wides: &mut [Wide])
    requires nets { length wides.old ≡ length circuit.now.ops }
    requires clamped { length setting.clamps.now ≡ length circuit.now.ops }
    requires wides { AreWides wides.old }
    requires cells { AreWides setting.cells.now.values }
    requires clamps { AreClamps setting.clamps.now }
    requires ordered { AreOrdered circuit.now.ops [] (numbers_of nets.now) }
    ensures wides { AreWides wides.new }
    ensures settled { (lane k : ℕ) → lane < 512 → Has (numbers_of nets.now) k → values_in wides.new lane k ≡ lane_given (situation_of setting.entry) lane (values_in wides.new lane) k (meaning (op_at circuit.now.ops k)) }
{
    for net in nets {
        let given = given_wide(&circuit.ops[net.0 as usize], *net, setting, wides);
        let wide = within(&setting.clamps[net.0 as usize], &given);
        wides[net.0 as usize] = wide;
    }
}
