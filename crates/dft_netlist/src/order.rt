//! An order of the nets: a walk back from each net that is not placed yet, by the first nets that are not placed.

ghost use Rattle.std.specs.Prelude.{◌≡◌, ◌<◌, ◌+◌, ℕ, Some, slice_get, length, IfOk, IfErr, IfSome, MatchOption};
ghost use Rattle.dft_netlist.specs.Drivers.{nets_read, shape_of};
ghost use Rattle.dft_netlist.specs.Finding.{AreDrivers};
ghost use Rattle.dft_netlist.specs.Finishing.{CannotFinish};
ghost use Rattle.dft_netlist.specs.NetDrivers.{driver_at, Drives};
ghost use Rattle.dft_netlist.specs.OrderSteps.{IsBetween, MeetsAgain};
ghost use Rattle.dft_netlist.specs.Orders.{IsOrder, numbers_of};
ghost use Rattle.dft_netlist.specs.Progress.{first_open, number_of};
ghost use Rattle.dft_netlist.specs.Reading.{pins_read, read_at, net_of_signal};
ghost use Rattle.dft_netlist.specs.Sound.{IsInstance, IsLive};

use crate::builder::DesignBuilder;
use crate::cells::{kind_of, known_role, reads_role};
use crate::error::NetlistError;
use crate::ids::NetId;
use crate::instance::{Instance, Signal};
use crate::net_driver::NetDriver;
use crate::progress::{Progress, State};
use dft_base::Name;
use dft_cells::{Cell, Kind, Role};
use std::alloc::{AllocError, Global};

// Every net once, after the nets that its driver reads; refused where there is no such order.
pub(crate) fn find_order(
    alloc: Global,
    builder: &DesignBuilder,
    drivers: &[NetDriver],
) -> Result<Vec<NetId>, NetlistError>
    requires { AreDrivers builder.now drivers.now }
    ensures ok { IfOk result (λ order. IsOrder builder.now (numbers_of order.items)) }
    ensures refused { IfErr result (λ error. CannotFinish builder.now error) }
{
    let count = builder.net_count();
    let mut progress = Progress::new(alloc, count as usize)?;
    for number in 0..count {
        if let Some(net) = place(builder, drivers, NetId(number), &mut progress)? {
            let net = builder.net_name(net).copy(alloc)?;
            return Err(NetlistError::Loop { net });
        }
    }
    Ok(progress.into_order())
}

// Places a net and all that it needs, or tells the net that a walk back from it meets again.
fn place(
    builder: &DesignBuilder,
    drivers: &[NetDriver],
    start: NetId,
    progress: &mut Progress,
) -> Result<Option<NetId>, AllocError>
    requires drivers { AreDrivers builder.now drivers.now }
    requires live { start.0 < length builder.now.nets }
    requires between { IsBetween builder.now start.0 progress.old }
    ensures { IfOk result (λ met. MatchOption met (IsBetween builder.now (start.0 + 1) progress.new) (λ net. MeetsAgain builder.now net.0)) }
{
    if !progress.is_new(start) {
        return Ok(None);
    }
    progress.enter(start)?;
    while let Some(net) = progress.top() {
        match first_open_net(builder, drivers[net.0 as usize], net, progress.states()) {
            None => progress.leave(net)?,
            Some(next) => {
                if progress.is_walked(next) {
                    return Ok(Some(next));
                }
                progress.enter(next)?;
            }
        }
    }
    Ok(None)
}

// The first net that this driver of a net reads and that is not placed.
fn first_open_net(
    builder: &DesignBuilder,
    driver: NetDriver,
    net: NetId,
    states: &[State],
) -> Option<NetId>
    requires drives { Drives builder.now driver net.0 }
    requires count { length states.now ≡ length builder.now.nets }
    ensures first { number_of result ≡ first_open states.now (nets_read builder.now (driver_at builder.now driver)) }
    ensures live { IfSome result (λ next. next.0 < length states.now) }
{
    match driver {
        NetDriver::Input | NetDriver::Nothing => None,
        NetDriver::Join(number) => open_net(builder.joins()[number].source, states),
        NetDriver::Pin { instance, pin: _ } => first_open_pin(
            builder.library().cells(),
            &builder.instances()[instance.0 as usize],
            states,
        ),
    }
}

// The first net that the output of an instance reads and that is not placed.
fn first_open_pin(cells: &[Cell], instance: &Instance, states: &[State]) -> Option<NetId>
    requires { IsInstance cells.now (length states.now) instance.now.name instance.now.cell instance.now.pins }
    ensures first { let shape = shape_of cells.now instance.now.cell in number_of result ≡ first_open states.now (pins_read shape.kind shape.roles instance.now.pins) }
    ensures live { IfSome result (λ net. net.0 < length states.now) }
{
    let kind = kind_of(cells, instance.cell);
    for (pin, signal) in instance.pins.as_slice().iter().enumerate() {
        let role = known_role(cells, instance.cell, pin);
        if let Some(net) = open_pin(kind, role, *signal, states) {
            return Some(net);
        }
    }
    None
}

// The net of a pin that is read, if it has one that is not placed.
fn open_pin(kind: Kind, role: Role, signal: Signal, states: &[State]) -> Option<NetId>
    requires { IsLive (length states.now) signal }
    ensures first { number_of result ≡ first_open states.now (read_at kind role signal) }
    ensures live { IfSome result (λ net. net.0 < length states.now) }
{
    if reads_role(kind, role) {
        open_net(signal, states)
    } else {
        None
    }
}

// The net of this signal, if it has one that is not placed.
fn open_net(signal: Signal, states: &[State]) -> Option<NetId>
    requires { IsLive (length states.now) signal }
    ensures first { number_of result ≡ first_open states.now (net_of_signal signal) }
    ensures live { IfSome result (λ net. net.0 < length states.now) }
{
    match signal {
        Signal::Net(net) => {
            if states[net.0 as usize] == State::Placed {
                None
            } else {
                Some(net)
            }
        }
        _ => None,
    }
}
