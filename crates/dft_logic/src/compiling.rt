//! What each instance of a design is in its circuit: a flip-flop, a lock-up or a gate.

ghost use Rattle.std.specs.Prelude.{◌≡◌, ℕ, length, map, option_map, None, IfOk, if◌then◌else◌};
ghost use Rattle.dft_cells.specs.declared.kind.Role.TheVariants as role;
ghost use Rattle.dft_cells.specs.FlipFlops.{is_flip_flop as takes_clock};
ghost use Rattle.dft_behavior.specs.ClockRoots as clocks;
ghost use Rattle.dft_behavior.specs.Roots.{shown_clock};
ghost use Rattle.dft_behavior.specs.Logic as logics;
ghost use Rattle.dft_behavior.specs.Logic.{is_lockup};
ghost use Rattle.dft_behavior.specs.Roots.{shown_root};
ghost use Rattle.dft_behavior.specs.Traces as traces;
ghost use Rattle.dft_logic.specs.Circuit.{source_at, alone, cell_of, scan_at, force_at, latch_of as latched, meaning};
ghost use Rattle.dft_logic.specs.Compiling.{ports_by, wired_at, found_in, IsTraced, forcing_in, modelled_in, lockup_in, stored_in, latch_in, meaning_in};

use crate::circuit::{Acting, FlipFlop, Latch, Op, Operand, ScanPins};
use crate::values::flag_at;
use crate::wires::{Wire, find, gate_inputs};
use dft_behavior::{ClockRoot, NetRoot, Root, clock_in, root_in};
use dft_cells::{Kind, Role};
use dft_netlist::{Design, InstanceId, NetId, Signal};
use std::alloc::{AllocError, Global};

// A design whose clocks are flagged, with the roots of its nets.
#[derive(Clone, Copy)]
pub(crate) struct Traced<'a> {
    pub design: &'a Design,
    pub flags: &'a [bool],
    pub roots: &'a [NetRoot],
}

// Where a walk back from an operand leads.
fn root_of(traced: Traced<'_>, source: Operand) -> Root
    requires { IsTraced traced }
    ensures { shown_root result ≡ traces.root_of traced.entry.design.now (source_at source) }
{
    match source {
        Operand::Net(net) => root_in(traced.roots, Signal::Net(net)),
        Operand::Tied(bit) => Root::Constant(bit),
        Operand::Loose(_, _) => Root::Other,
    }
}

// The clock that an operand shows.
fn clock_of(traced: Traced<'_>, source: Operand) -> Option<ClockRoot>
    requires { IsTraced traced }
    ensures { shown_clock result ≡ clocks.clock_root_of traced.entry.design.now (source_at source) }
{
    match source {
        Operand::Net(net) => clock_in(traced.roots, Signal::Net(net)),
        Operand::Tied(_) | Operand::Loose(_, _) => None,
    }
}

// A clock that is shown, where its port is flagged as a clock.
fn clock_port(flags: &[bool], root: Option<ClockRoot>) -> Option<ClockRoot>
    ensures { shown_clock result ≡ logics.domain_of (ports_by flags.now) (shown_clock root) }
{
    match root {
        Some(clock) => if flag_at(flags, clock.port.0) {
            Some(clock)
        } else {
            None
        },
        None => None,
    }
}

// The clock port that the clock pin of an instance with these pins shows, itself or inverted.
fn domain_of(traced: Traced<'_>, wires: &[Wire]) -> Option<ClockRoot>
    requires { IsTraced traced }
    ensures { shown_clock result ≡ logics.domain_at traced.entry.design.now (ports_by traced.entry.flags.now) (found_in role.Clock (map wired_at wires.now)) }
{
    match find(wires, Role::Clock) {
        Some(source) => clock_port(traced.flags, clock_of(traced, source)),
        None => None,
    }
}

// What a reset or set is, by its root: `None` where it keeps its flip-flop from being modelled, `Some(None)` where it
// never acts.
fn force_of(flags: &[bool], is_preset: bool, root: Root) -> Option<Option<Acting>>
    ensures { option_map force_at result ≡ option_map (alone is_preset) (logics.force_of (ports_by flags.now) (shown_root root)) }
{
    match root {
        Root::Port(net) => if flag_at(flags, net.0) {
            None
        } else {
            Some(Some(if is_preset {
                Acting::Preset(net)
            } else {
                Acting::Clear(net)
            }))
        },
        Root::Constant(bit) => if bit { Some(None) } else { None },
        Root::Other => None,
    }
}

// The reset of a flip-flop with these pins, or its set.
fn forcing(traced: Traced<'_>, wires: &[Wire]) -> Option<Option<Acting>>
    requires { IsTraced traced }
    ensures { option_map force_at result ≡ forcing_in traced.entry.design.now (ports_by traced.entry.flags.now) (found_in role.Reset (map wired_at wires.now)) (found_in role.Preset (map wired_at wires.now)) }
{
    match find(wires, Role::Reset) {
        Some(reset) => force_of(traced.flags, false, root_of(traced, reset)),
        None => match find(wires, Role::Preset) {
            Some(preset) => force_of(traced.flags, true, root_of(traced, preset)),
            None => Some(None),
        },
    }
}

// The scan pins of a flip-flop with these pins, if it has them.
fn scan_of(wires: &[Wire]) -> Option<ScanPins>
    ensures { scan_at result ≡ logics.scan_of (found_in role.ScanEnable (map wired_at wires.now)) (found_in role.ScanIn (map wired_at wires.now)) }
{
    match find(wires, Role::ScanEnable) {
        Some(enable) => match find(wires, Role::ScanIn) {
            Some(input) => Some(ScanPins { enable, input }),
            None => None,
        },
        None => None,
    }
}

// An instance: its number, its kind and its pins.
#[derive(Clone, Copy)]
pub(crate) struct Part<'a> {
    pub number: InstanceId,
    pub kind: Kind,
    pub wires: &'a [Wire],
}

// The data input of an instance.
fn data_in(part: Part<'_>) -> Operand
    ensures { source_at result ≡ logics.or_loose part.entry.number.0 (found_in role.Din (map wired_at part.entry.wires.now)) }
{
    match find(part.wires, Role::Din) {
        Some(source) => source,
        None => Operand::Loose(part.number, 0),
    }
}

// Whether a kind is a flip-flop.
fn is_flip_flop(kind: Kind) -> bool
    ensures { result ≡ takes_clock kind }
{
    matches!(kind, Kind::Flop(_))
}

// The flip-flop with these pins, if it is modelled.
fn modelled(traced: Traced<'_>, part: Part<'_>) -> Option<FlipFlop>
    requires { IsTraced traced }
    ensures { option_map cell_of result ≡ modelled_in traced.entry.design.now (ports_by traced.entry.flags.now) part.entry.number.0 (map wired_at part.entry.wires.now) }
{
    match domain_of(traced, part.wires) {
        Some(clock) => match forcing(traced, part.wires) {
            Some(force) => Some(FlipFlop {
                domain: clock.port,
                falling: clock.inverted,
                input: data_in(part),
                scan: scan_of(part.wires),
                force,
            }),
            None => None,
        },
        None => None,
    }
}

// The lock-up with these pins, if its clock shows a clock port.
pub(crate) fn latch_of(traced: Traced<'_>, part: Part<'_>) -> Option<Latch>
    requires { IsTraced traced }
    ensures { latched result ≡ latch_in traced.entry.design.now (ports_by traced.entry.flags.now) part.entry.number.0 (map wired_at part.entry.wires.now) }
{
    match domain_of(traced, part.wires) {
        Some(clock) => Some(Latch {
            domain: clock.port,
            input: data_in(part),
        }),
        None => None,
    }
}

// The flip-flop that an instance is, if it is a modelled one.
fn flip_flop(traced: Traced<'_>, part: Part<'_>) -> Option<FlipFlop>
    requires { IsTraced traced }
    ensures { option_map cell_of result ≡ (if takes_clock part.entry.kind then modelled_in traced.entry.design.now (ports_by traced.entry.flags.now) part.entry.number.0 (map wired_at part.entry.wires.now) else None) }
{
    if is_flip_flop(part.kind) {
        modelled(traced, part)
    } else {
        None
    }
}

// The lock-up with these pins as what stores a bit, if its clock shows a clock port. A high one takes its bit at the
// fall of that clock.
fn locked(traced: Traced<'_>, part: Part<'_>) -> Option<FlipFlop>
    requires { IsTraced traced }
    ensures { option_map cell_of result ≡ lockup_in traced.entry.design.now (ports_by traced.entry.flags.now) part.entry.number.0 (map wired_at part.entry.wires.now) }
{
    match domain_of(traced, part.wires) {
        Some(clock) => {
            let high = clock.inverted;
            Some(FlipFlop {
                domain: clock.port,
                falling: high,
                input: data_in(part),
                scan: None,
                force: None,
            })
        }
        None => None,
    }
}

// The lock-up that an instance is, if it is one on a clock port.
fn lock_up(traced: Traced<'_>, part: Part<'_>) -> Option<FlipFlop>
    requires { IsTraced traced }
    ensures { option_map cell_of result ≡ (if is_lockup part.entry.kind then lockup_in traced.entry.design.now (ports_by traced.entry.flags.now) part.entry.number.0 (map wired_at part.entry.wires.now) else None) }
{
    match part.kind {
        Kind::Lockup => locked(traced, part),
        _ => None,
    }
}

// What an instance stores a bit in, if it stores one.
fn stored(traced: Traced<'_>, part: Part<'_>) -> Option<FlipFlop>
    requires { IsTraced traced }
    ensures { option_map cell_of result ≡ stored_in traced.entry.design.now (ports_by traced.entry.flags.now) part.entry.number.0 part.entry.kind (map wired_at part.entry.wires.now) }
{
    match flip_flop(traced, part) {
        Some(flop) => Some(flop),
        None => lock_up(traced, part),
    }
}

// What an instance stores a bit in; one that no net shows where it stores none.
pub(crate) fn flop_at(traced: Traced<'_>, part: Part<'_>) -> FlipFlop
    requires { IsTraced traced }
    ensures { cell_of result ≡ logics.cell_or_none part.entry.number.0 (stored_in traced.entry.design.now (ports_by traced.entry.flags.now) part.entry.number.0 part.entry.kind (map wired_at part.entry.wires.now)) }
{
    match stored(traced, part) {
        Some(flop) => flop,
        None => FlipFlop {
            domain: NetId(0),
            falling: false,
            input: Operand::Loose(part.number, 0),
            scan: None,
            force: None,
        },
    }
}

// What a net takes its value from that is joined to an output pin of an instance.
pub(crate) fn pin_op(
    alloc: Global,
    traced: Traced<'_>,
    part: Part<'_>,
    inverted: bool,
) -> Result<Op, AllocError>
    requires { IsTraced traced }
    ensures { IfOk result (λ op. meaning op ≡ meaning_in traced.entry.design.now (ports_by traced.entry.flags.now) part.entry.number.0 part.entry.kind inverted (map wired_at part.entry.wires.now)) }
{
    match part.kind {
        Kind::Opaque => Ok(Op::Free),
        Kind::Lockup => match domain_of(traced, part.wires) {
            Some(clock) => {
                let input = data_in(part);
                Ok(Op::Lockup(part.number, clock.port, clock.inverted, input))
            }
            None => Ok(Op::Free),
        },
        Kind::Flop(_) => match modelled(traced, part) {
            Some(_) => Ok(Op::Flop(part.number, inverted)),
            None => Ok(Op::Free),
        },
        Kind::Gate(gate) => {
            let inputs = gate_inputs(alloc, part.wires)?;
            Ok(Op::Gate(gate, inputs))
        }
    }
}
