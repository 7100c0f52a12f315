//! What cells take in each lane.

ghost use Rattle.std.specs.Prelude.{◌≡◌, ◌<◌, ℕ, false, length, true};
ghost use Rattle.dft_base.specs.declared.tri.Tri.{Tri as ATri};
ghost use Rattle.dft_cells.specs.FlipFlops.{tri_forced, tri_forced_by};
ghost use Rattle.dft_netlist.specs.Orders.{Has};
ghost use Rattle.dft_logic.specs.Circuit.{cell_of, force_at, next_at, taken_at};
ghost use Rattle.dft_logic.specs.Values as spec;
ghost use Rattle.dft_evaluator.specs.Wides.{AreWides, IsWide, value_in, values_in, wide_at as wide_of};
ghost use Rattle.dft_fault_lanes.specs.Lanes.{AreActedOn, flop_at};
ghost use Rattle.dft_fault_lanes.specs.Moves.{NoneActs};

use crate::clamps::known_bit;
use dft_base::Tri;
use dft_evaluator::{all, operand, unknown};
use dft_lanes::{Wide, wide_mux};
use dft_logic::{Acting, FlipFlop, value_at};
use dft_registers::Cells;

// What a flip-flop's data input and scan pins let it take.
fn taken_wide(flop: &FlipFlop, wides: &[Wide]) -> Wide
    requires { AreWides wides.now }
    ensures { IsWide result (λ lane. taken_at (cell_of flop.now) (values_in wides.now lane)) }
{
    match flop.scan {
        Some(scan) => wide_mux(
            &operand(&flop.input, wides),
            &operand(&scan.input, wides),
            &operand(&scan.enable, wides),
        ),
        None => operand(&flop.input, wides),
    }
}

// What a reset (value 0) or a set (value 1) whose pin has this value leaves of what was taken.
fn pressed_wide(value: bool, pin: Tri, wide: &Wide) -> Wide
    ensures { (values : ℕ → ATri) → IsWide wide.now values → IsWide result (λ lane. tri_forced value pin (values lane)) }
{
    match pin {
        Tri::One => *wide,
        Tri::Zero => all(known_bit(value)),
        Tri::Unknown => wide_mux(&all(known_bit(value)), wide, &unknown()),
    }
}

// What a reset or set leaves of what was taken.
fn forced_wide(force: Option<Acting>, ports: &[Tri], wide: &Wide) -> Wide
    ensures { (values : ℕ → ATri) → IsWide wide.now values → IsWide result (λ lane. tri_forced_by (force_at force) (spec.value_at ports.now) (values lane)) }
{
    match force {
        Some(Acting::Clear(port)) => pressed_wide(false, value_at(ports, port.0), wide),
        Some(Acting::Preset(port)) => pressed_wide(true, value_at(ports, port.0), wide),
        None => *wide,
    }
}

// What a flip-flop takes.
fn next_wide(flop: &FlipFlop, ports: &[Tri], wides: &[Wide]) -> Wide
    requires { AreWides wides.now }
    ensures { IsWide result (λ lane. next_at (cell_of flop.now) (spec.value_at ports.now) (values_in wides.now lane)) }
{
    let taken = taken_wide(flop, wides);
    forced_wide(flop.force, ports, &taken)
}

// Whether a reset or set may act.
fn may_act(force: Option<Acting>, ports: &[Tri]) -> bool
    ensures { result ≡ false → (value : ATri) → tri_forced_by (force_at force) (spec.value_at ports.now) value ≡ value }
{
    match force {
        Some(Acting::Clear(port)) | Some(Acting::Preset(port)) => match value_at(ports, port.0) {
            Tri::One => false,
            Tri::Zero | Tri::Unknown => true,
        },
        None => false,
    }
}

// Resets and sets act on all their flip-flops.
fn act_all(flops: &[FlipFlop], ports: &[Tri], cells: &mut Cells<Wide>)
    requires count { length cells.old.values ≡ length flops.now }
    requires cells { AreWides cells.old.values }
    ensures cells { AreWides cells.new.values }
    ensures layout { cells.new.layout ≡ cells.old.layout }
    ensures count { length cells.new.values ≡ length cells.old.values }
    ensures acted { AreActedOn flops.now ports.now cells.old.values cells.new.values }
{
    for (place, flop) in flops.iter().enumerate() {
        if may_act(flop.force, ports) {
            let wide = forced_wide(flop.force, ports, &cells.at(place));
            cells.set(place, wide);
        }
    }
}

/// Resets and sets act on their flip-flops, by the values of the input ports, unless it is known that none does.
pub fn act(flops: &[FlipFlop], free: bool, ports: &[Tri], cells: &mut Cells<Wide>)
    requires free { free ≡ true → NoneActs flops.now ports.now }
    requires count { length cells.old.values ≡ length flops.now }
    requires cells { AreWides cells.old.values }
    ensures cells { AreWides cells.new.values }
    ensures layout { cells.new.layout ≡ cells.old.layout }
    ensures count { length cells.new.values ≡ length cells.old.values }
    ensures acted { AreActedOn flops.now ports.now cells.old.values cells.new.values }
{
    if !free {
        act_all(flops, ports, cells);
    }
}

/// The cells at these places take their next values.
pub fn take(
    flops: &[FlipFlop],
    places: &[usize],
    ports: &[Tri],
    wides: &[Wide],
    cells: &mut Cells<Wide>,
)
    requires live { (c : ℕ) → Has places.now c → c < length flops.now }
    requires count { length cells.old.values ≡ length flops.now }
    requires wides { AreWides wides.now }
    requires rest { (c : ℕ) → (Has places.now c → ⊥) → IsWide (wide_of cells.old.values c) (value_in (wide_of cells.old.values c)) }
    ensures cells { AreWides cells.new.values }
    ensures layout { cells.new.layout ≡ cells.old.layout }
    ensures count { length cells.new.values ≡ length cells.old.values }
    ensures taken { (lane c : ℕ) → lane < 512 → Has places.now c → values_in cells.new.values lane c ≡ next_at (flop_at flops.now c) (spec.value_at ports.now) (values_in wides.now lane) }
    ensures kept { (c : ℕ) → (Has places.now c → ⊥) → wide_of cells.new.values c ≡ wide_of cells.old.values c }
{
    for place in places {
        let wide = next_wide(&flops[*place], ports, wides);
        cells.set(*place, wide);
    }
}
