//! Cells that read nothing.

ghost use Rattle.std.specs.Prelude.{◌≡◌, ◌==◌, ◌&&◌, ◌||◌, nat_lt, false, if◌then◌else◌};
ghost use Rattle.dft_logic.specs.Circuit.{cell_of, flag_at as is_up, scan_at, source_at};
ghost use Rattle.dft_fault_lanes.specs.Idle as spec;

use crate::moves::is_carried;
use dft_logic::{FlipFlop, Operand, ScanPins};
use dft_registers::Place;
use dft_takings::is_unforced;

// Whether nothing is joined to a pin.
fn is_loose(operand: &Operand) -> bool
    ensures { result ≡ spec.is_loose (source_at operand.now) }
{
    match operand {
        Operand::Net(_) => false,
        Operand::Tied(_) => false,
        Operand::Loose(_, _) => true,
    }
}

// Whether there are no scan pins.
fn is_unscanned(scan: Option<ScanPins>) -> bool
    ensures { result ≡ spec.is_unscanned (scan_at scan) }
{
    match scan {
        None => true,
        Some(_) => false,
    }
}

// Whether a cell takes nothing at a fall, and nothing is joined to its data input.
fn reads_nothing(flop: &FlipFlop) -> bool
    ensures { result ≡ (if flop.now.falling then false else spec.is_loose (source_at flop.now.input)) }
{
    if flop.falling {
        return false;
    }
    is_loose(&flop.input)
}

// Whether a cell reads nothing.
fn is_idle(flop: &FlipFlop) -> bool
    ensures { result ≡ spec.is_idle (cell_of flop.now) }
{
    reads_nothing(flop) && is_unscanned(flop.scan) && is_unforced(flop.force)
}

// Whether a cell at a place need not be looked at as clocks rise or fall.
pub(crate) fn is_left(flop: &FlipFlop, place: Place, moves: &[bool]) -> bool
    ensures { result ≡ ((is_up moves.now place.register && nat_lt 0 place.index) || (spec.is_idle (cell_of flop.now) && place.register == 0)) }
{
    if is_carried(place, moves) {
        return true;
    }
    is_idle(flop) && place.register == 0
}
