//! Lanes in which each cell that takes a value reads nets that are still.

ghost use Rattle.std.specs.Prelude.{◌≡◌, ◌⊎◌, ◌<◌, ◌∷◌, [], ℕ, length, true, false};
ghost use Rattle.dft_base.specs.declared.tri.Tri.{Tri as ATri};
ghost use Rattle.dft_netlist.specs.Drivers.{nets_of};
ghost use Rattle.dft_behavior.specs.Settled.{value_from};
ghost use Rattle.dft_logic.specs.Circuit.{cell_of, source_at};
ghost use Rattle.dft_takings.specs.Needs.{HasAll, chosen_reads, next_reads};
ghost use Rattle.dft_takings.specs.Shows as shows;
ghost use Rattle.dft_takings.specs.Shows.{still_needs};
ghost use Rattle.dft_takings.specs.ShownTables.{shown_at, shown_of};
ghost use Rattle.dft_evaluator.specs.Wides.{AreWides, IsWide, value_in, values_in};
ghost use Rattle.dft_fault_laws.specs.Rounds.{every};
ghost use Rattle.dft_fault_lanes.specs.Lanes.{IsLive, KeepsSteady, flop_at, is_changed};
ghost use Rattle.dft_fault_lanes.specs.Plans.{cell_needs, enable_at};

use crate::marking::{Steer, enable_value};
use dft_base::Tri;
use dft_evaluator::{all, operand};
use dft_lanes::{Wide, wide_and, wide_not};
use dft_logic::{FlipFlop, Operand, ScanPins};
use dft_netlist::NetId;
use dft_takings::Shown;

// Whether what shows this is still in the view of a domain.
fn is_still(shown: Shown, view: NetId) -> bool
    ensures { result ≡ shows.is_still view.0 (shown_of shown) }
{
    match shown {
        Shown::Nothing => true,
        Shown::Domain(domain) => domain.0 == view.0,
        Shown::Several => false,
    }
}

// What a net shows; past the end nothing.
fn shown_here(shown: &[Shown], net: NetId) -> Shown
    ensures { shown_of result ≡ shown_at shown.now net.0 }
{
    match shown.get(net.0 as usize) {
        Some(shown) => *shown,
        None => Shown::Nothing,
    }
}

// Whether what is read at an input pin is still in the view of a domain.
fn reads_still(source: &Operand, shown: &[Shown], view: NetId) -> bool
    ensures { result ≡ true → HasAll (still_needs every (shown_at shown.now) view.0) (nets_of (source_at source.now ∷ [])) }
{
    match source {
        Operand::Net(net) => is_still(shown_here(shown, *net), view),
        Operand::Tied(_) | Operand::Loose(_, _) => true,
    }
}

// No lane is live.
fn no_lane() -> Wide
    ensures none { (lane : ℕ) → lane < 512 → IsLive result lane → ⊥ }
    ensures wide { IsWide result (value_in result) }
{
    all(Tri::Zero)
}

// The live lanes in which what moves is not taken: where this is 1.
fn where_one(still: bool, wide: &Wide, live: &Wide) -> Wide
    requires wide { IsWide wide.now (value_in wide.now) }
    requires live { IsWide live.now (value_in live.now) }
    ensures live { (lane : ℕ) → lane < 512 → IsLive result lane → IsLive live.now lane × (still ≡ false → value_in wide.now lane ≡ ATri.One) }
    ensures wide { IsWide result (value_in result) }
{
    if still { *live } else { wide_and(live, wide) }
}

// The live lanes in which a scan cell takes what is still: where D moves its scan enable is 1, and where SI moves it is 0.
fn scan_steady(
    flop: &FlipFlop,
    scan: ScanPins,
    shown: &[Shown],
    wides: &[Wide],
    live: &Wide,
) -> Wide
    requires wides { AreWides wides.now }
    requires live { IsWide live.now (value_in live.now) }
    ensures live { (lane : ℕ) → lane < 512 → IsLive result lane → IsLive live.now lane }
    ensures data { (lane : ℕ) → lane < 512 → IsLive result lane → (HasAll (still_needs every (shown_at shown.now) flop.now.domain.0) (nets_of (source_at flop.now.input ∷ []))) ⊎ (value_from (values_in wides.now lane) (source_at scan.enable) ≡ ATri.One) }
    ensures scan { (lane : ℕ) → lane < 512 → IsLive result lane → (HasAll (still_needs every (shown_at shown.now) flop.now.domain.0) (nets_of (source_at scan.input ∷ []))) ⊎ (value_from (values_in wides.now lane) (source_at scan.enable) ≡ ATri.Zero) }
    ensures wide { IsWide result (value_in result) }
{
    let data = reads_still(&flop.input, shown, flop.domain);
    let input = reads_still(&scan.input, shown, flop.domain);
    if data && input {
        *live
    } else {
        let enable = operand(&scan.enable, wides);
        let taken = where_one(data, &enable, live);
        where_one(input, &wide_not(&enable), &taken)
    }
}

// The live lanes in which a cell reads what is still.
fn cell_steady(flop: &FlipFlop, shown: &[Shown], wides: &[Wide], live: &Wide) -> Wide
    requires wides { AreWides wides.now }
    requires live { IsWide live.now (value_in live.now) }
    ensures live { (lane : ℕ) → lane < 512 → IsLive result lane → IsLive live.now lane }
    ensures reads { (lane : ℕ) (ports : ℕ → ATri) → lane < 512 → IsLive result lane → HasAll (still_needs every (shown_at shown.now) flop.now.domain.0) (nets_of (next_reads (cell_of flop.now) ports (value_from (values_in wides.now lane)))) }
    ensures wide { IsWide result (value_in result) }
{
    match flop.scan {
        Some(scan) => if reads_still(&scan.enable, shown, flop.domain) {
            scan_steady(flop, scan, shown, wides, live)
        } else {
            no_lane()
        },
        None => if reads_still(&flop.input, shown, flop.domain) {
            *live
        } else {
            no_lane()
        },
    }
}

/// Leaves those lanes live in which each cell that takes a value reads nets that are still.
pub fn keep_steady(
    flops: &[FlipFlop],
    rising: bool,
    pulsed: &[bool],
    shown: &[Shown],
    wides: &[Wide],
    live: &mut Wide,
)
    requires wides { AreWides wides.now }
    requires live { IsWide live.old (value_in live.old) }
    ensures steady { KeepsSteady flops.now rising pulsed.now every shown.now wides.now live.old live.new }
    ensures wide { IsWide live.new (value_in live.new) }
{
    for flop in flops {
        if flop.changes(rising, pulsed) {
            *live = cell_steady(flop, shown, wides, live);
        }
    }
}

// Whether what is read at two input pins is still in the view of a domain.
fn both_still(first: &Operand, second: &Operand, shown: &[Shown], view: NetId) -> bool
    ensures { result ≡ true → HasAll (still_needs every (shown_at shown.now) view.0) (nets_of (source_at first.now ∷ source_at second.now ∷ [])) }
{
    if !reads_still(first, shown, view) {
        return false;
    }
    reads_still(second, shown, view)
}

// Whether what a scan enable with this value lets through is still in the view of a domain.
fn chosen_still(enable: Tri, scan: ScanPins, pin: &Operand, shown: &[Shown], view: NetId) -> bool
    ensures { result ≡ true → HasAll (still_needs every (shown_at shown.now) view.0) (nets_of (chosen_reads enable (source_at scan.input) (source_at pin.now))) }
{
    match enable {
        Tri::Zero => reads_still(pin, shown, view),
        Tri::One => reads_still(&scan.input, shown, view),
        Tri::Unknown => both_still(&scan.input, pin, shown, view),
    }
}

// Whether a scan cell reads what is still.
fn scan_still(steer: Steer, flop: &FlipFlop, scan: ScanPins, shown: &[Shown]) -> bool
    ensures { result ≡ true → HasAll (still_needs every (shown_at shown.now) flop.now.domain.0) (nets_of (source_at scan.enable ∷ chosen_reads (enable_at steer (source_at scan.enable)) (source_at scan.input) (source_at flop.now.input))) }
{
    if !reads_still(&scan.enable, shown, flop.domain) {
        return false;
    }
    let enable = enable_value(steer, &scan.enable);
    chosen_still(enable, scan, &flop.input, shown, flop.domain)
}

// Whether a cell reads what is still, whatever it takes.
fn is_steady(steer: Steer, flop: &FlipFlop, shown: &[Shown]) -> bool
    ensures { result ≡ true → HasAll (still_needs every (shown_at shown.now) flop.now.domain.0) (cell_needs steer (cell_of flop.now)) }
{
    match flop.scan {
        None => reads_still(&flop.input, shown, flop.domain),
        Some(scan) => scan_still(steer, flop, scan, shown),
    }
}

// Whether a cell that takes a value as these clocks rise reads what is still, whatever it takes.
fn rises_steady(steer: Steer, flop: &FlipFlop, pulsed: &[bool], shown: &[Shown]) -> bool
    ensures { result ≡ true → is_changed (cell_of flop.now) true pulsed.now ≡ true → HasAll (still_needs every (shown_at shown.now) flop.now.domain.0) (cell_needs steer (cell_of flop.now)) }
{
    if !flop.changes(true, pulsed) {
        return true;
    }
    is_steady(steer, flop, shown)
}

// Whether the cells that take a value as these clocks rise read what is still, whatever they take.
pub(crate) fn are_steady(flops: &[FlipFlop], pulsed: &[bool], steer: Steer, shown: &[Shown]) -> bool
    ensures { result ≡ true → (c : ℕ) → c < length flops.now → is_changed (flop_at flops.now c) true pulsed.now ≡ true → HasAll (still_needs every (shown_at shown.now) (flop_at flops.now c).domain) (cell_needs steer (flop_at flops.now c)) }
{
    for flop in flops {
        if !rises_steady(steer, flop, pulsed, shown) {
            return false;
        }
    }
    true
}

// No lane is live where it is not so.
pub(crate) fn live_where(holds: bool, live: &mut Wide)
    requires { IsWide live.old (value_in live.old) }
    ensures live { (lane : ℕ) → lane < 512 → IsLive live.new lane → (holds ≡ true) × IsLive live.old lane }
    ensures wide { IsWide live.new (value_in live.new) }
{
    if !holds {
        *live = no_lane();
    }
}
