//! The nets that are settled for cells to take their values, and for bits to be compared.

ghost use Rattle.std.specs.Prelude.{◌≡◌, ◌∷◌, ◌<◌, [], ℕ, Bool, Some, false, length, map, true};
ghost use Rattle.dft_netlist.specs.Drivers.{nets_of};
ghost use Rattle.dft_logic.specs.Circuit as circuits;
ghost use Rattle.dft_logic.specs.Circuit.{cell_of, source_at};
ghost use Rattle.dft_takings.specs.EntryTables.{MarksAll};
ghost use Rattle.dft_takings.specs.Needs.{chosen_reads};
ghost use Rattle.dft_replay.specs.Vectors as vectors;
ghost use Rattle.dft_replay.specs.Vectors.{AreSignals, act_at, net_at};
ghost use Rattle.dft_replay.specs.Rows as rows;
ghost use Rattle.dft_fault_lanes.specs.Lanes.{flop_at};
ghost use Rattle.dft_fault_lanes.specs.Plans.{AreCovered, cell_needs, enable_at};
ghost use Rattle.dft_fault_lanes.specs.Moves as spec;
ghost use Rattle.dft_fault_lanes.specs.Moves.{enable_needs};

use crate::comparing::printed;
use crate::moves::is_carried;
use crate::vectors::is_pulse;
use dft_base::Tri;
use dft_lanes::Wide;
use dft_logic::{FlipFlop, Operand, ScanPins, flag_at};
use dft_netlist::NetId;
use dft_patterns::Act;
use dft_registers::Cells;

/// A net that scan enables come by, and its value in each lane, Unknown where nothing is known of it; and whether it is known that no
/// reset or set acts.
#[derive(Clone, Copy)]
pub struct Steer {
    pub net: NetId,
    pub value: Tri,
    pub free: bool,
}

// The value of a scan enable, so far as it is known.
pub(crate) fn enable_value(steer: Steer, enable: &Operand) -> Tri
    ensures { result ≡ enable_at steer (source_at enable.now) }
{
    match enable {
        Operand::Net(net) => if net.0 == steer.net.0 {
            steer.value
        } else {
            Tri::Unknown
        },
        Operand::Tied(_) => Tri::Unknown,
        Operand::Loose(_, _) => Tri::Unknown,
    }
}

// Marks a net; past the end there is none.
pub(crate) fn mark_net(net: NetId, marked: &mut [bool])
    ensures { MarksAll marked.old marked.new (net.0 ∷ []) }
{
    if (net.0 as usize) < marked.len() {
        marked[net.0 as usize] = true;
    }
}

// Marks the net of an operand.
fn mark_operand(operand: &Operand, marked: &mut [bool])
    ensures { MarksAll marked.old marked.new (nets_of (source_at operand.now ∷ [])) }
{
    match operand {
        Operand::Net(net) => mark_net(*net, marked),
        Operand::Tied(_) => (),
        Operand::Loose(_, _) => (),
    }
}

// Marks two operands' nets.
fn mark_both(first: &Operand, second: &Operand, marked: &mut [bool])
    ensures { MarksAll marked.old marked.new (nets_of (source_at first.now ∷ source_at second.now ∷ [])) }
{
    mark_operand(first, marked);
    mark_operand(second, marked);
}

// Marks what a scan enable with this value lets through.
fn mark_chosen(enable: Tri, scan: ScanPins, pin: &Operand, marked: &mut [bool])
    ensures { MarksAll marked.old marked.new (nets_of (chosen_reads enable (source_at scan.input) (source_at pin.now))) }
{
    match enable {
        Tri::Zero => mark_operand(pin, marked),
        Tri::One => mark_operand(&scan.input, marked),
        Tri::Unknown => mark_both(&scan.input, pin, marked),
    }
}

// Marks what a cell's next value may be read from.
fn mark_reads(steer: Steer, flop: &FlipFlop, marked: &mut [bool])
    ensures { MarksAll marked.old marked.new (cell_needs steer (cell_of flop.now)) }
{
    match flop.scan {
        None => mark_operand(&flop.input, marked),
        Some(scan) => {
            mark_operand(&scan.enable, marked);
            mark_chosen(enable_value(steer, &scan.enable), scan, &flop.input, marked);
        }
    }
}

// Marks the net of a cell's scan enable.
fn mark_enable(flop: &FlipFlop, marked: &mut [bool])
    ensures { MarksAll marked.old marked.new (enable_needs (cell_of flop.now)) }
{
    match flop.scan {
        None => (),
        Some(scan) => mark_operand(&scan.enable, marked),
    }
}

// Marks what a cell's next value may be read from, and of one that is carried its scan enable alone.
fn mark_cell(steer: Steer, flop: &FlipFlop, carried: bool, marked: &mut [bool])
    ensures enable { MarksAll marked.old marked.new (enable_needs (cell_of flop.now)) }
    ensures reads { carried ≡ false → MarksAll marked.old marked.new (cell_needs steer (cell_of flop.now)) }
{
    mark_enable(flop, marked);
    if !carried {
        mark_reads(steer, flop, marked);
    }
}

// Marks what the next values of all cells may be read from, and of those that are carried their scan enables alone.
pub(crate) fn mark_takers(
    steer: Steer,
    flops: &[FlipFlop],
    cells: &Cells<Wide>,
    moves: &[bool],
    marked: &mut [bool],
)
    requires { length cells.now.values ≡ length flops.now }
    ensures size { length marked.new ≡ length marked.old }
    ensures kept { (k : ℕ) → circuits.flag_at marked.old k ≡ true → circuits.flag_at marked.new k ≡ true }
    ensures enables { (c : ℕ) → c < length flops.now → MarksAll marked.old marked.new (enable_needs (flop_at flops.now c)) }
    ensures reads { (c : ℕ) → c < length flops.now → spec.is_carried cells.now.layout moves.now c ≡ false → MarksAll marked.old marked.new (cell_needs steer (flop_at flops.now c)) }
{
    for (place, flop) in flops.iter().enumerate() {
        let carried = is_carried(cells.place(place), moves);
        mark_cell(steer, flop, carried, marked);
    }
}

// Marks a net, if there is a bit that is compared there.
fn mark_if(bit: Option<bool>, net: NetId, marked: &mut [bool])
    ensures kept { (k : ℕ) → circuits.flag_at marked.old k ≡ true → circuits.flag_at marked.new k ≡ true }
    ensures here { (b : Bool) → bit ≡ Some b → net.0 < length marked.old → circuits.flag_at marked.new net.0 ≡ true }
{
    match bit {
        Some(_) => mark_net(net, marked),
        None => (),
    }
}

// Marks the net of a signal, if its bit is compared.
fn mark_signal(nets: &[NetId], acts: &[Act], signal: usize, marked: &mut [bool])
    requires signal { signal < length acts.now }
    requires nets { AreSignals (length marked.old) nets.now }
    requires acts { length acts.now ≡ length nets.now }
    ensures kept { (k : ℕ) → circuits.flag_at marked.old k ≡ true → circuits.flag_at marked.new k ≡ true }
    ensures here { (bit : Bool) → vectors.printed (act_at acts.now signal) ≡ Some bit → circuits.flag_at marked.new (net_at nets.now signal).0 ≡ true }
{
    mark_if(printed(acts[signal]), nets[signal], marked);
}

// Marks the nets whose bits are compared.
pub(crate) fn mark_compared(nets: &[NetId], acts: &[Act], marked: &mut [bool])
    requires nets { AreSignals (length marked.old) nets.now }
    requires acts { length acts.now ≡ length nets.now }
    ensures kept { (k : ℕ) → circuits.flag_at marked.old k ≡ true → circuits.flag_at marked.new k ≡ true }
    ensures covered { AreCovered nets.now acts.now marked.new }
{
    for signal in 0..acts.len() {
        mark_signal(nets, acts, signal, marked);
    }
}

// Whether the net of a signal is marked, if its bit is compared.
fn is_covered(nets: &[NetId], acts: &[Act], signal: usize, marked: &[bool]) -> bool
    requires signal { signal < length acts.now }
    requires acts { length acts.now ≡ length nets.now }
    ensures { result ≡ true → (bit : Bool) → vectors.printed (act_at acts.now signal) ≡ Some bit → circuits.flag_at marked.now (net_at nets.now signal).0 ≡ true }
{
    match printed(acts[signal]) {
        Some(_) => flag_at(marked, nets[signal].0),
        None => true,
    }
}

// Whether the nets are marked whose bits are compared.
pub(crate) fn covers(nets: &[NetId], acts: &[Act], marked: &[bool]) -> bool
    requires { length acts.now ≡ length nets.now }
    ensures { result ≡ true → AreCovered nets.now acts.now marked.now }
{
    for signal in 0..acts.len() {
        if !is_covered(nets, acts, signal, marked) {
            return false;
        }
    }
    true
}

// Whether the same signals pulse as in a row.
pub(crate) fn same_pulses(acts: &[Act], row: &[bool]) -> bool
    ensures { result ≡ true → row.now ≡ map rows.is_pulse acts.now }
{
    if row.len() != acts.len() {
        return false;
    }
    for (place, act) in acts.iter().enumerate() {
        if row[place] != is_pulse(*act) {
            return false;
        }
    }
    true
}

// Reads which signals pulse.
pub(crate) fn read_pulses(acts: &[Act], row: &mut [bool])
    requires { length row.old ≡ length acts.now }
    ensures { row.new ≡ map rows.is_pulse acts.now }
{
    for (place, act) in acts.iter().enumerate() {
        row[place] = is_pulse(*act);
    }
}
