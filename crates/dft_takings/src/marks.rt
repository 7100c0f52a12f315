//! The nets that have to be settled for flip-flops to take their values.

ghost use Rattle.std.specs.Prelude.{◌≡◌, ◌∷◌, [], ◌<◌, ℕ, length, map, false};
ghost use Rattle.dft_netlist.specs.Drivers.{nets_of};
ghost use Rattle.dft_netlist.specs.Orders.{numbers_of};
ghost use Rattle.dft_logic.specs.Circuit.{source_at, scan_at, force_at, force_nets, cell_of, cell_at, flag_at as is_up};
ghost use Rattle.dft_takings.specs.EntryTables.{entry_of, entry_at, MarksAll, scan_needs, entry_needs};

use crate::entries::Entry;
use dft_logic::{Acting, FlipFlop, Operand, ScanPins};
use dft_netlist::NetId;

// Marks a net; past the end there is none.
fn mark_net(net: NetId, marked: &mut [bool])
    ensures { MarksAll marked.old marked.new (net.0 ∷ []) }
{
    if (net.0 as usize) < marked.len() {
        marked[net.0 as usize] = true;
    }
}

// Marks the net of an operand.
fn mark_operand(operand: &Operand, marked: &mut [bool])
    ensures { MarksAll marked.old marked.new (nets_of (source_at operand.now ∷ [])) }
{
    match operand {
        Operand::Net(net) => mark_net(*net, marked),
        Operand::Tied(_) => (),
        Operand::Loose(_, _) => (),
    }
}

// Marks the nets of the pins that are there for scan: the scan enable's alone, or the scan input's too.
fn mark_scan(alone: bool, scan: Option<ScanPins>, marked: &mut [bool])
    ensures { MarksAll marked.old marked.new (scan_needs alone (scan_at scan)) }
{
    match scan {
        None => (),
        Some(pins) => {
            mark_operand(&pins.enable, marked);
            if !alone {
                mark_operand(&pins.input, marked);
            }
        }
    }
}

// Marks what has to be settled for a flip-flop with an entry.
fn mark_entry(flop: &FlipFlop, entry: Entry, marked: &mut [bool])
    ensures { MarksAll marked.old marked.new (entry_needs (cell_of flop.now) (entry_of entry)) }
{
    match entry {
        Entry::Keeps => mark_scan(true, flop.scan, marked),
        Entry::Takes(_) => mark_scan(true, flop.scan, marked),
        Entry::Follows(_) => mark_scan(true, flop.scan, marked),
        Entry::Reads(net) => {
            mark_net(net, marked);
            mark_scan(true, flop.scan, marked);
        }
        Entry::Computes => {
            mark_operand(&flop.input, marked);
            mark_scan(false, flop.scan, marked);
        }
    }
}

/// Marks what has to be settled for flip-flops with these entries.
pub fn mark_entries(flops: &[FlipFlop], entries: &[Entry], marked: &mut [bool])
    requires { length entries.now ≡ length flops.now }
    ensures size { length marked.new ≡ length marked.old }
    ensures each { (c : ℕ) → c < length flops.now → MarksAll marked.old marked.new (entry_needs (cell_at (map cell_of flops.now) c) (entry_at entries.now c)) }
{
    for (place, entry) in entries.iter().enumerate() {
        mark_entry(&flops[place], *entry, marked);
    }
}

// Marks the port of a reset or set.
fn mark_force(force: Option<Acting>, marked: &mut [bool])
    ensures { MarksAll marked.old marked.new (force_nets (force_at force)) }
{
    match force {
        None => (),
        Some(Acting::Clear(port)) | Some(Acting::Preset(port)) => mark_net(port, marked),
    }
}

/// Marks the ports of all resets and sets.
pub fn mark_forces(flops: &[FlipFlop], marked: &mut [bool])
    ensures size { length marked.new ≡ length marked.old }
    ensures each { (c : ℕ) → c < length flops.now → MarksAll marked.old marked.new (force_nets (cell_at (map cell_of flops.now) c).forces) }
{
    for flop in flops {
        mark_force(flop.force, marked);
    }
}

/// Marks these nets.
pub fn mark_nets(nets: &[NetId], marked: &mut [bool])
    ensures { MarksAll marked.old marked.new (numbers_of nets.now) }
{
    for net in nets {
        mark_net(*net, marked);
    }
}

/// Lowers all flags.
pub fn lower(flags: &mut [bool])
    ensures { (k : ℕ) → is_up flags.new k ≡ false }
{
    for flag in flags.iter_mut() {
        *flag = false;
    }
}
