//! What each flip-flop takes in a pulse where nothing that it needs moves.

ghost use Rattle.std.specs.Prelude.{◌≡◌, ℕ, ◌<◌, length, map, true, Some};
ghost use Rattle.dft_behavior.specs.Settled.{value_from};
ghost use Rattle.dft_takings.specs.Entries as spec;
ghost use Rattle.dft_logic.specs.Values as machine;
ghost use Rattle.dft_logic.specs.Circuit.{source_at, scan_at, force_at, cell_of, cell_at};
ghost use Rattle.dft_takings.specs.Views.{pulse_at};
ghost use Rattle.dft_logic.specs.Circuit.{next_at};
ghost use Rattle.dft_takings.specs.ShownTables.{shown_at};
ghost use Rattle.dft_takings.specs.EntryTables as tables;
ghost use Rattle.dft_takings.specs.EntryTables.{entry_of, entry_there, entry_for};

use crate::origins::origin_at;
use crate::settling::Pulse;
use crate::shown::{Shown, shown_here};
use dft_base::Tri;
use dft_logic::{Acting, FlipFlop, Operand, ScanPins, value_at};
use dft_netlist::{InstanceId, NetId};

/// What a flip-flop takes.
#[derive(Clone, Copy)]
pub enum Entry {
    /// Its own old value, since it takes none.
    Keeps,
    Takes(Tri),
    /// The old value of another flip-flop.
    Follows(InstanceId),
    /// The value of a net at the strobe.
    Reads(NetId),
    /// Its next value from the strobe's values.
    Computes,
}

/// What nets show: by net, the flip-flop that it shows through joins and lock-ups, and what of the pulsed domains.
#[derive(Clone, Copy)]
pub struct Sights<'o, 's> {
    pub origins: &'o [Option<InstanceId>],
    pub shown: &'s [Shown],
}

impl Sights<'_, '_> {
    // The entry that has the value of an operand.
    fn entry(&self, operand: Operand) -> Entry
        ensures { entry_of result ≡ spec.source_entry (tables.origin_at self.now.origins.now) (source_at operand) }
    {
        match operand {
            Operand::Net(net) => match origin_at(self.origins, net) {
                Some(cell) => Entry::Follows(cell),
                None => Entry::Reads(net),
            },
            Operand::Tied(bit) => Entry::Takes(if bit { Tri::One } else { Tri::Zero }),
            Operand::Loose(_, _) => Entry::Takes(Tri::Unknown),
        }
    }

    // Whether an operand is as at the strobe in the view of a domain.
    fn is_still(&self, view: NetId, operand: Operand) -> bool
        ensures { result ≡ spec.is_still_source view.0 (shown_at self.now.shown.now) (source_at operand) }
    {
        match operand {
            Operand::Net(net) => shown_here(self.shown, net).is_still(view),
            Operand::Tied(_) => true,
            Operand::Loose(_, _) => true,
        }
    }

    // The entry that has the value of an operand, if it is still.
    fn one(&self, view: NetId, operand: Operand) -> Option<Entry>
        ensures { entry_there result ≡ spec.entry_if (spec.is_still_source view.0 (shown_at self.now.shown.now) (source_at operand)) (Some (spec.source_entry (tables.origin_at self.now.origins.now) (source_at operand))) }
    {
        if self.is_still(view, operand) {
            Some(self.entry(operand))
        } else {
            None
        }
    }

    // The entry of what a scan cell takes, with this value of its scan enable.
    fn chosen(&self, view: NetId, enable: Tri, scan_in: Operand, data_in: Operand) -> Option<Entry>
        ensures { entry_there result ≡ spec.chosen_entry (spec.is_still_source view.0 (shown_at self.now.shown.now)) (tables.origin_at self.now.origins.now) enable (source_at scan_in) (source_at data_in) }
    {
        match enable {
            Tri::Zero => self.one(view, data_in),
            Tri::One => self.one(view, scan_in),
            Tri::Unknown => if self.is_still(view, scan_in) && self.is_still(view, data_in) {
                Some(Entry::Computes)
            } else {
                None
            },
        }
    }

    // The entry of what a flip-flop takes, from the strobe's value of its scan enable.
    fn taken(
        &self,
        view: NetId,
        scan: Option<ScanPins>,
        data_in: Operand,
        values: &[Tri],
    ) -> Option<Entry>
        ensures { entry_there result ≡ spec.taken_entry (spec.is_still_source view.0 (shown_at self.now.shown.now)) (tables.origin_at self.now.origins.now) (scan_at scan) (value_from (machine.value_at values.now)) (source_at data_in) }
    {
        match scan {
            None => self.one(view, data_in),
            Some(pins) => if self.is_still(view, pins.enable) {
                self.chosen(view, pins.enable.value(values), pins.input, data_in)
            } else {
                None
            },
        }
    }
}

// The entry where a reset (value 0) or a set (value 1) has this value at its pin.
fn entry_at(value: bool, pin: Tri, entry: Option<Entry>) -> Option<Entry>
    ensures { entry_there result ≡ spec.entry_at value pin (entry_there entry) }
{
    match pin {
        Tri::Zero => Some(Entry::Takes(if value { Tri::One } else { Tri::Zero })),
        Tri::One => entry,
        Tri::Unknown => match entry {
            Some(_) => Some(Entry::Computes),
            None => None,
        },
    }
}

// The entry where a reset or set may act.
fn forced_entry(force: Option<Acting>, ports: &[Tri], entry: Option<Entry>) -> Option<Entry>
    ensures { entry_there result ≡ spec.forced_entry (force_at force) (machine.value_at ports.now) (entry_there entry) }
{
    match force {
        None => entry,
        Some(Acting::Clear(port)) => entry_at(false, value_at(ports, port.0), entry),
        Some(Acting::Preset(port)) => entry_at(true, value_at(ports, port.0), entry),
    }
}

// The entry of a flip-flop, from the strobe's value of its scan enable; none where something that it needs may move.
pub(crate) fn entry_given(
    flop: &FlipFlop,
    pulse: Pulse<'_>,
    sights: &Sights<'_, '_>,
    values: &[Tri],
) -> Option<Entry>
    ensures { entry_there result ≡ entry_for (cell_of flop.now) (pulse_at pulse.entry) (tables.origin_at sights.now.origins.now) (shown_at sights.now.shown.now) (machine.value_at values.now) }
{
    if flop.changes(pulse.rising, pulse.pulsed) {
        forced_entry(
            flop.force,
            pulse.ports,
            sights.taken(flop.domain, flop.scan, flop.input, values),
        )
    } else {
        Some(Entry::Keeps)
    }
}

/// Finds the entry of each flip-flop. Whether all have one.
pub fn find_entries(
    flops: &[FlipFlop],
    pulse: Pulse<'_>,
    sights: &Sights<'_, '_>,
    values: &[Tri],
    entries: &mut [Entry],
) -> bool
    requires { length entries.old ≡ length flops.now }
    ensures { result ≡ true → (c : ℕ) → c < length flops.now → entry_for (cell_at (map cell_of flops.now) c) (pulse_at pulse.entry) (tables.origin_at sights.now.origins.now) (shown_at sights.now.shown.now) (machine.value_at values.now) ≡ Some (tables.entry_at entries.new c) }
{
    for (place, flop) in flops.iter().enumerate() {
        match entry_given(flop, pulse, sights, values) {
            Some(entry) => entries[place] = entry,
            None => return false,
        }
    }
    true
}

impl Entry {
    // The value of the flip-flop of an instance by its entry.
    pub(crate) fn value(
        self,
        place: usize,
        flops: &[FlipFlop],
        pulse: Pulse<'_>,
        values: &[Tri],
    ) -> Tri
        requires flops { place < length flops.now }
        ensures { result ≡ spec.entry_value (machine.value_at pulse.entry.old.now.values) (machine.value_at values.now) (next_at (cell_at (map cell_of flops.now) place) (machine.value_at pulse.entry.ports.now) (machine.value_at values.now)) place (entry_of self) }
    {
        match self {
            Entry::Follows(cell) => pulse.old.at(cell.0 as usize),
            other => other.settled_value(place, flops, pulse, values),
        }
    }

    // The same. Most entries follow another flip-flop, and need not come here.
    #[inline(never)]
    fn settled_value(
        self,
        place: usize,
        flops: &[FlipFlop],
        pulse: Pulse<'_>,
        values: &[Tri],
    ) -> Tri
        requires flops { place < length flops.now }
        ensures { result ≡ spec.entry_value (machine.value_at pulse.entry.old.now.values) (machine.value_at values.now) (next_at (cell_at (map cell_of flops.now) place) (machine.value_at pulse.entry.ports.now) (machine.value_at values.now)) place (entry_of self) }
    {
        match self {
            Entry::Keeps => pulse.old.at(place),
            Entry::Takes(value) => value,
            Entry::Follows(cell) => pulse.old.at(cell.0 as usize),
            Entry::Reads(net) => value_at(values, net.0),
            Entry::Computes => flops[place].next(pulse.ports, values),
        }
    }
}
