//! The pins of flip-flops, and the values that they take next.

ghost use Rattle.std.specs.Prelude.{◌≡◌, ℕ, ◌<◌, length, IfOk};
ghost use Rattle.dft_cells.specs.FlipFlops.{tri_chosen};
ghost use Rattle.dft_logic.specs.Values as values_of;
ghost use Rattle.dft_seek.specs.Pins as spec;
ghost use Rattle.dft_seek.specs.Pins.{ArePins, ArePinsOf};

use dft_base::Tri;
use dft_cells::Role;
use dft_logic::{forced, value_at};
use dft_netlist::{Design, InstanceId, Signal};
use std::alloc::{AllocError, Global};

// What the pins of a flip-flop are joined to.
#[derive(Clone, Copy)]
pub(crate) struct Pins {
    pub reset: Option<Signal>,
    pub preset: Option<Signal>,
    pub enable: Option<Signal>,
    pub scan: Option<Signal>,
    pub input: Option<Signal>,
}

// The value of what a pin is joined to.
fn signal_value(signal: Signal, values: &[Tri]) -> Tri
    ensures { result ≡ spec.signal_value (values_of.value_at values.now) signal }
{
    match signal {
        Signal::Net(net) => value_at(values, net.0),
        Signal::Constant(bit) => if bit { Tri::One } else { Tri::Zero },
        Signal::Unconnected => Tri::Unknown,
    }
}

// The value of a pin; one that is not there is joined to nothing.
fn pin_value(pin: Option<Signal>, values: &[Tri]) -> Tri
    ensures { result ≡ spec.pin_value (values_of.value_at values.now) pin }
{
    match pin {
        Some(signal) => signal_value(signal, values),
        None => Tri::Unknown,
    }
}

// A value, or what a reset or set leaves of it, if there is one.
fn forced_by(value: bool, pin: Option<Signal>, values: &[Tri], next: Tri) -> Tri
    ensures { result ≡ spec.forced_by value pin (values_of.value_at values.now) next }
{
    match pin {
        Some(signal) => forced(value, signal_value(signal, values), next),
        None => next,
    }
}

// What a flip-flop takes: its scan input where its scan enable is 1, else its data input.
fn chosen(enable: Tri, scan_in: Tri, data_in: Tri) -> Tri
    ensures { result ≡ tri_chosen enable scan_in data_in }
{
    match enable {
        Tri::Zero => data_in,
        Tri::One => scan_in,
        Tri::Unknown => data_in.join(scan_in),
    }
}

// What a flip-flop takes, by its pins that are there for scan, if it has them.
fn taken(enable: Option<Signal>, scan: Option<Signal>, values: &[Tri], data_in: Tri) -> Tri
    ensures { result ≡ spec.taken enable scan (values_of.value_at values.now) data_in }
{
    match (enable, scan) {
        (Some(enable), Some(scan)) => chosen(
            signal_value(enable, values),
            signal_value(scan, values),
            data_in,
        ),
        _ => data_in,
    }
}

impl Pins {
    // The next value of the flip-flop.
    pub(crate) fn next(&self, values: &[Tri]) -> Tri
        ensures { result ≡ spec.next_by self.now (values_of.value_at values.now) }
    {
        let data_in = pin_value(self.input, values);
        let taken = taken(self.enable, self.scan, values, data_in);
        let set = forced_by(true, self.preset, values, taken);
        forced_by(false, self.reset, values, set)
    }
}

// The pins of an instance.
fn pins_of(design: &Design, instance: InstanceId) -> Pins
    ensures { ArePinsOf design.now instance.0 result }
{
    Pins {
        reset: design.signal(instance, Role::Reset),
        preset: design.signal(instance, Role::Preset),
        enable: design.signal(instance, Role::ScanEnable),
        scan: design.signal(instance, Role::ScanIn),
        input: design.signal(instance, Role::Din),
    }
}

// The pins of all instances.
pub(crate) fn all_pins(alloc: Global, design: &Design) -> Result<Vec<Pins>, AllocError>
    ensures { IfOk result (λ pins. ArePins design.now pins.items) }
{
    let mut pins = Vec::new(alloc);
    for number in 0..design.instances().len() {
        pins.push(pins_of(design, InstanceId(number as u32)))?;
    }
    Ok(pins)
}
