//! The next values of flip-flops.

ghost use Rattle.std.specs.Prelude.{◌≡◌};
ghost use Rattle.dft_cells.specs.FlipFlops.{tri_forced, tri_forced_by, tri_chosen};
ghost use Rattle.dft_logic.specs.Values as spec;
ghost use Rattle.dft_logic.specs.Circuit as circuits;
ghost use Rattle.dft_logic.specs.Circuit.{taken_at, next_at};

use crate::circuit::{Acting, FlipFlop};
use crate::values::value_at;
use dft_base::Tri;

/// What a reset (value 0) or a set (value 1) leaves of a value, where its pin has this one.
pub fn forced(value: bool, pin: Tri, bit: Tri) -> Tri
    ensures { result ≡ tri_forced value pin bit }
{
    let forcing = if value { Tri::One } else { Tri::Zero };
    match pin {
        Tri::Zero => forcing,
        Tri::One => bit,
        Tri::Unknown => forcing.join(bit),
    }
}

// What a flip-flop takes: its scan input where its scan enable is 1, else its data input.
fn chosen(enable: Tri, scan_in: Tri, data_in: Tri) -> Tri
    ensures { result ≡ tri_chosen enable scan_in data_in }
{
    match enable {
        Tri::Zero => data_in,
        Tri::One => scan_in,
        Tri::Unknown => data_in.join(scan_in),
    }
}

// What a reset or set leaves of a value, if there is one.
fn forced_by(force: Option<Acting>, ports: &[Tri], bit: Tri) -> Tri
    ensures { result ≡ tri_forced_by (circuits.force_at force) (spec.value_at ports.now) bit }
{
    match force {
        Some(Acting::Clear(port)) => forced(false, value_at(ports, port.0), bit),
        Some(Acting::Preset(port)) => forced(true, value_at(ports, port.0), bit),
        None => bit,
    }
}

impl FlipFlop {
    // What it takes in the view with these values.
    fn taken(&self, values: &[Tri]) -> Tri
        ensures { result ≡ taken_at (circuits.cell_of self.now) (spec.value_at values.now) }
    {
        let data_in = self.input.value(values);
        match self.scan {
            Some(pins) => chosen(pins.enable.value(values), pins.input.value(values), data_in),
            None => data_in,
        }
    }

    /// Its next value in the view with these values.
    pub fn next(&self, ports: &[Tri], values: &[Tri]) -> Tri
        ensures { result ≡ next_at (circuits.cell_of self.now) (spec.value_at ports.now) (spec.value_at values.now) }
    {
        forced_by(self.force, ports, self.taken(values))
    }
}
