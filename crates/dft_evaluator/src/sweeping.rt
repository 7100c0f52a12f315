//! All nets settled, in an order.

ghost use Rattle.std.specs.Prelude.{◌≡◌, ℕ, ◌<◌, length};
ghost use Rattle.dft_logic.specs.Circuit.{meaning, op_at};
ghost use Rattle.dft_evaluator.specs.Wides.{AreWides, values_in};
ghost use Rattle.dft_evaluator.specs.Evaluations.{IsSettledFrom};

use crate::gates::op_wide;
use dft_lanes::Wide;
use dft_logic::Circuit;

// Settles all nets in all patterns from what their sources are, in the circuit's order.
pub(crate) fn sweep(circuit: &Circuit, wides: &mut [Wide])
    requires nets { length wides.old ≡ length circuit.now.ops }
    requires wides { AreWides wides.old }
    ensures wides { AreWides wides.new }
    ensures settled { (pattern : ℕ) → pattern < 512 → IsSettledFrom (λ net. meaning (op_at circuit.now.ops net)) (values_in wides.old pattern) (values_in wides.new pattern) }
{
    for net in &circuit.order {
        let wide = op_wide(&circuit.ops[net.0 as usize], *net, wides);
        wides[net.0 as usize] = wide;
    }
}
