//! The acts of single signals.

ghost use Rattle.std.specs.Prelude.{◌≡◌, ◌++◌, length, map, replicate, OnOk};
ghost use Rattle.dft_expect.specs.Captures as captures;
ghost use Rattle.dft_vectors.specs.OwnPorts as spec;

use dft_base::Tri;
use dft_patterns::Act;
use std::alloc::AllocError;

// An input is set to a bit.
pub(crate) fn set_to(bit: bool) -> Act
    ensures { result ≡ spec.set_to bit }
{
    if bit { Act::High } else { Act::Low }
}

// An input pulses, or is set to a value.
pub(crate) fn driven(pulsed: bool, value: Tri) -> Act
    ensures { result ≡ spec.driven pulsed value }
{
    match (pulsed, value) {
        (true, _) => Act::Pulse,
        (false, Tri::One) => Act::High,
        (false, Tri::Zero | Tri::Unknown) => Act::Low,
    }
}

// The value of a port to which a pattern gives this bit, or none.
pub(crate) fn port_value(is_reset: bool, given: Option<bool>) -> Tri
    ensures { result ≡ captures.port_value is_reset given }
{
    match (is_reset, given) {
        (true, _) | (false, Some(true)) => Tri::One,
        (false, Some(false) | None) => Tri::Zero,
    }
}

fn expect(bit: bool) -> Act
    ensures { result ≡ spec.expect bit }
{
    if bit { Act::ExpectHigh } else { Act::ExpectLow }
}

fn compare(value: Tri) -> Act
    ensures { result ≡ spec.compare value }
{
    match value {
        Tri::Zero => Act::ExpectLow,
        Tri::One => Act::ExpectHigh,
        Tri::Unknown => Act::Ignore,
    }
}

// Adds the acts of outputs that are to show these bits.
pub(crate) fn push_expected(acts: &mut Vec<Act>, bits: &[bool]) -> Result<(), AllocError>
    ensures { OnOk result (acts.new.items ≡ acts.old.items ++ map spec.expect bits.now) }
{
    for bit in bits {
        acts.push(expect(*bit))?;
    }
    Ok(())
}

// Adds the acts of outputs that are compared where their values are known.
pub(crate) fn push_compared(acts: &mut Vec<Act>, values: &[Tri]) -> Result<(), AllocError>
    ensures { OnOk result (acts.new.items ≡ acts.old.items ++ map spec.compare values.now) }
{
    for value in values {
        acts.push(compare(*value))?;
    }
    Ok(())
}

// Adds the acts of so many outputs that are not compared.
pub(crate) fn push_ignored(acts: &mut Vec<Act>, outputs: usize) -> Result<(), AllocError>
    ensures { OnOk result (acts.new.items ≡ acts.old.items ++ replicate outputs Act.Ignore) }
{
    for _output in 0..outputs {
        acts.push(Act::Ignore)?;
    }
    Ok(())
}
