//! The bits of ports, and the bits that a pattern gives them.

ghost use Rattle.std.specs.Prelude.{◌≡◌, ◌==◌, ◌<◌, ℕ, length, map, get_or, if◌then◌else◌, None, Some, IfOk};
ghost use Rattle.std.specs.Option.{option_or};
ghost use Rattle.dft_expect.specs.Captures.{bit_of_port, output_bits};
ghost use Rattle.dft_vectors.specs.Signals.{input_bits};

use dft_base::Dir;
use dft_netlist::{NetId, Port};
use std::alloc::{AllocError, Global};

// The bits of the input ports, in order.
pub(crate) fn inputs(alloc: Global, ports: &[Port]) -> Result<Vec<NetId>, AllocError>
    ensures { IfOk result (λ bits. bits.items ≡ input_bits ports.now) }
{
    let mut bits = Vec::new(alloc);
    for port in ports {
        if let Dir::Input = port.dir {
            bits.extend_from_slice(port.bits.as_slice())?;
        }
    }
    Ok(bits)
}

// The bits of the output ports, in order.
pub(crate) fn outputs(alloc: Global, ports: &[Port]) -> Result<Vec<NetId>, AllocError>
    ensures { IfOk result (λ bits. bits.items ≡ output_bits ports.now) }
{
    let mut bits = Vec::new(alloc);
    for port in ports {
        if let Dir::Output = port.dir {
            bits.extend_from_slice(port.bits.as_slice())?;
        }
    }
    Ok(bits)
}

// The bit that a pattern gives to each net with a number below the end.
pub(crate) fn given_bits(
    alloc: Global,
    end: usize,
    ports: &[(NetId, bool)],
) -> Result<Vec<Option<bool>>, AllocError>
    ensures { IfOk result (λ given. (net : ℕ) → net < end → get_or given.items net None ≡ bit_of_port ports.now net) }
{
    let mut given = vec![in alloc; None; end]?;
    for (net, bit) in ports {
        give(&mut given, *net, *bit);
    }
    Ok(given)
}

// Gives a net a bit, where it is below the end and has none yet.
fn give(given: &mut [Option<bool>], net: NetId, bit: bool)
    ensures length { length given.new ≡ length given.old }
    ensures each { (k : ℕ) → k < length given.old → get_or given.new k None ≡ option_or (get_or given.old k None) (if net.0 == k then Some bit else None) }
{
    if let Some(None) = given.get(net.0 as usize) {
        given[net.0 as usize] = Some(bit);
    }
}
