//! The written form of whole designs.

ghost use Rattle.std.specs.Prelude.{◌≡◌, IfOk};
ghost use Rattle.dft_netlist_text.specs.NetlistText.{StandsFor};
ghost use Rattle.dft_verilog_out.specs.Named.{GatesAreJoined};
ghost use Rattle.dft_verilog_out.specs.Written as form;

use crate::declarations::{add_heading, add_ports, add_wires};
use crate::instances::{add_instances, add_joins};
use crate::nets::{add_other_texts, port_texts};
use dft_netlist::Design;
use std::alloc::{AllocError, Global};

/// The written form (IEEE 1364, one text for each netlist). Whoever reads the text with the same library gets the same
/// design. Every pin of a gate must be joined, as in a design that was read.
#[tactic(auto, unfolding(crate::specs::Written::written, crate::specs::Written::body))]
pub fn write(alloc: Global, design: &Design) -> Result<Vec<u8>, AllocError>
    requires { GatesAreJoined design.now }
    ensures form { IfOk result (λ bytes. bytes.items ≡ form.written design.now) }
    ensures reads { IfOk result (λ bytes. StandsFor design.now.library bytes.items design.now) }
{
    // Every net can be ordered, as a clause of this call says.
    design.soundness();
    let mut nets = port_texts(alloc, design.ports())?;
    let first = nets.len();
    add_other_texts(alloc, &mut nets, design)?;
    let mut out = Vec::new(alloc);
    add_heading(&mut out, design.module(), design.ports())?;
    add_ports(&mut out, design.ports())?;
    add_wires(&mut out, &nets[first..])?;
    add_joins(&mut out, &nets, design.joins())?;
    add_instances(
        &mut out,
        design.library().cells(),
        &nets,
        design.instances(),
    )?;
    out.extend_from_slice(b"endmodule\n")?;
    Ok(out)
}
