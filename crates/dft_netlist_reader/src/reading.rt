//! Reads the design of a netlist text.

ghost use Rattle.std.specs.Prelude.{◌≤◌, length, IfOk, IfErr};
ghost use Rattle.dft_hier.specs.Laws.{Gives};
ghost use Rattle.dft_netlist_reader.specs.Refusals.{HasNoDesign};
ghost use Rattle.dft_verilog_out.specs.Named.{GatesAreJoined};

use crate::error::DesignError;
use dft_cells::Library;
use dft_hier::flatten;
use dft_netlist::Design;
use dft_verilog::{MAX_TEXT, TextSaid, finished, read_text};
use std::alloc::Global;

#[tactic(auto, using(crate::proofs::ReadLemmas::read_texts))]
/// The design that a netlist text of one or several modules stands for, over the cells of a library: its modules, and the flat
/// netlist of them, finished. A module that stands alone is finished as it was read. A text is refused by its first fault; then its
/// modules are, where they have no flat design.
pub fn read(alloc: Global, bytes: &[u8], library: Library) -> Result<Design, DesignError>
    requires { length bytes.now ≤ MAX_TEXT }
    ensures design { IfOk result (λ design. Gives library bytes.now design) }
    ensures joined { IfOk result GatesAreJoined }
    ensures refused { IfErr result (λ error. HasNoDesign library bytes.now error) }
{
    let said = read_text(alloc, bytes, &library)?;
    match said {
        TextSaid::Alone(draft) => Ok(finished(alloc, library, draft)?),
        TextSaid::Modules(modules) => Ok(flatten(alloc, modules, library)?),
    }
}
