//! The bits that a cube gives cells and ports.

ghost use Rattle.std.specs.Prelude.{◌≡◌, ◌||◌, None, IfErr, OnOk};
ghost use Rattle.dft_base.specs.Name.{IsName};
ghost use Rattle.dft_netlist.specs.Connections.{input_net};
ghost use Rattle.dft_rules.specs.Rules as rules;
ghost use Rattle.dft_cubes.specs.Cubes as spec;
ghost use Rattle.dft_cubes.specs.Cubes.{IsFault, cell_refusal, port_refusal, with_cell, with_port};
ghost use Rattle.dft_cubes.specs.Taking.{IsMarked, cube_of};

use crate::draft::Draft;
use crate::error::CubeError;
use crate::here::Here;
use crate::looking::{flip_flop_named, is_among};
use crate::stamps::Stamps;
use dft_base::Name;

// Gives a cell its bit in the pending cube.
pub(crate) fn give_cell(
    draft: &mut Draft,
    stamps: &mut Stamps,
    here: &Here<'_>,
    name: &[u8],
    bit: bool,
) -> Result<(), CubeError>
    requires name { IsName name.now }
    requires marked { IsMarked here.now.design.now stamps.old (cube_of draft.old) }
    ensures passed { OnOk result (cell_refusal (cube_of draft.old) here.now.place name.now (rules.flip_flop_named here.now.design.now name.now) ≡ None) }
    ensures cube { OnOk result (cube_of draft.new ≡ with_cell (cube_of draft.old) (rules.flip_flop_named here.now.design.now name.now) bit) }
    ensures marked { OnOk result (IsMarked here.now.design.now stamps.new (cube_of draft.new)) }
    ensures number { OnOk result (stamps.new.number ≡ stamps.old.number) }
    ensures refused { IfErr result (IsFault (cell_refusal (cube_of draft.old) here.now.place name.now (rules.flip_flop_named here.now.design.now name.now))) }
{
    let Some(cell) = flip_flop_named(here.design, name) else {
        return Err(CubeError::Q2 {
            place: here.place,
            name: Name::from_slice(here.alloc, name)?,
        });
    };
    if stamps.has_cell(cell) {
        return Err(CubeError::Q6 {
            place: here.place,
            name: Name::from_slice(here.alloc, name)?,
        });
    }
    stamps.cells[cell.0 as usize] = stamps.number;
    draft.cells.push((cell, bit))?;
    Ok(())
}

// Whether a port of this name is a domain or a reset.
fn is_special(here: &Here<'_>, name: &[u8]) -> bool
    ensures { result ≡ (spec.is_among here.now.config.now.domains name.now || spec.is_among here.now.config.now.resets name.now) }
{
    is_among(here.config.domains(), name) || is_among(here.config.resets(), name)
}

// Gives a port its bit in the pending cube.
pub(crate) fn give_port(
    draft: &mut Draft,
    stamps: &mut Stamps,
    here: &Here<'_>,
    name: &[u8],
    bit: bool,
) -> Result<(), CubeError>
    requires name { IsName name.now }
    requires marked { IsMarked here.now.design.now stamps.old (cube_of draft.old) }
    ensures passed { OnOk result (port_refusal here.now.config.now (cube_of draft.old) here.now.place name.now (input_net here.now.design.now name.now) ≡ None) }
    ensures cube { OnOk result (cube_of draft.new ≡ with_port (cube_of draft.old) (input_net here.now.design.now name.now) bit) }
    ensures marked { OnOk result (IsMarked here.now.design.now stamps.new (cube_of draft.new)) }
    ensures number { OnOk result (stamps.new.number ≡ stamps.old.number) }
    ensures refused { IfErr result (IsFault (port_refusal here.now.config.now (cube_of draft.old) here.now.place name.now (input_net here.now.design.now name.now))) }
{
    let Some(port) = here.design.input(name) else {
        return Err(CubeError::Q3 {
            place: here.place,
            name: Name::from_slice(here.alloc, name)?,
        });
    };
    if stamps.has_port(port) {
        return Err(CubeError::Q6 {
            place: here.place,
            name: Name::from_slice(here.alloc, name)?,
        });
    }
    if is_special(here, name) {
        return Err(CubeError::Q8 {
            place: here.place,
            name: Name::from_slice(here.alloc, name)?,
        });
    }
    stamps.ports[port.0 as usize] = stamps.number;
    draft.ports.push((port, bit))?;
    Ok(())
}
