//! The place of each instance, by its number.

ghost use Rattle.std.specs.Prelude.{◌≡◌, ◌≤◌, ◌<◌, IfOk, length};
ghost use Rattle.std.specs.List.{All};
ghost use Rattle.dft_stitch.specs.Shown.{Knows};
ghost use Rattle.dft_stitch.specs.Tables.{AreBelow, Noted};

use crate::cells::Cells;
use crate::places::CellPlace;
use dft_netlist::InstanceId;
use std::alloc::{AllocError, Global};

// Where each of so many instances stands.
pub(crate) fn find_places(
    alloc: Global,
    count: usize,
    chains: &[Cells],
) -> Result<Vec<Option<CellPlace>>, AllocError>
    requires few { length chains.now ≤ 1024 }
    requires short { All (λ cells. length cells ≤ 65536) chains.now }
    requires below { All (AreBelow count) chains.now }
    ensures { IfOk result (λ places. Knows chains.now places.items) }
{
    let mut places = vec![in alloc; None; count]?;
    for (chain, cells) in chains.iter().enumerate() {
        note_cells(&mut places, chain as u16, cells.as_slice());
    }
    Ok(places)
}

// Notes the places of a chain's cells.
fn note_cells(places: &mut [Option<CellPlace>], chain: u16, cells: &[InstanceId])
    requires short { length cells.now ≤ 65536 }
    requires below { AreBelow (length places.old) cells.now }
    ensures { Noted chain cells.now (length cells.now) places.old places.new }
{
    for (place, cell) in cells.iter().enumerate() {
        places[cell.0 as usize] = Some(CellPlace {
            chain,
            place: place as u16,
        });
    }
}
