ghost use Rattle.std.specs.Prelude.{◌≡◌, ◌||◌, IfOk, OnOk, vec_len};
ghost use Rattle.dft_merge.specs.Placement.{cell_number, port_number};
ghost use Rattle.dft_merge.specs.Tables.{AreBelow, SameBits, opposes_by};

use crate::tables::{cells_end, grow, opposes_cells, opposes_ports, ports_end};
use dft_cubes::Cube;
use dft_gf2::System;
use std::alloc::{AllocError, Global};

// What is kept of an open pattern beside its lists: the system of its cells' equations, and its bits by number.
#[derive(Drop)]
pub(crate) struct Slot {
    pub(crate) system: System,
    pub(crate) cells: Vec<Option<bool>>,
    pub(crate) ports: Vec<Option<bool>>,
}

impl Slot {
    // A slot whose system has so many columns.
    pub(crate) fn blank(alloc: Global, columns: u32) -> Result<Slot, AllocError>
        ensures { IfOk result (λ slot. slot.system.columns ≡ columns) }
    {
        Ok(Slot {
            system: System::new(alloc, columns)?,
            cells: Vec::new(alloc),
            ports: Vec::new(alloc),
        })
    }
}

// Whether a cube gives a cell or a port the opposite of a bit in these tables.
pub(crate) fn opposes(cells: &[Option<bool>], ports: &[Option<bool>], cube: &Cube) -> bool
    ensures { result ≡ (opposes_by cell_number cells.now cube.now.cells || opposes_by port_number ports.now cube.now.ports) }
{
    opposes_cells(cells, cube.cells.as_slice()) || opposes_ports(ports, cube.ports.as_slice())
}

// Makes room in two tables for what a cube gives.
pub(crate) fn grow_for(
    cells: &mut Vec<Option<bool>>,
    ports: &mut Vec<Option<bool>>,
    cube: &Cube,
) -> Result<(), AllocError>
    ensures cells { SameBits cells.old.items cells.new.items }
    ensures ports { SameBits ports.old.items ports.new.items }
    ensures room_for_cells { OnOk result (AreBelow cell_number (vec_len cells.new) cube.now.cells) }
    ensures room_for_ports { OnOk result (AreBelow port_number (vec_len ports.new) cube.now.ports) }
{
    grow(cells, cells_end(cube.cells.as_slice()))?;
    grow(ports, ports_end(cube.ports.as_slice()))
}
