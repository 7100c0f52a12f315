ghost use Rattle.std.specs.Prelude.{◌≡◌, ◌++◌, ◌∷◌, [], IfOk, OnOk, OnErr};

use crate::kind::{Kind, Role};
use dft_base::Name;
use std::alloc::{AllocError, Global};
use std::marker::Model;

/// The number of a cell in its library.
#[derive(Clone, Copy, Debug, PartialEq, Eq)]
pub struct CellId(pub u16);

/// A pin of a cell.
#[derive(Debug, Drop)]
pub struct Pin {
    pub name: Name,
    pub role: Role,
}

/// The pins of a cell, in order. A clause sees them as a list.
#[derive(Debug)]
pub struct Pins {
    pins: Vec<Pin>,
}

// One call for all fields, so that the proof of what owns a value stays short.
impl Drop for Pins {
    fn drop(self) {
        let Pins { pins: _ } = self;
    }
}

impl Model for Pins {
    ghost use Rattle.std.specs.Prelude.{List};
    ghost use Rattle.dft_cells.specs.declared.cell.Pin.{Pin};

    ghost Value = { List Pin };

    ghost view = { λ p. p.pins.items };
}

impl Pins {
    /// No pin yet.
    pub fn new(alloc: Global) -> Pins
        ensures { result ≡ [] }
    {
        Pins {
            pins: Vec::new(alloc),
        }
    }

    /// Adds a pin at the end.
    pub fn push(&mut self, pin: Pin) -> Result<(), AllocError>
        ensures ok { OnOk result (self.new ≡ self.old ++ pin ∷ []) }
        ensures err { OnErr result (self.new ≡ self.old) }
    {
        self.pins.push(pin)?;
        Ok(())
    }

    /// The same pins once more.
    pub fn copy(&self, alloc: Global) -> Result<Pins, AllocError>
        ensures { IfOk result (λ copy. copy ≡ self.now) }
    {
        let mut pins = Vec::new(alloc);
        for pin in &self.pins {
            pins.push(pin.copy(alloc)?)?;
        }
        Ok(Pins { pins })
    }

    /// The pins.
    pub fn as_slice(&self) -> &[Pin]
        ensures { result.now ≡ self.now }
    {
        &self.pins
    }
}

impl Pin {
    /// The same pin once more.
    pub fn copy(&self, alloc: Global) -> Result<Pin, AllocError>
        ensures { IfOk result (λ copy. copy ≡ self.now) }
    {
        Ok(Pin {
            name: self.name.copy(alloc)?,
            role: self.role,
        })
    }
}

/// A cell of a library.
#[derive(Debug, Drop)]
pub struct Cell {
    pub name: Name,
    pub kind: Kind,
    pub pins: Pins,
    /// The cell that replaces a flip-flop in a scan chain, where the library names one.
    pub scan: Option<CellId>,
}

impl Cell {
    /// The same cell once more.
    pub fn copy(&self, alloc: Global) -> Result<Cell, AllocError>
        ensures { IfOk result (λ copy. copy ≡ self.now) }
    {
        Ok(Cell {
            name: self.name.copy(alloc)?,
            kind: self.kind,
            pins: self.pins.copy(alloc)?,
            scan: self.scan,
        })
    }
}
