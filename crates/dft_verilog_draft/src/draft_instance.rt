ghost use Rattle.std.specs.Prelude.{◌≡◌, IfOk};

use dft_base::Name;
use dft_netlist::{CellRef, PinSignals, Signal};
use dft_verilog_tokens::Word;
use std::alloc::{AllocError, Global};
use std::marker::Model;

/// An instance of a module, as it was read. A clause sees it as the instance that it is to be.
#[derive(Debug)]
pub struct DraftInstance<'a> {
    name: Option<Word<'a>>,
    cell: CellRef,
    pins: PinSignals,
}

// One call for all fields, so that the proof of what owns a value stays short.
impl Drop for DraftInstance<'_> {
    fn drop(self) {
        let DraftInstance {
            name: _,
            cell: _,
            pins: _,
        } = self;
    }
}

impl<'a> Model for DraftInstance<'a> {
    ghost use Rattle.dft_netlist.specs.declared.instance.Instance.{Instance};

    ghost Value = { Instance };

    ghost use Rattle.dft_verilog_draft.specs.DraftInstanceShown.{instance_of};

    ghost view = { instance_of };
}

impl<'a> DraftInstance<'a> {
    /// An instance of a cell that is joined so.
    pub fn new(name: Option<Word<'a>>, cell: CellRef, pins: PinSignals) -> DraftInstance<'a>
        ensures { result ≡ record { name = name.entry; cell = cell; pins = pins } }
    {
        DraftInstance { name, cell, pins }
    }

    /// Its name, if it has one, to be kept.
    pub fn name(&self, alloc: Global) -> Result<Option<Name>, AllocError>
        ensures { IfOk result (λ name. name ≡ self.now.name) }
    {
        match &self.name {
            Some(name) => Ok(Some(Name::from_slice(alloc, name.as_slice())?)),
            None => Ok(None),
        }
    }

    /// What it is an instance of.
    pub fn cell(&self) -> CellRef
        ensures { result ≡ self.now.cell }
    {
        self.cell
    }

    /// What its pins are joined to.
    pub fn pins(&self) -> &[Signal]
        ensures { result.now ≡ self.now.pins }
    {
        self.pins.as_slice()
    }
}
