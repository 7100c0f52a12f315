ghost use Rattle.std.specs.Prelude.{◌≡◌};

use crate::sub_connection::SubConnection;
use dft_verilog_tokens::Word;
use std::marker::Model;

/// An instance of a module, as it was read. A clause sees its name, its module's, how many joins and how many cells and gates
/// stand before it, and its connections.
#[derive(Debug)]
pub struct DraftSub<'a> {
    name: Word<'a>,
    of: Word<'a>,
    joins: usize,
    cells: usize,
    connections: Vec<SubConnection<'a>>,
}

// One call for all fields, so that the proof of what owns a value stays short.
impl Drop for DraftSub<'_> {
    fn drop(self) {
        let DraftSub {
            name: _,
            of: _,
            joins: _,
            cells: _,
            connections: _,
        } = self;
    }
}

impl<'a> Model for DraftSub<'a> {
    ghost use Rattle.dft_modules.specs.SubInstances as spec;

    ghost Value = { spec.DraftSub };

    ghost use Rattle.dft_verilog_draft.specs.DraftSubShown.{sub_of};

    ghost view = { sub_of };
}

impl<'a> DraftSub<'a> {
    /// An instance of a module behind so many joins and so many cells and gates.
    pub fn new(
        name: Word<'a>,
        of: Word<'a>,
        joins: usize,
        cells: usize,
        connections: Vec<SubConnection<'a>>,
    ) -> DraftSub<'a>
        ensures { result ≡ record { name = name.entry; of = of.entry; joins = joins; cells = cells; connections = connections.entry.items } }
    {
        DraftSub {
            name,
            of,
            joins,
            cells,
            connections,
        }
    }

    /// Its name.
    pub fn name(&self) -> &Word<'a>
        ensures { result.now ≡ self.now.name }
    {
        &self.name
    }

    /// The name of its module.
    pub fn of(&self) -> &Word<'a>
        ensures { result.now ≡ self.now.of }
    {
        &self.of
    }

    /// How many joins stand before it.
    pub fn joins(&self) -> usize
        ensures { result ≡ self.now.joins }
    {
        self.joins
    }

    /// How many cells and gates stand before it.
    pub fn cells(&self) -> usize
        ensures { result ≡ self.now.cells }
    {
        self.cells
    }

    /// Its connections.
    pub fn connections(&self) -> &[SubConnection<'a>]
        ensures { result.now ≡ self.now.connections }
    {
        &self.connections
    }
}
