//! The connections of a module instance while they are read.

ghost use Rattle.std.specs.Prelude.{◌≡◌, ◌++◌, ◌∷◌, [], false, OnOk};
ghost use Rattle.dft_base.specs.Name.{IsName};
ghost use Rattle.dft_modules.specs.SubInstances as spec;

use crate::name_set::NameSet;
use crate::sub_connection::SubConnection;
use dft_netlist::PinSignals;
use dft_verilog_tokens::Word;
use std::alloc::{AllocError, Global};
use std::marker::Model;

/// The connections of a module instance in the order of the text, whose ports are found by their names. A clause sees them
/// as a list.
#[derive(Debug)]
pub struct SubConnections<'a> {
    ports: NameSet<'a>,
    connections: Vec<SubConnection<'a>>,
}

// One call for all fields, so that the proof of what owns a value stays short.
impl Drop for SubConnections<'_> {
    fn drop(self) {
        let SubConnections {
            ports: _,
            connections: _,
        } = self;
    }
}

impl<'a> Model for SubConnections<'a> {
    ghost use Rattle.std.specs.Prelude.{List};
    ghost use Rattle.dft_modules.specs.SubInstances as spec;

    ghost Value = { List spec.SubConnection };

    ghost use Rattle.dft_verilog_draft.specs.SubConnectionsShown.{connections_of, HasPorts};

    ghost view = { connections_of };

    ghost invariant = { HasPorts };
}

impl<'a> SubConnections<'a> {
    /// No connection yet.
    pub fn new(alloc: Global) -> SubConnections<'a>
        ensures { result ≡ [] }
    {
        SubConnections {
            ports: NameSet::new(alloc),
            connections: Vec::new(alloc),
        }
    }

    #[tactic(auto, using(crate::proofs::NameSetLemmas::was_named_ports))]
    /// Whether a port was named before.
    pub fn was_named(&self, word: &[u8]) -> bool
        ensures { result ≡ spec.was_named self.now word.now }
    {
        self.ports.has(word)
    }

    #[tactic(auto, using(crate::proofs::NameSetLemmas::port_sets))]
    /// Adds a connection of a port that was not named before.
    pub fn add(
        &mut self,
        left: usize,
        port: &'a [u8],
        signals: PinSignals,
    ) -> Result<(), AllocError>
        requires name { IsName port.now }
        requires new { spec.was_named self.old port.now ≡ false }
        ensures { OnOk result (self.new ≡ self.old ++ record { left = left; port = port.now; signals = signals } ∷ []) }
    {
        self.connections.reserve(1)?;
        self.ports.add(Word::read(port))?;
        self.connections
            .push_reserved(SubConnection::new(left, Word::read(port), signals));
        Ok(())
    }

    /// The connections alone.
    pub fn into_list(self) -> Vec<SubConnection<'a>>
        ensures { result.items ≡ self.entry }
    {
        let SubConnections {
            ports: _,
            connections,
        } = self;
        connections
    }
}
