//! The connections of a module instance.

ghost use Rattle.std.specs.Prelude.{◌≡◌, ◌++◌, ◌∷◌, [], OnOk, OnErr};

use dft_base::{Name, Place};
use dft_netlist::PinSignals;
use std::alloc::{AllocError, Global};
use std::marker::Model;

/// A connection of a module instance: where the name of its port stands, that name, and the bits that the port is joined to,
/// leftmost first; none where nothing stands between the brackets.
#[derive(Debug, Drop)]
pub struct Connection {
    pub place: Place,
    pub port: Name,
    pub signals: PinSignals,
}

/// The connections of a module instance in the order of the text. A clause sees them as a list.
#[derive(Debug)]
pub struct Connections {
    connections: Vec<Connection>,
}

// One call for all fields, so that the proof of what owns a value stays short.
impl Drop for Connections {
    fn drop(self) {
        let Connections { connections: _ } = self;
    }
}

impl Model for Connections {
    ghost use Rattle.std.specs.Prelude.{List};
    ghost use Rattle.dft_modules.specs.declared.connections.Connection.{Connection};

    ghost Value = { List Connection };

    ghost view = { λ c. c.connections.items };
}

impl Connections {
    /// No connection yet.
    pub fn new(alloc: Global) -> Connections
        ensures { result ≡ [] }
    {
        Connections {
            connections: Vec::new(alloc),
        }
    }

    /// Adds a connection at the end.
    pub fn push(&mut self, connection: Connection) -> Result<(), AllocError>
        ensures ok { OnOk result (self.new ≡ self.old ++ connection ∷ []) }
        ensures err { OnErr result (self.new ≡ self.old) }
    {
        self.connections.push(connection)?;
        Ok(())
    }

    /// The connections.
    pub fn as_slice(&self) -> &[Connection]
        ensures { result.now ≡ self.now }
    {
        &self.connections
    }
}
