ghost use Rattle.std.specs.Prelude.{◌≡◌};

use dft_netlist::{PinSignals, Signal};
use dft_verilog_tokens::Word;
use std::marker::Model;

/// A connection of a module instance, as it was read: how many bytes there are from its port's name to the end of the text,
/// that name, and the bits that the port is joined to.
#[derive(Debug)]
pub struct SubConnection<'a> {
    left: usize,
    port: Word<'a>,
    signals: PinSignals,
}

// One call for all fields, so that the proof of what owns a value stays short.
impl Drop for SubConnection<'_> {
    fn drop(self) {
        let SubConnection {
            left: _,
            port: _,
            signals: _,
        } = self;
    }
}

impl<'a> Model for SubConnection<'a> {
    ghost use Rattle.dft_modules.specs.SubInstances as spec;

    ghost Value = { spec.SubConnection };

    ghost use Rattle.dft_verilog_draft.specs.SubConnectionShown.{connection_of};

    ghost view = { connection_of };
}

impl<'a> SubConnection<'a> {
    /// A connection of this port to these bits.
    pub fn new(left: usize, port: Word<'a>, signals: PinSignals) -> SubConnection<'a>
        ensures { result ≡ record { left = left; port = port.entry; signals = signals } }
    {
        SubConnection {
            left,
            port,
            signals,
        }
    }

    /// How many bytes there are from its port's name to the end of the text.
    pub fn left(&self) -> usize
        ensures { result ≡ self.now.left }
    {
        self.left
    }

    /// The name of its port.
    pub fn port(&self) -> &Word<'a>
        ensures { result.now ≡ self.now.port }
    {
        &self.port
    }

    /// The bits that the port is joined to.
    pub fn signals(&self) -> &[Signal]
        ensures { result.now ≡ self.now.signals }
    {
        self.signals.as_slice()
    }
}
