ghost use Rattle.std.specs.Prelude.{◌≡◌, ◌<◌, ◌++◌, ◌∷◌, [], IfOk, OnOk, OnErr, length, slice_set};

use crate::instance::Signal;
use smallvec::SmallVec;
use std::alloc::{AllocError, Global};
use std::marker::Model;

/// What the pins of an instance are joined to, in the order of its cell's pins. A clause sees it as a list.
#[derive(Debug)]
pub struct PinSignals {
    signals: SmallVec<Signal, 6>,
}

// One call for all fields, so that the proof of what owns a value stays short.
impl Drop for PinSignals {
    fn drop(self) {
        let PinSignals { signals: _ } = self;
    }
}

impl Model for PinSignals {
    ghost use Rattle.std.specs.Prelude.{List};
    ghost use Rattle.dft_netlist.specs.declared.instance.Signal.{Signal};

    ghost Value = { List Signal };

    ghost view = { λ p. p.signals.items };
}

impl PinSignals {
    /// No pin yet.
    pub fn new(alloc: Global) -> PinSignals
        ensures { result ≡ [] }
    {
        PinSignals {
            signals: SmallVec::new(alloc),
        }
    }

    /// Adds a pin at the end.
    pub fn push(&mut self, signal: Signal) -> Result<(), AllocError>
        ensures ok { OnOk result (self.new ≡ self.old ++ signal ∷ []) }
        ensures err { OnErr result (self.new ≡ self.old) }
    {
        self.signals.push(signal)?;
        Ok(())
    }

    /// Pins that are joined to these.
    pub fn from_slice(alloc: Global, signals: &[Signal]) -> Result<PinSignals, AllocError>
        ensures { IfOk result (λ pins. pins ≡ signals.now) }
    {
        Ok(PinSignals {
            signals: SmallVec::from_slice(alloc, signals)?,
        })
    }

    /// Joins the pin of this number anew.
    pub fn set(&mut self, pin: usize, signal: Signal)
        requires { pin < length self.old }
        ensures { self.new ≡ slice_set self.old pin signal }
    {
        self.signals.as_mut_slice()[pin] = signal;
    }

    /// What the pins are joined to.
    pub fn as_slice(&self) -> &[Signal]
        ensures { result.now ≡ self.now }
    {
        self.signals.as_slice()
    }
}
