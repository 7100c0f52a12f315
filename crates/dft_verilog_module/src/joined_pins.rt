ghost use Rattle.std.specs.Prelude.{◌≡◌, ◌<◌, IfOk, None, Some, length, replicate, slice_set};

use dft_netlist::Signal;
use smallvec::SmallVec;
use std::alloc::{AllocError, Global};
use std::marker::Model;

/// What the pins of a cell are joined to so far, in its order. A clause sees it as a list.
#[derive(Debug)]
pub struct JoinedPins {
    pins: SmallVec<Option<Signal>, 6>,
}

// One call for all fields, so that the proof of what owns a value stays short.
impl Drop for JoinedPins {
    fn drop(self) {
        let JoinedPins { pins: _ } = self;
    }
}

impl Model for JoinedPins {
    ghost use Rattle.dft_netlist_text.specs.Items.{Joined};

    ghost Value = { Joined };

    ghost view = { λ j. j.pins.items };
}

impl JoinedPins {
    /// So many pins, none of them joined.
    pub fn unjoined(alloc: Global, count: usize) -> Result<JoinedPins, AllocError>
        ensures { IfOk result (λ joined. joined ≡ replicate count None) }
    {
        Ok(JoinedPins {
            pins: SmallVec::from_elem(alloc, None, count)?,
        })
    }

    /// Joins a pin.
    pub fn join(&mut self, pin: usize, to: Signal)
        requires { pin < length self.old }
        ensures { self.new ≡ slice_set self.old pin (Some to) }
    {
        self.pins.as_mut_slice()[pin] = Some(to);
    }

    /// What the pins are joined to.
    pub fn as_slice(&self) -> &[Option<Signal>]
        ensures { result.now ≡ self.now }
    {
        self.pins.as_slice()
    }
}
