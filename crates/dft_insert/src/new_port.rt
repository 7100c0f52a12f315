use dft_base::{Dir, Name};
use std::marker::Model;

/// A port of one bit that is added.
#[derive(Debug)]
pub struct NewPort {
    pub name: Name,
    pub dir: Dir,
}

// One call for all fields, so that the proof of what owns a value stays short.
impl Drop for NewPort {
    fn drop(self) {
        let NewPort { name: _, dir: _ } = self;
    }
}

impl Model for NewPort {
    ghost use Rattle.dft_scan_frame.specs.AddedPorts as added;

    ghost Value = { added.NewPort };

    ghost view = { λ p. record { name = p.name; dir = p.dir } };
}
