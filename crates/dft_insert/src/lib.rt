//! The scanned netlist of a design, plain or behind compression hardware, and the laws of it.
#![tactic(auto)]

mod adding;
mod building;
mod chaining;
mod edt;
mod frame;
mod framing;
mod insertion;
mod laws;
mod new_port;
mod outputs;
mod pins;
mod plain;
mod ports;
mod scanned;
mod style;
mod told;

pub use building::{Unfinished, make_scanned};
pub use dft_scan_frame::InsertError;
pub use insertion::insert;
pub use laws::{scanned_agrees, scanned_can_finish, scanned_counts, scanned_keeps};
pub use new_port::NewPort;
pub use scanned::Scanned;
pub use style::Style;
