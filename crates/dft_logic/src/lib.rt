//! A design's circuit: what each net takes its value from, in one order, and the flip-flop or lock-up of each instance.
#![tactic(auto)]

mod building;
mod circuit;
mod compiling;
mod flipflops;
mod packed;
mod tables;
mod values;
mod wires;

pub use building::compile;
pub use circuit::{Acting, Circuit, FlipFlop, Latch, Op, Operand, Operands, ScanPins};
pub use flipflops::forced;
pub use packed::Table;
pub use tables::{force_net, list_of};
pub use values::{differ, domain_at, flag_at, takes, value_at};
