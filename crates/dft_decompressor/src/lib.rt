//! Decompressors for any number of chains and channels: the ring, its injectors, and the phase sets behind it.
#![tactic(auto)]

mod fits;
mod injecting;
mod shifter;
mod sizing;
mod stage_sets;
mod stamps;
mod taken;
mod tapping;
mod threes;

pub use fits::{Fitting, fit};
pub use injecting::injectors;
pub use shifter::phases;
pub use sizing::{need, sizes};
pub use stamps::carried;
pub use tapping::taps;
